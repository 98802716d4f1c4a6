// Why a walk stops.
ghost use Rattle.std.specs.Prelude.{◌≡◌};
ghost use Rattle.root_rewriting.specs.declared.unfold.stop.Stop.TheVariants.{Memory};

use std::alloc::{AllocError, AllocFailed};

/// A limit, or memory.
#[derive(Clone, Copy, Debug)]
pub(crate) enum Stop {
    /// More expressions than may be reached.
    TooLarge,
    Memory,
}

impl From<AllocError> for Stop {
    ghost from_gives = { λ _ e. e ≡ Memory };

    fn from(_: AllocError) -> Self {
        Stop::Memory
    }
}

impl<T: Drop> From<AllocFailed<T>> for Stop {
    ghost from_gives = { λ _ e. e ≡ Memory };

    fn from(_: AllocFailed<T>) -> Self {
        Stop::Memory
    }
}
