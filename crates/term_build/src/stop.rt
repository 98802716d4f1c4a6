// Why a builder stops.
ghost use Rattle.std.specs.Prelude.{◌≡◌};
ghost use Rattle.term_build.specs.Does.{limited_to};
ghost use Rattle.term_build.specs.declared.stop.Stop.TheVariants.{Memory};

use poly_graph::NoNode;
use script_fault::{Limit, Place};
use std::alloc::{AllocError, AllocFailed};

/// A fault of an expression's unfolding.
#[derive(Clone, Copy, Debug, PartialEq, Eq)]
pub enum Fault {
    NumberTooWide,
    DivisorNotConstant,
    ZeroDivisor,
    /// The expression has no sort.
    IllFormed,
}

/// A fault where it stands, a limit, or memory.
#[derive(Clone, Copy, Debug, PartialEq, Eq)]
pub enum Stop {
    Fault(Place, Fault),
    TooMany(Limit),
    Memory,
}

impl From<AllocError> for Stop {
    ghost from_gives = { λ _ e. e ≡ Memory };

    fn from(_: AllocError) -> Self {
        Stop::Memory
    }
}

impl<T: Drop> From<AllocFailed<T>> for Stop {
    ghost from_gives = { λ _ e. e ≡ Memory };

    fn from(_: AllocFailed<T>) -> Self {
        Stop::Memory
    }
}

/// A number, or why there is none.
pub(crate) fn limited(made: Result<u32, NoNode>) -> Result<u32, Stop>
    ensures { result ≡ limited_to made }
{
    match made {
        Ok(k) => Ok(k),
        Err(NoNode::TooMany(poly_graph::Limit::Nodes)) => Err(Stop::TooMany(Limit::Nodes)),
        Err(NoNode::TooMany(poly_graph::Limit::Atoms)) => Err(Stop::TooMany(Limit::Atoms)),
        Err(NoNode::TooMany(poly_graph::Limit::Forms)) => Err(Stop::TooMany(Limit::Forms)),
        Err(NoNode::Memory) => Err(Stop::Memory),
    }
}
