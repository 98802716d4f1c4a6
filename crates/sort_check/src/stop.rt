// What stops a check of sorts: a fault at its place, or memory.
ghost use Rattle.std.specs.Prelude.{◌≡◌};
ghost use Rattle.script_model.specs.Reading.{unknown};
ghost use Rattle.sort_check.specs.Sorts.{because, if_takes};
ghost use Rattle.sort_check.specs.Views.{IsSortAnswer};
ghost use Rattle.smt_sexp.specs.Views.{place_of};
ghost use Rattle.smt_script.specs.Views.{sort_of};
ghost use Rattle.sort_check.specs.declared.stop.Stop.TheVariants.{Memory};

use script_fault::{Name, Place};
use smt_script::Sort;
use std::alloc::{AllocError, AllocFailed};

/// A fault of the sorts and names of a script.
#[derive(Clone, Copy, Debug)]
pub(crate) enum Fault<'a> {
    UnknownSymbol(&'a Name),
    Redeclared(&'a Name),
    SortMismatch,
    /// A form that is not read.
    LeftOut,
    TooManyAxes,
}

/// A fault with its place, or memory.
#[derive(Clone, Copy, Debug)]
pub(crate) enum Stop<'a> {
    Fault(Place, Fault<'a>),
    Memory,
}

impl<'a> From<AllocError> for Stop<'a> {
    ghost from_gives = { λ _ e. e ≡ Memory };

    fn from(_: AllocError) -> Self {
        Stop::Memory
    }
}

impl<'a, T: Drop> From<AllocFailed<T>> for Stop<'a> {
    ghost from_gives = { λ _ e. e ≡ Memory };

    fn from(_: AllocFailed<T>) -> Self {
        Stop::Memory
    }
}

/// This sort where it holds, and else a mismatch.
pub(crate) fn if_takes<'a>(place: Place, holds: bool, sort: Sort) -> Result<Sort, Stop<'a>>
    ensures { IsSortAnswer result (if_takes (place_of place) holds (sort_of sort)) }
{
    if holds {
        Ok(sort)
    } else {
        Err(Stop::Fault(place, Fault::SortMismatch))
    }
}

/// A name that is not known: `sqrt` is left out.
pub(crate) fn unknown(place: Place, name: &Name) -> Result<Sort, Stop<'_>>
    ensures { IsSortAnswer result (because (place_of place) (unknown name.now)) }
{
    if name.as_slice() == b"sqrt".as_slice() {
        Err(Stop::Fault(place, Fault::LeftOut))
    } else {
        Err(Stop::Fault(place, Fault::UnknownSymbol(name)))
    }
}
