// The fault of a builder that stops.
ghost use Rattle.std.specs.Prelude.{◌≡◌};
ghost use Rattle.script_forms.specs.Walk.{Walked};
ghost use Rattle.smt_sexp.specs.Views.{place_of};
ghost use Rattle.term_build.specs.Does.{StopsAs};
ghost use Rattle.problem_build.specs.BuildAnswers.{IsBuildingError, builder_kind, found_by};

use script_fault::{FaultKind, Place, ReadError};
use term_build::{Fault, Stop};

/// What stops the walk within the assertion at this place: a fault of an expression at that expression, a limit at the
/// assertion.
pub(crate) fn building_error(claim: Place, stop: Stop) -> ReadError
    ensures { (w : Walked) → StopsAs (place_of claim) w stop → IsBuildingError result (found_by w) }
{
    match stop {
        Stop::Fault(at, fault) => ReadError::at(at, kind(fault)),
        Stop::TooMany(what) => ReadError::at(claim, FaultKind::TooMany(what)),
        Stop::Memory => ReadError::Memory,
    }
}

// The kind of an expression's fault. Where sorts were checked, none is without a sort.
fn kind(fault: Fault) -> FaultKind
    ensures { result ≡ builder_kind fault }
{
    match fault {
        Fault::NumberTooWide => FaultKind::NumberTooWide,
        Fault::DivisorNotConstant => FaultKind::DivisorNotConstant,
        Fault::ZeroDivisor => FaultKind::ZeroDivisor,
        Fault::IllFormed => FaultKind::SortMismatch,
    }
}
