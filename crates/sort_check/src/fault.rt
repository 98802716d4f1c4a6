// The first fault of a script's names and sorts, with names of its own.
ghost use Rattle.std.specs.Prelude.{Err};
ghost use Rattle.sort_check.specs.Calls.{IsOwned};

use crate::stop::{Fault, Stop};
use script_fault::{FaultKind, Limit, Name, ReadError};
use std::alloc::Global;

/// What stops a check, with a name of its own. Until here a name is borrowed, so that no step of a check copies one.
pub(crate) fn owned(alloc: Global, stop: Stop<'_>) -> ReadError
    ensures { IsOwned stop.entry result }
{
    let Stop::Fault(place, fault) = stop else {
        return ReadError::Memory;
    };
    match fault {
        Fault::UnknownSymbol(name) => match Name::from_slice(alloc, name.as_slice()) {
            Ok(name) => ReadError::at(place, FaultKind::UnknownSymbol(name)),
            Err(_) => ReadError::Memory,
        },
        Fault::Redeclared(name) => match Name::from_slice(alloc, name.as_slice()) {
            Ok(name) => ReadError::at(place, FaultKind::Redeclared(name)),
            Err(_) => ReadError::Memory,
        },
        Fault::SortMismatch => ReadError::at(place, FaultKind::SortMismatch),
        Fault::LeftOut => ReadError::at(place, FaultKind::LeftOut),
        Fault::TooManyAxes => ReadError::at(place, FaultKind::TooMany(Limit::Axes)),
    }
}
