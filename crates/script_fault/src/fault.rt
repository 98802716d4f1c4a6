// Faults of a script.
ghost use Rattle.std.specs.Prelude.{◌≡◌};
ghost use Rattle.script_fault.specs.declared.fault.ReadError.TheVariants.{Memory};

use crate::{Limit, Name, Place};
use std::alloc::{AllocError, AllocFailed};
use thiserror::Error;

/// Why a script is refused.
#[derive(Debug, Drop, PartialEq, Eq, Error)]
pub enum FaultKind {
    /// A byte that is part of no token.
    #[error("bad byte")]
    BadByte,
    /// A string or a quoted symbol that does not end.
    #[error("token without an end")]
    OpenToken,
    /// A parenthesis without its other.
    #[error("parenthesis without its other")]
    Unbalanced,
    /// A number, or a constant that terms give, beyond 10^36.
    #[error("number too wide")]
    NumberTooWide,
    /// No command, or one in a wrong form.
    #[error("no command of this form")]
    BadCommand,
    /// A name that is not declared.
    #[error("unknown symbol {0}")]
    UnknownSymbol(Name),
    /// Arguments whose sorts do not fit.
    #[error("sorts do not fit")]
    SortMismatch,
    /// A name that is declared twice.
    #[error("{0} is declared again")]
    Redeclared(Name),
    /// A divisor that is not constant.
    #[error("divisor that is not constant")]
    DivisorNotConstant,
    /// A division by zero.
    #[error("division by zero")]
    ZeroDivisor,
    /// A constant to which neither the assertions nor the command line give a bound on one side.
    #[error("no bound of {0}")]
    NoBound(Name),
    /// A constant with a bound that is no number that is kept, and whose size is above 2^32.
    #[error("bound of {0} too wide")]
    BoundTooWide(Name),
    /// More than a limit allows.
    #[error("too many {0:?}")]
    TooMany(Limit),
    /// No `check-sat`.
    #[error("no check-sat")]
    NoCheck,
    /// A logic that is not read.
    #[error("another logic")]
    WrongLogic,
    /// A form of SMT-LIB that is left out of the language.
    #[error("left out of the language")]
    LeftOut,
}

/// A fault with its place, which is 0:0 where no part of the script shows it.
#[derive(Debug, Drop, PartialEq, Eq, Error)]
#[error("{kind} at {at}")]
pub struct ScriptFault {
    pub at: Place,
    pub kind: FaultKind,
}

/// Why a script is not read.
#[derive(Debug, Drop, PartialEq, Eq, Error)]
pub enum ReadError {
    /// The first fault of the script.
    #[error("{0}")]
    Fault(ScriptFault),
    #[error("out of memory")]
    Memory,
}

impl ReadError {
    /// The fault of this kind at this place.
    pub fn at(at: Place, kind: FaultKind) -> ReadError
        ensures { result ≡ ReadError.Fault (record { at = at; kind = kind }) }
    {
        ReadError::Fault(ScriptFault { at, kind })
    }
}

impl From<AllocError> for ReadError {
    ghost from_gives = { λ _ e. e ≡ Memory };

    fn from(_: AllocError) -> Self {
        ReadError::Memory
    }
}

impl<T: Drop> From<AllocFailed<T>> for ReadError {
    ghost from_gives = { λ _ e. e ≡ Memory };

    fn from(_: AllocFailed<T>) -> Self {
        ReadError::Memory
    }
}
