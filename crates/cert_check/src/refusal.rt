// Why a line is refused, before its number is known.
ghost use Rattle.std.specs.Prelude.{◌≡◌};
ghost use Rattle.cert_check.specs.Faults.{fault_at, refusal_of};
ghost use Rattle.cert_check.specs.declared.refusal.Refusal.TheVariants.{Memory};

use crate::fault::CertFault;
use cert_read::LineFault;
use cover_line::Word;
use std::alloc::{AllocError, AllocFailed};

/// The fault of a line.
#[derive(Clone, Copy)]
pub enum Refusal {
    BadHeader,
    BadNumber,
    RuleFails(Word),
    KeepFails,
    OverFails,
    Missing,
    Extra,
    WrongBound,
    NotShown,
    BadLine,
    LineTooLong,
    Memory,
}

impl From<AllocError> for Refusal {
    ghost from_gives = { λ _ e. e ≡ Memory };

    fn from(_: AllocError) -> Self {
        Refusal::Memory
    }
}

impl<T: Drop> From<AllocFailed<T>> for Refusal {
    ghost from_gives = { λ _ e. e ≡ Memory };

    fn from(_: AllocFailed<T>) -> Self {
        Refusal::Memory
    }
}

impl Refusal {
    /// The fault with the number of its line.
    pub fn at(self, line: u64) -> CertFault
        ensures { result ≡ fault_at self line }
    {
        match self {
            Refusal::BadHeader => CertFault::BadHeader { line },
            Refusal::BadNumber => CertFault::BadNumber { line },
            Refusal::RuleFails(rule) => CertFault::RuleFails { rule, line },
            Refusal::KeepFails => CertFault::KeepFails { line },
            Refusal::OverFails => CertFault::OverFails { line },
            Refusal::Missing => CertFault::Missing { line },
            Refusal::Extra => CertFault::Extra { line },
            Refusal::WrongBound => CertFault::WrongBound { line },
            Refusal::NotShown => CertFault::NotShown { line },
            Refusal::BadLine => CertFault::BadLine { line },
            Refusal::LineTooLong => CertFault::LineTooLong { line },
            Refusal::Memory => CertFault::Memory,
        }
    }
}

/// The fault of a line without a form.
pub fn unread(fault: LineFault) -> Refusal
    ensures { result ≡ refusal_of fault }
{
    match fault {
        LineFault::BadLine => Refusal::BadLine,
        LineFault::BadNumber => Refusal::BadNumber,
        LineFault::LineTooLong => Refusal::LineTooLong,
        LineFault::Memory => Refusal::Memory,
    }
}
