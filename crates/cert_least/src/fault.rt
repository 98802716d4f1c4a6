// Faults at another line.
ghost use Rattle.std.specs.Prelude.{◌≡◌};
ghost use Rattle.cert_least.specs.Steps.{renumbered};

use cert_check::CertFault;

/// The same fault, of another line.
pub fn at_line(fault: CertFault, line: u64) -> CertFault
    ensures { result ≡ renumbered fault line }
{
    match fault {
        CertFault::BadHeader { .. } => CertFault::BadHeader { line },
        CertFault::BadNumber { .. } => CertFault::BadNumber { line },
        CertFault::RuleFails { rule, .. } => CertFault::RuleFails { rule, line },
        CertFault::KeepFails { .. } => CertFault::KeepFails { line },
        CertFault::OverFails { .. } => CertFault::OverFails { line },
        CertFault::Missing { .. } => CertFault::Missing { line },
        CertFault::Extra { .. } => CertFault::Extra { line },
        CertFault::WrongBound { .. } => CertFault::WrongBound { line },
        CertFault::NotShown { .. } => CertFault::NotShown { line },
        CertFault::BadLine { .. } => CertFault::BadLine { line },
        CertFault::LineTooLong { .. } => CertFault::LineTooLong { line },
        CertFault::TooLong { .. } => CertFault::TooLong { line },
        CertFault::Memory => CertFault::Memory,
    }
}
