// The refusals of a certificate.
ghost use Rattle.std.specs.Prelude.{◌≡◌, IfOk, Some};
ghost use Rattle.cert_check.specs.declared.fault.CertFault.TheVariants.{RuleFails};
ghost use Rattle.cert_check.specs.Faults.{stop_of};
ghost use Rattle.check_run.specs.Stops.{stop_text};

use cert_check::CertFault;
use cover_line::Word;
use std::alloc::{AllocError, Global};

/// The certificate is refused for this fault. Out of memory has no text, and is answered again.
pub fn cert_fault(alloc: Global, fault: CertFault) -> Result<Vec<u8>, AllocError>
    ensures { IfOk result (λ text. stop_text (stop_of fault) ≡ Some text.items) }
{
    let (words, line) = match fault {
        CertFault::BadHeader { line } => ("1 BadHeader", line),
        CertFault::BadNumber { line } => ("2 BadNumber", line),
        CertFault::RuleFails { rule, line } => return failed_rule(alloc, rule, line),
        CertFault::KeepFails { line } => ("3 RuleFails keep", line),
        CertFault::OverFails { line } => ("3 RuleFails over", line),
        CertFault::Missing { line } => ("4 Missing", line),
        CertFault::Extra { line } => ("5 Extra", line),
        CertFault::WrongBound { line } => ("6 WrongBound", line),
        CertFault::NotShown { line } => ("7 NotShown", line),
        CertFault::BadLine { line } => ("8 BadLine", line),
        CertFault::LineTooLong { line } => ("9 LineTooLong", line),
        CertFault::TooLong { line } => ("10 TooLong", line),
        CertFault::Memory => return Err(AllocError),
    };
    let text = format!(in alloc; "certificate fault {words} line {line}\n")?;
    Ok(text.into_bytes())
}

// A rule whose condition fails, by the first word of its line.
fn failed_rule(alloc: Global, rule: Word, line: u64) -> Result<Vec<u8>, AllocError>
    ensures { IfOk result (λ text.
        stop_text (stop_of (RuleFails rule line)) ≡ Some text.items) }
{
    let word = rule.text();
    let text = format!(in alloc; "certificate fault 3 RuleFails {word} line {line}\n")?;
    Ok(text.into_bytes())
}
