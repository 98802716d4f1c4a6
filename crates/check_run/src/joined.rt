// The answers of a run that joins certificates.
ghost use Rattle.std.specs.Prelude.{◌≡◌, IfOk};
ghost use Rattle.check_run.specs.Joined.{apart_text, not_joined_line};
ghost use Rattle.check_run.specs.Run.{JoinHasCause, SameIn};
ghost use Rattle.check_run.specs.Several.{EndsKept, TellsPart};

use crate::cert_fault;
use crate::check::shown;
use crate::ports::say;
use crate::status::Status;
use cert_check::{CertFault, Verdict};
use desk::{Denied, Desk};
use std::alloc::{AllocError, Global};

/// The certificate of this number, from 1 on, is refused for this fault. Out of memory has no text, and is answered
/// again.
pub fn refused_part(alloc: Global, number: usize, fault: CertFault) -> Result<Vec<u8>, AllocError>
    ensures { IfOk result (λ text. TellsPart number fault text.items) }
{
    let line = format!(in alloc; "certificate {number}\n")?;
    let said = cert_fault(alloc, fault)?;
    let mut text = line.into_bytes();
    text.extend_from_slice(&said)?;
    Ok(text)
}

/// The certificate of this number, from 1 on, has another margin or delta than the first one, in this line.
pub fn not_joined_at(alloc: Global, number: usize, line: u64) -> Result<Vec<u8>, AllocError>
    ensures { IfOk result (λ text. text.items ≡ apart_text number line) }
{
    let text = format!(in alloc; "certificate {number}\nnot joined line {line}\n")?;
    Ok(text.into_bytes())
}

/// A line of what was joined is refused.
pub fn not_joined(alloc: Global, line: u64) -> Result<Vec<u8>, AllocError>
    ensures { IfOk result (λ text. text.items ≡ not_joined_line line) }
{
    let text = format!(in alloc; "not joined line {line}\n")?;
    Ok(text.into_bytes())
}

/// Keeps what was drafted, and answers its verdict.
pub fn keep_joined<D: Desk>(alloc: Global, desk: &mut D, verdict: Verdict) -> Status
    ensures ends { EndsKept verdict (D.sight desk.old) (D.sight desk.new) result }
    ensures same { SameIn (D.sight desk.old) (D.sight desk.new) }
    ensures cause { JoinHasCause (D.sight desk.old) (D.sight desk.new) result }
{
    let Ok(text) = shown(alloc, verdict) else {
        return Status::NoMemory;
    };
    match desk.keep() {
        Ok(()) => say(desk, Status::Answered, &text),
        Err(Denied::Failed) => Status::OutFailed,
        Err(Denied::Memory) => Status::NoMemory,
    }
}
