// Why a certificate is refused.
ghost use Rattle.std.specs.Prelude.{◌≡◌};
ghost use Rattle.cert_check.specs.declared.fault.CertFault.TheVariants.{Memory};

use cover_line::Word;
use std::alloc::AllocError;
use thiserror::Error;

/// The first fault of a certificate, with the number of its line, from 1 on. Where the input ends too early, that is
/// one more than the number of lines.
#[derive(Clone, Copy, Debug, PartialEq, Eq, Error)]
pub enum CertFault {
    /// One of the first five lines is another than its place asks, or its number is out of its limits.
    #[error("line {line}: a bad header")]
    BadHeader { line: u64 },
    /// A number is not spelled as it must be, or names nothing that is there.
    #[error("line {line}: a bad number")]
    BadNumber { line: u64 },
    /// The rule's condition does not hold, or the rule may not stand in its tree.
    #[error("line {line}: the rule {rule:?} fails")]
    RuleFails { rule: Word, line: u64 },
    /// The lemmas of the part before that `keep` names may not be kept.
    #[error("line {line}: the lemmas may not be kept")]
    KeepFails { line: u64 },
    /// The goal may be below its lower bound, or there is none here.
    #[error("line {line}: the goal may be below its bound")]
    OverFails { line: u64 },
    /// Another line is due.
    #[error("line {line}: a line is missing")]
    Missing { line: u64 },
    /// A line too many.
    #[error("line {line}: a line too many")]
    Extra { line: u64 },
    /// The header's bound is another than that of the words.
    #[error("line {line}: another bound")]
    WrongBound { line: u64 },
    /// The point is not accepted.
    #[error("line {line}: the point is not shown")]
    NotShown { line: u64 },
    /// A line of no form, or a word that its place does not allow.
    #[error("line {line}: a line of no known form")]
    BadLine { line: u64 },
    /// More than 524,288 bytes without a line feed.
    #[error("line {line}: a line too long")]
    LineTooLong { line: u64 },
    /// More bytes than a certificate may have; its line is 0.
    #[error("line {line}: too many bytes")]
    TooLong { line: u64 },
    /// There was no memory.
    #[error("no memory")]
    Memory,
}

impl From<AllocError> for CertFault {
    ghost from_gives = { λ _ e. e ≡ Memory };

    fn from(_: AllocError) -> Self {
        CertFault::Memory
    }
}
