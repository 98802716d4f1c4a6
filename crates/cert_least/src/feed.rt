// A certificate that comes by pieces.
ghost use Rattle.std.specs.Prelude.{◌≡◌, ◌≤◌, ◌<◌, ◌+◌, ◌^◌, [], false, IfOk, OnOk, length};
ghost use Rattle.cert_model.specs.Accepted.{most_bytes};
ghost use Rattle.cert_least.specs.Feeding.{bytes_taken, HasTaken, IsEnded, IsFedPiece, IsVerdictOfTaken};

use crate::checker::GoalChecker;
use crate::verdict::GoalVerdict;
use cert_check::CertFault;
use cert_read::LineReader;
use poly_graph::Problem;
use std::alloc::{AllocError, Global};

// A certificate has at most so many bytes.
const MOST_BYTES: u64 = u64::MAX;

/// A checker with the reader of its lines, and how many bytes they were fed: at most 2^64 - 1, the limit of a
/// certificate.
#[derive(Drop)]
pub struct GoalFeed<'a> {
    checker: GoalChecker<'a>,
    reader: LineReader,
    taken: u64,
}

impl<'a> GoalFeed<'a> {
    // The checker, which was fed nothing.
    fn begin(alloc: Global, checker: GoalChecker<'a>) -> GoalFeed<'a>
        ensures checker { result.checker ≡ checker.entry }
        ensures reader { result.reader ≡ record { unread = []; ended = false } }
        ensures taken { result.taken ≡ 0 }
    {
        GoalFeed {
            checker,
            reader: LineReader::new(alloc),
            taken: 0,
        }
    }

    /// A checker that was fed nothing, for the problem of the only check of a script, whose goal is the term of this
    /// atom, and where `bound` is the bound of the words.
    pub fn new(
        alloc: Global,
        problem: &Problem,
        goal: u32,
        bound: Option<u32>,
    ) -> Result<GoalFeed<'a>, AllocError>
        requires { goal < length problem.now.atoms }
        ensures { IfOk result (HasTaken problem.now goal bound []) }
    {
        let checker = GoalChecker::new(alloc, problem, goal, bound)?;
        Ok(GoalFeed::begin(alloc, checker))
    }

    // Takes a piece with which the certificate is not too long.
    fn within(&mut self, piece: &[u8]) -> Result<(), CertFault>
        requires { self.old.taken + length piece.now ≤ most_bytes }
        ensures goes { IsFedPiece self.old piece.now self.new result }
        ensures more { OnOk result (self.new.taken ≡ self.old.taken + length piece.now) }
        ensures fits { self.new.taken < 2 ^ 64 }
    {
        let _taken = self.taken;
        match self.reader.feed(piece) {
            Ok(()) => {}
            Err(_) => return Err(CertFault::Memory),
        }
        match self.checker.take(&mut self.reader) {
            Ok(()) => {
                self.taken += piece.len() as u64;
                Ok(())
            }
            Err(fault) => Err(fault),
        }
    }

    /// Takes a piece, and answers the certificate's first fault.
    pub fn piece(&mut self, piece: &[u8]) -> Result<(), CertFault>
        ensures goes { IsFedPiece self.old piece.now self.new result }
        ensures more { OnOk result (bytes_taken self.new
            ≡ bytes_taken self.old + length piece.now) }
        ensures fits { bytes_taken self.new < 2 ^ 64 }
    {
        let left = MOST_BYTES - self.taken;
        if piece.len() as u64 <= left {
            return self.within(piece);
        }
        match self.within(&piece[..left as usize]) {
            Ok(()) => Err(self.checker.too_long()),
            Err(fault) => Err(fault),
        }
    }

    // Takes the last line, where the certificate ends here.
    fn take_rest(&mut self)
        ensures { IsEnded self.old self.new.checker }
    {
        self.reader.end();
        // A fault of the last lines is answered again.
        let _ = self.checker.take(&mut self.reader);
    }

    /// The verdict, where the certificate ends here.
    pub fn end(&mut self) -> Result<GoalVerdict, CertFault>
        ensures { IsVerdictOfTaken self.old result }
    {
        let _taken = self.taken;
        self.take_rest();
        self.checker.finish()
    }
}
