// Lines that go to the checker of the check.
ghost use Rattle.std.specs.Prelude.{◌≡◌};
ghost use Rattle.cert_read.specs.Views.{line_of};
ghost use Rattle.cert_least.specs.Steps.{IsGiven, IsGivenOn};

use crate::phase::Phase;
use cert_check::{CertFault, Checker};
use cert_read::Line;

/// Gives the line to the checker, behind which this phase is reached.
pub fn give(checker: &mut Checker<'_>, line: &Line, phase: Phase) -> Result<Phase, CertFault>
    ensures { IsGiven checker.old (line_of line.now) phase checker.new result }
{
    match checker.line(line) {
        Ok(()) => Ok(phase),
        Err(fault) => Err(fault),
    }
}

/// Gives the line to the checker.
pub fn advance(checker: &mut Checker<'_>, line: &Line) -> Result<(), CertFault>
    ensures { IsGivenOn checker.old (line_of line.now) checker.new result }
{
    match give(checker, line, Phase::Plain) {
        Ok(_) => Ok(()),
        Err(fault) => Err(fault),
    }
}
