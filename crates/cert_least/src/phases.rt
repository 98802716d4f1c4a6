// The phases of a certificate, line by line.
ghost use Rattle.std.specs.Prelude.{◌≡◌, ◌<◌, ◌-◌, ◌^◌, ℕ};
ghost use Rattle.cert_read.specs.Views.{line_of};
ghost use Rattle.cert_least.specs.Judging.{aim_of, IsReady, IsSameAim};
ghost use Rattle.cert_least.specs.Phases.{IsPlaced, IsSoundPhase};
ghost use Rattle.cert_least.specs.Steps.{IsAimNext, IsPhaseAfter};

use crate::aim::Aim;
use crate::cover::in_cover_line;
use crate::fault::at_line;
use crate::header::{cover_line, first_line, header_line, lower_line, plain_line};
use crate::phase::{Phase, fault_in};
use crate::point::in_point_line;
use cert_check::{CertFault, Checker};
use cert_read::Line;

/// A checker takes at most so many lines.
pub const MOST_LINES: u64 = u64::MAX - 1;

// The phase behind the line.
fn phase_behind(
    aim: &mut Aim,
    checker: &mut Checker<'_>,
    phase: Phase,
    line: &Line,
) -> Result<Phase, CertFault>
    requires { IsReady aim.old }
    ensures next { IsAimNext aim.old phase checker.old (line_of line.now) checker.new result }
    ensures ready { IsReady aim.new }
    ensures same { IsSameAim aim.old aim.new }
{
    match phase {
        Phase::Version => first_line(checker, line),
        Phase::Plain => plain_line(checker, line),
        Phase::Header(told) => header_line(checker, told, line),
        Phase::Lower(told) => lower_line(checker, told, line),
        Phase::Cover(told, scope) => cover_line(aim, checker, told, scope, line),
        Phase::InCover(scope) => in_cover_line(aim, checker, scope, line),
        Phase::InPoint(loosenings, lower) => in_point_line(checker, loosenings, lower, line),
        Phase::Stopped(fault) => Err(fault),
    }
}

// The same, or the fault with the number of the line, which follows so many others.
fn numbered(
    aim: &mut Aim,
    checker: &mut Checker<'_>,
    phase: Phase,
    lines: u64,
    line: &Line,
) -> Phase
    requires ready { IsReady aim.old }
    requires sound { IsPlaced (aim_of aim.old) phase checker.old }
    requires few { lines < 2 ^ 64 - 1 }
    ensures course { IsPhaseAfter aim.old phase checker.old lines (line_of line.now)
        checker.new result }
    ensures ready { IsReady aim.new }
    ensures same { IsSameAim aim.old aim.new }
    ensures sound { IsSoundPhase (aim_of aim.old) result checker.new }
{
    if lines >= MOST_LINES {
        return Phase::Stopped(CertFault::Memory);
    }
    match phase_behind(aim, checker, phase, line) {
        Ok(phase) => phase,
        Err(fault) => Phase::Stopped(at_line(fault, lines + 1)),
    }
}

/// The phase behind a line that follows so many others; a fault is answered for good.
pub fn phase_after(
    aim: &mut Aim,
    checker: &mut Checker<'_>,
    phase: Phase,
    lines: u64,
    line: &Line,
) -> Phase
    requires ready { IsReady aim.old }
    requires sound { IsSoundPhase (aim_of aim.old) phase checker.old }
    requires few { lines < 2 ^ 64 - 1 }
    ensures course { IsPhaseAfter aim.old phase checker.old lines (line_of line.now)
        checker.new result }
    ensures ready { IsReady aim.new }
    ensures same { IsSameAim aim.old aim.new }
    ensures sound { IsSoundPhase (aim_of aim.old) result checker.new }
{
    match fault_in(phase) {
        Some(fault) => Phase::Stopped(fault),
        None => numbered(aim, checker, phase, lines, line),
    }
}
