// What is answered where the input ends.
ghost use Rattle.std.specs.Prelude.{◌≡◌, ◌<◌, ◌-◌, ◌^◌, ℕ, Option, Some, None, option_map};
ghost use Rattle.dyadic.specs.Views.{dyadic_of};
ghost use Rattle.cert_check.specs.States.{loosenings_of};
ghost use Rattle.cert_least.specs.declared.phase.Phase.TheVariants as phase;
ghost use Rattle.cert_least.specs.Aims.{Aim as AimOf};
ghost use Rattle.cert_least.specs.Courses.{Finishes};
ghost use Rattle.cert_least.specs.Endings.{IsCoverEnding, IsPlainEnding, IsPointEnding, said};
ghost use Rattle.cert_least.specs.Judging.{aim_of, IsReady, IsSameAim};
ghost use Rattle.cert_least.specs.Phases.{course_of, IsSoundPhase};

use crate::aim::{Aim, upper_end};
use crate::fault::at_line;
use crate::phase::{Phase, Scope};
use crate::verdict::{GoalVerdict, Least};
use cert_check::{CertFault, Checker, Loosenings};
use dyadic::{Dy, Ext};

// What an accepted certificate of least values says.
fn said(loosenings: Loosenings, lower: Option<Dy>, upper: Option<Ext>) -> GoalVerdict
    ensures { result ≡ said (loosenings_of loosenings) lower upper }
{
    GoalVerdict::Least(Least {
        margin: loosenings.margin,
        delta: loosenings.delta,
        lower,
        upper,
    })
}

// Of a certificate of the check.
fn plain_ending(checker: &Checker<'_>, lines: u64) -> Result<GoalVerdict, CertFault>
    requires { lines < 2 ^ 64 - 1 }
    ensures { IsPlainEnding checker.now lines result }
{
    match checker.finish() {
        Ok(verdict) => Ok(GoalVerdict::Check(verdict)),
        Err(fault) => Err(at_line(fault, lines + 1)),
    }
}

// In a cover of least values, or behind it.
fn cover_ending(checker: &Checker<'_>, scope: Scope, lines: u64) -> Result<GoalVerdict, CertFault>
    requires { lines < 2 ^ 64 - 1 }
    ensures { IsCoverEnding checker.now scope lines result }
{
    match checker.cover() {
        None => Err(CertFault::Missing { line: lines + 1 }),
        Some(cover) => Ok(said(*cover.loosenings, scope.lower, None)),
    }
}

// In its point, or behind that.
fn point_ending(
    aim: &mut Aim,
    checker: &Checker<'_>,
    loosenings: Loosenings,
    lower: Option<Dy>,
    lines: u64,
) -> Result<GoalVerdict, CertFault>
    requires ready { IsReady aim.old }
    requires few { lines < 2 ^ 64 - 1 }
    ensures ending { IsPointEnding aim.old checker.now loosenings lower lines result }
    ensures ready { IsReady aim.new }
    ensures same { IsSameAim aim.old aim.new }
{
    match checker.point() {
        None => Err(CertFault::Missing { line: lines + 1 }),
        Some(point) => {
            let upper = upper_end(aim.enclosure(point));
            Ok(said(loosenings, lower, Some(upper)))
        }
    }
}

/// The verdict, where the input ends behind so many lines.
pub fn ending(
    aim: &mut Aim,
    checker: &Checker<'_>,
    phase: Phase,
    lines: u64,
) -> Result<GoalVerdict, CertFault>
    requires ready { IsReady aim.old }
    requires sound { IsSoundPhase (aim_of aim.old) phase checker.now }
    requires few { lines < 2 ^ 64 - 1 }
    ensures ending { Finishes (aim_of aim.old) (course_of phase checker.now.course lines) result }
    ensures ready { IsReady aim.new }
    ensures same { IsSameAim aim.old aim.new }
{
    match phase {
        Phase::Version => plain_ending(checker, lines),
        Phase::Plain => plain_ending(checker, lines),
        Phase::Header(_) => Err(CertFault::BadHeader { line: lines + 1 }),
        Phase::Lower(_) => Err(CertFault::BadHeader { line: lines + 1 }),
        Phase::Cover(..) => Err(CertFault::BadHeader { line: lines + 1 }),
        Phase::InCover(scope) => cover_ending(checker, scope, lines),
        Phase::InPoint(loosenings, lower) => {
            point_ending(aim, checker, loosenings, lower, lines)
        }
        Phase::Stopped(fault) => Err(fault),
    }
}
