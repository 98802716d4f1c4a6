// The point behind a cover.
ghost use Rattle.std.specs.Prelude.{◌≡◌};
ghost use Rattle.cert_read.specs.Views.{line_of};
ghost use Rattle.cert_check.specs.States.{loosenings_of};
ghost use Rattle.cert_least.specs.declared.phase.Phase.TheVariants as phase;
ghost use Rattle.cert_least.specs.Aims.{Aim as AimOf};
ghost use Rattle.cert_least.specs.Judging.{aim_of};
ghost use Rattle.cert_least.specs.Phases.{told_of};
ghost use Rattle.cert_least.specs.Steps.{IsPhaseNext, IsPointNext};

use crate::again::begin_again;
use crate::aim::Aim;
use crate::given::give;
use crate::phase::{Phase, Scope, Told};
use cert_check::{CertFault, Checker, Loosenings};
use cert_read::Line;
use dyadic::Dy;

// What the header of a cover told.
fn told_of(loosenings: Loosenings) -> Told
    ensures { told_of result ≡ loosenings_of loosenings }
{
    Told {
        version: loosenings.version,
        margin: loosenings.margin,
        delta: loosenings.delta,
    }
}

/// `point`, behind a cover with this header: a checker of the problem without a limit takes the place of that of the
/// cover.
pub fn point_behind(
    aim: &Aim,
    checker: &mut Checker<'_>,
    loosenings: Loosenings,
    scope: Scope,
) -> Result<Phase, CertFault>
    ensures { IsPointNext (aim_of aim.now) (loosenings_of loosenings) (phase.InCover scope)
        checker.new result }
{
    match begin_again(
        aim.alloc,
        &aim.problem,
        checker,
        told_of(loosenings),
        aim.bound,
    ) {
        Ok(()) => give(
            checker,
            &Line::Point,
            Phase::InPoint(loosenings, scope.lower),
        ),
        Err(fault) => Err(fault),
    }
}

/// A line of the point, or one behind it.
pub fn in_point_line(
    checker: &mut Checker<'_>,
    loosenings: Loosenings,
    lower: Option<Dy>,
    line: &Line,
) -> Result<Phase, CertFault>
    ensures { (a : AimOf) → IsPhaseNext a (phase.InPoint loosenings lower) checker.old
        (line_of line.now) checker.new result }
{
    give(checker, line, Phase::InPoint(loosenings, lower))
}
