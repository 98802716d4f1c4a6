// The limit of the goal before a cover.
ghost use Rattle.std.specs.Prelude.{IfOk, IsTrue, option_map};
ghost use Rattle.dyadic.specs.Views.{dyadic_of};
ghost use Rattle.poly_graph.specs.ProblemViews.{problem_of};
ghost use Rattle.cert_model.specs.Accepted.{is_header};
ghost use Rattle.cert_least.specs.declared.phase.Phase.TheVariants as phase;
ghost use Rattle.cert_least.specs.Judging.{aim_of, IsReady};
ghost use Rattle.cert_least.specs.Phases.{told_of};
ghost use Rattle.cert_least.specs.Steps.{IsBegun, IsLimitBy, IsLimitNext};

use crate::again::begin_again;
use crate::aim::Aim;
use crate::phase::{Phase, Scope, Told};
use cert_check::{CertFault, Checker};
use dyadic::Dy;
use goal_limit::limited;
use poly_graph::Problem;
use std::alloc::AllocError;

// The problem with the lower bound as a limit of the goal in these bits; none where it can't be one.
fn limited_by(aim: &Aim, lower: Option<Dy>, bits: u32) -> Result<Option<Problem>, AllocError>
    requires { IsReady aim.now }
    ensures { IfOk result (IsLimitBy (aim_of aim.now) (option_map dyadic_of lower) bits) }
{
    match lower {
        None => Ok(None),
        Some(limit) => limited(aim.alloc, &aim.problem, aim.goal, bits, limit),
    }
}

// A checker of the problem with the limit takes the place of that of the problem without.
fn with_limit(
    aim: &Aim,
    problem: &Problem,
    checker: &mut Checker<'_>,
    told: Told,
    scope: Scope,
) -> Result<Phase, CertFault>
    ensures { IsTrue (is_header (told_of told)) → IsBegun (problem_of problem.now) aim.now.bound
        told (phase.Cover told scope) checker.new result }
{
    match begin_again(aim.alloc, problem, checker, told, aim.bound) {
        Ok(()) => Ok(Phase::Cover(told, scope)),
        Err(fault) => Err(fault),
    }
}

/// `goal`, with these bits, behind a header and this lower bound.
pub fn limit_line(
    aim: &Aim,
    checker: &mut Checker<'_>,
    told: Told,
    lower: Option<Dy>,
    bits: u32,
) -> Result<Phase, CertFault>
    requires { IsReady aim.now }
    ensures { IsLimitNext (aim_of aim.now) told lower bits checker.new result }
{
    match limited_by(aim, lower, bits) {
        Err(_) => Err(CertFault::Memory),
        Ok(None) => Err(CertFault::BadHeader { line: 0 }),
        Ok(Some(problem)) => {
            let scope = Scope {
                lower,
                bits: Some(bits),
            };
            with_limit(aim, &problem, checker, told, scope)
        }
    }
}
