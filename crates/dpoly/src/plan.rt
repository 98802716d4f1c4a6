// `plan`, from the problems of a script's checks to its answer.
ghost use Rattle.std.specs.Prelude.{◌≡◌, ◌<◌, ◌≤◌, [], IfOk};
ghost use Rattle.poly_graph.specs.ProblemViews.{problem_of};
ghost use Rattle.problem_session.specs.Session.{problems_of};
ghost use Rattle.cert_model.specs.SessionLaws.{IsSession};
ghost use Rattle.width_plan.specs.Views.{answer_of};
ghost use Rattle.check_run.specs.Course.{RunEnds};
ghost use Rattle.check_run.specs.Can.{CanPlan, plan_text};
ghost use Rattle.check_run.specs.Run.{PlanHasCause, SameIn};
ghost use Rattle.dpoly.specs.Plan.{ArePlanTexts, IsPlanText};

use check_run::{Status, plan_least_bits, plan_no_atom, plan_no_axis, say};
use desk::Desk;
use poly_graph::Problem;
use problem_session::Session;
use std::alloc::{AllocError, Global};
use width_plan::{Plan, plan_widths};

// The text of a plan.
fn text_of(alloc: Global, plan: Plan) -> Result<Vec<u8>, AllocError>
    ensures { IfOk result (λ text. text.items ≡ plan_text (answer_of plan)) }
{
    match plan {
        Plan::Least(bits) => plan_least_bits(alloc, bits),
        Plan::NoAtom(atom) => plan_no_atom(alloc, atom),
        Plan::NoAxis(axis) => plan_no_axis(alloc, axis),
    }
}

// The text of a problem's plan.
fn planned(
    alloc: Global,
    problem: &Problem,
    delta_bits: u32,
    margin_bits: u32,
) -> Result<Vec<u8>, AllocError>
    requires order { delta_bits < margin_bits }
    requires few { margin_bits ≤ 60 }
    ensures { IfOk result (λ text.
        IsPlanText (problem_of problem.now) delta_bits margin_bits text.items) }
{
    let plan = plan_widths(alloc, problem, delta_bits, margin_bits)?;
    text_of(alloc, plan)
}

// The texts of the plans of a session's problems, one after the other.
fn all_planned(
    alloc: Global,
    session: &Session,
    delta_bits: u32,
    margin_bits: u32,
) -> Result<Vec<u8>, AllocError>
    requires session { IsSession (problems_of session.now) }
    requires order { delta_bits < margin_bits }
    requires few { margin_bits ≤ 60 }
    ensures { IfOk result (λ text.
        ArePlanTexts (problems_of session.now) delta_bits margin_bits text.items) }
{
    let mut problem = session.first(alloc)?;
    let mut text = planned(alloc, &problem, delta_bits, margin_bits)?;
    for k in 1..session.len() {
        problem = session.next(alloc, k - 1, &problem)?;
        let one = planned(alloc, &problem, delta_bits, margin_bits)?;
        text.extend_from_slice(&one)?;
    }
    Ok(text)
}

/// Answers the plans of the problems of a session.
pub fn plan_session<D: Desk>(
    alloc: Global,
    desk: &mut D,
    session: &Session,
    delta_bits: u32,
    margin_bits: u32,
) -> Status
    requires session { IsSession (problems_of session.now) }
    requires order { delta_bits < margin_bits }
    requires few { margin_bits ≤ 60 }
    ensures ends { RunEnds (CanPlan (problems_of session.now) delta_bits margin_bits) []
        (D.sight desk.old) (D.sight desk.new) result }
    ensures same { SameIn (D.sight desk.old) (D.sight desk.new) }
    ensures cause { PlanHasCause (D.sight desk.old) (D.sight desk.new) result }
{
    match all_planned(alloc, session, delta_bits, margin_bits) {
        Ok(text) => say(desk, Status::Answered, &text),
        Err(_) => Status::NoMemory,
    }
}
