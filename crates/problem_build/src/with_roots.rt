// A script that is read with roots: constants stand for its roots and quotients.
ghost use Rattle.std.specs.Prelude.{◌≡◌, ◌∷◌, List, IfOk, MatchResult, OnOk};
ghost use Rattle.poly_graph.specs.ProblemViews.{problem_of};
ghost use Rattle.problem_session.specs.Session.{problems_of};
ghost use Rattle.script_fault.specs.Answers.{IsFaultOrMemory};
ghost use Rattle.script_forms.specs.Atoms.{goal_atom};
ghost use Rattle.script_reading.specs.Faults.{rooted_script_fault, rooted_session_fault};
ghost use Rattle.smt_script.specs.Levels as levels;
ghost use Rattle.smt_script.specs.Views.{step_of, steps_in};
ghost use Rattle.problem_build.specs.Session.{Stays, script_at};
ghost use Rattle.problem_build.specs.WithRoots.{GoesOnWithRoots, GoesWithRoots, HasRootedProblem, HasRootedSession, IsRewrittenChange, IsRootedAnswer, IsRootedGoal, rooted_commands, rooted_goal_in};

use crate::goal_step::has_goal;
use crate::rewritten::{rewritten_change, rewritten_problem};
use poly_graph::Problem;
use problem_session::{Change, Checked, Session};
use script_fault::{Place, ReadError};
use script_reading::WithGoal;
use smt_script::{Command, Course, Step, commands};
use smt_sexp::read;
use sort_check::{Force, check_place, check_with_roots, only_script};
use std::alloc::Global;

/// The problem of a script's bytes, of what is in force at its only check, and the atom whose term is its goal.
pub(crate) fn rooted_goal(
    alloc: Global,
    bytes: &[u8],
    bound: Option<u32>,
) -> Result<(Problem, Option<u32>), ReadError>
    ensures { MatchResult result
        (λ r. HasRootedProblem bound (problem_of r.0) bytes.now ×
        (r.1 ≡ goal_atom (rooted_commands bound bytes.now)))
        (λ e. IsFaultOrMemory e (rooted_script_fault bound bytes.now)) }
{
    let sexps = read(alloc, bytes)?;
    let course = commands(alloc, &sexps)?;
    check_with_roots(alloc, &course)?;
    let script = only_script(alloc, course)?;
    rewritten_problem(alloc, &script, bound)
}

// What makes the problem of what is in force at a check here, whatever the problem before is.
fn change_here(
    alloc: Global,
    force: &mut Force<'_>,
    place: Place,
    bound: Option<u32>,
) -> Result<Change, ReadError>
    ensures changes { IsRewrittenChange bound (script_at force.old place) result }
    ensures stays { OnOk result (Stays force.old force.new) }
{
    force.script.commands.push(Command::Check(place))?;
    let change = rewritten_change(alloc, &force.script, bound);
    force.script.commands.pop();
    change
}

// Takes a step, at a check with the problem of what is in force.
fn take<'a>(
    alloc: Global,
    force: &mut Force<'a>,
    checks: &mut Vec<Checked>,
    step: Step<'a>,
    bound: Option<u32>,
) -> Result<(), ReadError>
    ensures { (steps left : List levels.Step) →
        GoesWithRoots bound steps force.old checks.old.items
        (step_of force.old.script.sexps.now step.entry ∷ left) →
        GoesOnWithRoots bound steps left force.old force.new checks.new.items result }
{
    if let Some(place) = check_place(&step) {
        let change = change_here(alloc, force, place, bound)?;
        checks.push(Checked {
            change,
            extends: false,
        })?;
        return Ok(());
    }
    force.take(step)?;
    Ok(())
}

// The problems of the checks of steps, each built by itself.
fn all_rewritten(
    alloc: Global,
    course: Course<'_>,
    bound: Option<u32>,
) -> Result<Session, ReadError>
    ensures { IsRootedAnswer bound (steps_in course.entry) result }
{
    let Course { sexps, steps } = course;
    let mut force = Force::new(alloc, sexps);
    let mut checks = Vec::new(alloc);
    let mut left = steps;
    left.reverse();
    while let Some(step) = left.pop() {
        take(alloc, &mut force, &mut checks, step, bound)?;
    }
    Ok(Session::of(checks))
}

/// The problems of a script's checks: of each, what is in force at it.
pub(crate) fn rooted_session(
    alloc: Global,
    bytes: &[u8],
    bound: Option<u32>,
) -> Result<Session, ReadError>
    ensures { MatchResult result
        (λ session. HasRootedSession bound (problems_of session) bytes.now)
        (λ e. IsFaultOrMemory e (rooted_session_fault bound bytes.now)) }
{
    let sexps = read(alloc, bytes)?;
    let course = commands(alloc, &sexps)?;
    check_with_roots(alloc, &course)?;
    all_rewritten(alloc, course, bound)
}

// The atom of the goal of a script whose session this is.
fn goal_of_rooted(
    alloc: Global,
    bytes: &[u8],
    bound: Option<u32>,
    session: &Session,
) -> Result<Option<u32>, ReadError>
    requires { HasRootedSession bound (problems_of session.now) bytes.now }
    ensures { IsRootedGoal bound bytes.now result }
{
    if session.len() != 1 {
        return Ok(None);
    }
    let (_, goal) = rooted_goal(alloc, bytes, bound)?;
    Ok(goal)
}

/// The problems of a script's checks with its goal.
pub(crate) fn rooted_with_goal(
    alloc: Global,
    bytes: &[u8],
    bound: Option<u32>,
) -> Result<WithGoal, ReadError>
    ensures session { MatchResult result
        (λ read. HasRootedSession bound (problems_of read.session) bytes.now)
        (λ e. IsFaultOrMemory e (rooted_session_fault bound bytes.now)) }
    ensures goal { IfOk result (λ read. read.goal ≡ rooted_goal_in bound bytes.now) }
{
    let sexps = read(alloc, bytes)?;
    let course = commands(alloc, &sexps)?;
    let minimizes = has_goal(course.steps.as_slice());
    check_with_roots(alloc, &course)?;
    let session = all_rewritten(alloc, course, bound)?;
    let goal = if minimizes {
        goal_of_rooted(alloc, bytes, bound, &session)?
    } else {
        None
    };
    Ok(WithGoal { session, goal })
}
