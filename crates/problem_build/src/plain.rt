// A script that is read as it is written: the reader's phases, one after the other.
ghost use Rattle.std.specs.Prelude.{◌≡◌, List, IfOk, MatchResult};
ghost use Rattle.poly_graph.specs.ProblemViews.{problem_of};
ghost use Rattle.problem_session.specs.Session.{problems_of};
ghost use Rattle.script_fault.specs.Answers.{IsFaultOrMemory};
ghost use Rattle.script_forms.specs.Atoms.{goal_atom};
ghost use Rattle.script_reading.specs.Faults.{plain_script_fault, plain_session_fault};
ghost use Rattle.smt_script.specs.Commands.{steps, steps_of};
ghost use Rattle.smt_script.specs.Levels as levels;
ghost use Rattle.smt_sexp.specs.Arena.{listed, rest_of};
ghost use Rattle.problem_build.specs.GoalStep.{IsGoalAnswer, IsSessionOf};
ghost use Rattle.problem_build.specs.Plain.{HasPlainProblem, HasPlainSession, plain_commands, plain_goal_in};

use crate::goal_step::has_goal;
use crate::script::build_script;
use crate::{build_all, goal_of};
use poly_graph::Problem;
use problem_session::Session;
use script_fault::ReadError;
use script_reading::WithGoal;
use smt_script::commands;
use smt_sexp::{Sexps, read};
use sort_check::{check, single};
use std::alloc::Global;

/// The problem of a script's bytes, of what is in force at its only check, and the atom whose term is its goal.
pub(crate) fn plain_goal(
    alloc: Global,
    bytes: &[u8],
    bound: Option<u32>,
) -> Result<(Problem, Option<u32>), ReadError>
    ensures { MatchResult result
        (λ r. HasPlainProblem bound (problem_of r.0) bytes.now ×
        (r.1 ≡ goal_atom (plain_commands bytes.now)))
        (λ e. IsFaultOrMemory e (plain_script_fault bound bytes.now)) }
{
    let sexps = read(alloc, bytes)?;
    let course = commands(alloc, &sexps)?;
    let typed = check(alloc, course)?;
    let only = single(alloc, typed)?;
    let problem = build_script(alloc, &only.script, bound)?;
    // Its type keeps that it is whole.
    let _ = problem.axes();
    let goal = goal_of(&only.script, &problem);
    Ok((problem, goal))
}

/// The problems of a script's checks: of each, what is in force at it.
pub(crate) fn plain_session(
    alloc: Global,
    bytes: &[u8],
    bound: Option<u32>,
) -> Result<Session, ReadError>
    ensures { MatchResult result
        (λ session. HasPlainSession bound (problems_of session) bytes.now)
        (λ e. IsFaultOrMemory e (plain_session_fault bound bytes.now)) }
{
    let sexps = read(alloc, bytes)?;
    let course = commands(alloc, &sexps)?;
    let typed = check(alloc, course)?;
    build_all(alloc, typed, bound)
}

// The atom of the goal of a script without fault, whose expressions and whose session are these: the script's last phase
// is not gone through again.
fn goal_of_session(
    alloc: Global,
    sexps: &Sexps,
    session: &Session,
) -> Result<Option<u32>, ReadError>
    requires { IsSessionOf sexps.now session.now }
    ensures { (told : List levels.Step) → steps_of (listed (rest_of sexps.now 0)) ≡ steps told →
        IsGoalAnswer told result }
{
    if session.len() != 1 {
        return Ok(None);
    }
    let course = commands(alloc, sexps)?;
    let typed = check(alloc, course)?;
    let only = single(alloc, typed)?;
    let problem = session.first(alloc)?;
    Ok(goal_of(&only.script, &problem))
}

/// The problems of a script's checks with its goal.
pub(crate) fn plain_with_goal(
    alloc: Global,
    bytes: &[u8],
    bound: Option<u32>,
) -> Result<WithGoal, ReadError>
    ensures session { MatchResult result
        (λ read. HasPlainSession bound (problems_of read.session) bytes.now)
        (λ e. IsFaultOrMemory e (plain_session_fault bound bytes.now)) }
    ensures goal { IfOk result (λ read. read.goal ≡ plain_goal_in bytes.now) }
{
    let sexps = read(alloc, bytes)?;
    let course = commands(alloc, &sexps)?;
    let minimizes = has_goal(course.steps.as_slice());
    let typed = check(alloc, course)?;
    let session = build_all(alloc, typed, bound)?;
    let goal = if minimizes {
        goal_of_session(alloc, &sexps, &session)?
    } else {
        None
    };
    Ok(WithGoal { session, goal })
}
