// The problem of a script in which constants stand for the roots and quotients of another.
ghost use Rattle.std.specs.Prelude.{};
ghost use Rattle.smt_script.specs.Views.{commands_in};
ghost use Rattle.problem_build.specs.WithRoots.{IsRewrittenChange, IsRewrittenProblem, IsSortedChange, IsSortedProblem};

use crate::goal_of;
use crate::progress::Progress;
use crate::script::build_script;
use poly_graph::Problem;
use problem_session::Change;
use root_rewriting::rewriting;
use script_fault::ReadError;
use smt_script::Script;
use sort_check::check_script;
use std::alloc::Global;

// The problem of a script, and the atom whose term is its goal.
fn sorted_problem(
    alloc: Global,
    script: &Script<'_>,
    bound: Option<u32>,
) -> Result<(Problem, Option<u32>), ReadError>
    ensures { IsSortedProblem bound (commands_in script.now) result }
{
    check_script(alloc, script)?;
    let problem = build_script(alloc, script, bound)?;
    // Its type keeps that it is whole.
    let _ = problem.axes();
    let goal = goal_of(script, &problem);
    Ok((problem, goal))
}

/// The problem of a script in which constants stand for its roots and quotients, and the atom whose term is its goal.
pub(crate) fn rewritten_problem(
    alloc: Global,
    script: &Script<'_>,
    bound: Option<u32>,
) -> Result<(Problem, Option<u32>), ReadError>
    ensures { IsRewrittenProblem bound (commands_in script.now) result }
{
    match rewriting(alloc, script, bound)? {
        None => sorted_problem(alloc, script, bound),
        Some(other) => {
            let script = other.script(alloc)?;
            sorted_problem(alloc, &script, bound)
        }
    }
}

// What makes the problem of a script, whatever the problem before is.
fn sorted_change(
    alloc: Global,
    script: &Script<'_>,
    bound: Option<u32>,
) -> Result<Change, ReadError>
    ensures { IsSortedChange bound (commands_in script.now) result }
{
    check_script(alloc, script)?;
    let mut progress = Progress::new(alloc);
    progress.change(alloc, script, bound)
}

/// What makes the problem of a script in which constants stand for its roots and quotients, whatever the problem before is.
pub(crate) fn rewritten_change(
    alloc: Global,
    script: &Script<'_>,
    bound: Option<u32>,
) -> Result<Change, ReadError>
    ensures { IsRewrittenChange bound (commands_in script.now) result }
{
    match rewriting(alloc, script, bound)? {
        None => sorted_change(alloc, script, bound),
        Some(other) => {
            let script = other.script(alloc)?;
            sorted_change(alloc, &script, bound)
        }
    }
}
