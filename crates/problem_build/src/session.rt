// The problems of a script with any number of checks.
ghost use Rattle.std.specs.Prelude.{◌≡◌, ◌∷◌, [], ◌++◌, List, None, OnOk};
ghost use Rattle.smt_script.specs.Levels as levels;
ghost use Rattle.smt_script.specs.Views.{commands_in, step_of, steps_in};
ghost use Rattle.sort_check.specs.Sorts.{sort_fault};
ghost use Rattle.poly_graph.specs.ProblemViews.{Parts};
ghost use Rattle.problem_build.specs.Changes.{IsChangeAnswer, Starts};
ghost use Rattle.problem_build.specs.Progress.{IsBuiltBy, IsKept};
ghost use Rattle.problem_build.specs.Session.{Begins, Goes, GoesOn, IsSessionAnswer, IsTaken, Stays, script_at};

use crate::progress::Progress;
use problem_session::{Change, Checked, Session};
use script_fault::{Place, ReadError};
use smt_script::{Command, Course, Step};
use smt_sexp::Sexps;
use sort_check::{Force, TypedCourse, check_place};
use std::alloc::Global;

// What is in force behind some steps, what is new at each of their checks, how many commands were in force at the last of these, and
// whether they still are; before the first one they are not. What the last of these built, and how many of its commands were
// in force ever since.
#[derive(Drop)]
pub(crate) struct Going<'a> {
    force: Force<'a>,
    checks: Vec<Checked>,
    before: usize,
    extends: bool,
    progress: Progress,
    kept: usize,
}

impl<'a> Going<'a> {
    // No step is taken.
    fn new(alloc: Global, sexps: &'a Sexps) -> Self
        ensures begins { Begins result }
        ensures sexps { result.force.script.sexps.now ≡ sexps.now }
    {
        Going {
            force: Force::new(alloc, sexps),
            checks: Vec::new(alloc),
            before: 0,
            extends: false,
            progress: Progress::new(alloc),
            kept: 0,
        }
    }
}

// What is new in the problem of what is in force at a check here, where so many of the commands that are built stay.
fn change_here(
    alloc: Global,
    force: &mut Force<'_>,
    progress: &mut Progress,
    kept: usize,
    place: Place,
    bound: Option<u32>,
) -> Result<Change, ReadError>
    requires sorted { sort_fault (script_at force.old place) ≡ None }
    requires kept { IsKept kept (commands_in force.old.script) progress.old }
    ensures changes { (p : Parts) → Starts p progress.old.maker.made →
        IsChangeAnswer bound (script_at force.old place) p progress.new.maker.made result }
    ensures stays { OnOk result (Stays force.old force.new) }
    ensures built { OnOk result (IsBuiltBy (script_at force.old place) progress.new) }
{
    force.script.commands.push(Command::Check(place))?;
    progress.back_to(kept);
    let change = progress.change(alloc, &force.script, bound);
    force.script.commands.pop();
    change
}

// Takes a step, at a check with what is new in the problem of what is in force.
fn take<'a>(
    alloc: Global,
    going: &mut Going<'a>,
    step: Step<'a>,
    bound: Option<u32>,
) -> Result<(), ReadError>
    requires taken { IsTaken bound going.old (step_of going.old.force.script.sexps.now step) }
    ensures goes { (steps left : List levels.Step) →
        Goes bound steps going.old
        (step_of going.old.force.script.sexps.now step.entry ∷ left) →
        GoesOn bound steps left going.old going.new result }
{
    if let Some(place) = check_place(&step) {
        let change = change_here(
            alloc,
            &mut going.force,
            &mut going.progress,
            going.kept,
            place,
            bound,
        )?;
        going.checks.push(Checked {
            change,
            extends: going.extends,
        })?;
        going.before = going.force.script.commands.len();
        going.kept = going.before;
        going.extends = true;
        return Ok(());
    }
    going.force.take(step)?;
    going.extends = going.extends && going.before <= going.force.script.commands.len();
    going.kept = going.kept.min(going.force.script.commands.len());
    Ok(())
}

/// The problems of a script's checks, where the words give this bound of its constants: of each, what is in force at it.
///
/// # Errors
///
/// The first fault of the building of the first problem that has one.
pub fn build_all(
    alloc: Global,
    typed: TypedCourse<'_>,
    bound: Option<u32>,
) -> Result<Session, ReadError>
    ensures { IsSessionAnswer bound (steps_in typed.entry.course) result }
{
    let Course { sexps, steps } = typed.course;
    let mut going = Going::new(alloc, sexps);
    let mut left = steps;
    left.reverse();
    while let Some(step) = left.pop() {
        take(alloc, &mut going, step, bound)?;
    }
    Ok(Session::of(going.checks))
}
