// The answers of a search for a least value.
ghost use Rattle.std.specs.Prelude.{◌≡◌, ◌++◌, [], IfOk, OnOk, option_map};
ghost use Rattle.dyadic.specs.Views.{dyadic_of, ext_of};
ghost use Rattle.poly_graph.specs.ProblemViews.{problem_of};
ghost use Rattle.ival.specs.SpaceViews.{space_of};
ghost use Rattle.check_run.specs.Bounds.{bound_lines, cause_of, IsMinimizeText, IsNoGoal};
ghost use Rattle.check_run.specs.Course.{RunEnds};
ghost use Rattle.check_run.specs.Minimized.{cause_text};
ghost use Rattle.check_run.specs.Run.{MinimizeHasCause, SameIn};

use crate::axes::{Shown, append_axes};
use crate::least::{append_lower, append_upper};
use crate::ports::say;
use crate::solved::budget as spent_budget;
use crate::status::Status;
use desk::Desk;
use dyadic::{Dy, Ext};
use ival::Space;
use poly_graph::Problem;
use std::alloc::{AllocError, Global};

/// Why a search for a least value ended.
#[derive(Clone, Copy, Debug, PartialEq, Eq)]
pub enum Cause {
    /// The bounds are as near as was asked.
    Near,
    /// The budget of branches was spent.
    Spent,
    /// A box of the least width is left.
    Narrow,
    /// There is no limit between the bounds, or no room for one among the subterms and atoms.
    NoLimit,
}

/// Bounds of a goal: no point that satisfies the script, loosened by the margin, has a lesser value than `lower`, none for
/// minus infinity; at a point that satisfies it at delta the goal's enclosure ends at `upper`.
#[derive(Clone, Copy, Debug, PartialEq, Eq)]
pub struct GoalBounds {
    pub lower: Option<Dy>,
    pub upper: Ext,
}

// The first line.
fn cause_text(alloc: Global, cause: Cause, budget: u64) -> Result<Vec<u8>, AllocError>
    ensures { IfOk result (λ text. text.items ≡ cause_text budget (cause_of cause)) }
{
    match cause {
        Cause::Near => Vec::from_slice(alloc, b"minimum\n"),
        Cause::Spent => spent_budget(alloc, budget),
        Cause::Narrow => Vec::from_slice(alloc, b"unknown width\n"),
        Cause::NoLimit => Vec::from_slice(alloc, b"unknown limit\n"),
    }
}

fn append_bounds(text: &mut Vec<u8>, bounds: GoalBounds) -> Result<(), AllocError>
    ensures { OnOk result (text.new.items ≡ text.old.items
        ++ bound_lines (option_map dyadic_of bounds.lower) (ext_of bounds.upper)) }
{
    text.extend_from_slice(b"lower ")?;
    append_lower(text, bounds.lower)?;
    text.extend_from_slice(b"\n")?;
    append_upper(text, Some(bounds.upper))
}

/// The bounds of a goal and the point of the upper one, and why the search ended, within the budget of branches.
pub fn goal_bounds(
    alloc: Global,
    problem: &Problem,
    cause: Cause,
    budget: u64,
    bounds: GoalBounds,
    point: &Space,
) -> Result<Vec<u8>, AllocError>
    ensures { IfOk result (λ text. IsMinimizeText (problem_of problem.now) budget (cause_of cause)
        (option_map dyadic_of bounds.lower) (ext_of bounds.upper) (space_of point.now) text.items) }
{
    let mut text = cause_text(alloc, cause, budget)?;
    append_bounds(&mut text, bounds)?;
    append_axes(&mut text, problem.axes(), point, Shown::Value)?;
    Ok(text)
}

/// Refuses a script without fault, of whose only check no goal is in force.
pub fn end_no_goal<D: Desk>(desk: &mut D) -> Status
    ensures ends { RunEnds IsNoGoal [] (D.sight desk.old) (D.sight desk.new) result }
    ensures same { SameIn (D.sight desk.old) (D.sight desk.new) }
    ensures cause { MinimizeHasCause (D.sight desk.old) (D.sight desk.new) result }
{
    say(desk, Status::ScriptRefused, b"script fault 17 NoGoal 0:0\n")
}
