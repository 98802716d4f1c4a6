// Better points near the best one, to which descents in floats lead: each is tested exactly.
ghost use Rattle.std.specs.Prelude.{◌≡◌, ◌≤◌, true, IfOk, IfSome, OnOk};
ghost use Rattle.dyadic.specs.Rounding.{ext_at_most};
ghost use Rattle.dyadic.specs.Views.{ext_of};
ghost use Rattle.poly_graph.specs.ProblemViews.{problem_of};
ghost use Rattle.cover_model.specs.Root.{root_space};
ghost use Rattle.ival.specs.SpaceViews.{space_of};
ghost use Rattle.least_search.specs.Aims.{IsReady, IsSameAim};
ghost use Rattle.least_search.specs.Found.{AreBoundsOf, IsKeptFor, IsShownFor};

use crate::aim::Aim;
use crate::bounds::{Bounds, take_point};
use crate::limits::Phase;
use cover_rule::{MiddlePoint, Point};
use dyadic::{Ext, add_down, at_most, two_to_minus};
use form_truth::{Root, root_space};
use ival::Space;
use point_search::{Goal, descend};
use std::alloc::{AllocError, Global};

/// At most so many descents follow each other.
const MOST_DESCENTS: u32 = 8;

// The point of the space, where that lies within the declared box and the form is sure there.
fn tried(
    alloc: Global,
    aim: &Aim<'_>,
    root: &Space,
    space: &Space,
) -> Result<Option<Point>, AllocError>
    requires ready { IsReady aim.now }
    requires root { space_of root.now ≡ root_space (problem_of aim.now.problem.now) }
    ensures { IfOk result (λ o. IfSome o (IsShownFor aim.now)) }
{
    if space.len() != root.len() {
        return Ok(None);
    }
    if !space.within(root) {
        return Ok(None);
    }
    let margins = aim.options.margins();
    Point::of_middle(alloc, aim.problem, &margins, space)
}

// The point to which one descent leads, where the form is sure there.
fn lower_point(
    alloc: Global,
    aim: &Aim<'_>,
    root: &Space,
    from: &Point,
) -> Result<Option<Point>, AllocError>
    requires ready { IsReady aim.now }
    requires root { space_of root.now ≡ root_space (problem_of aim.now.problem.now) }
    ensures { IfOk result (λ o. IfSome o (IsShownFor aim.now)) }
{
    let goal = Goal {
        problem: aim.problem,
        atom: aim.goal,
        gap_bits: aim.gap_bits,
        delta_bits: aim.options.delta_bits,
    };
    match descend(alloc, goal, root, from.space())? {
        None => Ok(None),
        Some(space) => tried(alloc, aim, root, &space),
    }
}

// Whether the second number is below the first one by more than `2^-bits`.
fn has_fallen(before: Ext, after: Ext, bits: u32) -> bool
    requires { bits ≤ 120 }
{
    !at_most(before, add_down(after, Ext::Fin(two_to_minus(bits))))
}

// One descent from the best point; whether that is better by more than half of the gap then.
#[tactic(auto, using(crate::proofs::Near::at_most_itself))]
fn descend_once(
    alloc: Global,
    aim: &mut Aim<'_>,
    bounds: &mut Bounds,
    root: &Space,
) -> Result<bool, AllocError>
    requires ready { IsReady aim.old }
    requires root { space_of root.now ≡ root_space (problem_of aim.old.problem.now) }
    requires bounds { AreBoundsOf aim.old bounds.old }
    ensures ready { IsReady aim.new }
    ensures same { IsSameAim aim.old aim.new }
    ensures bounds { AreBoundsOf aim.old bounds.new }
    ensures better { ext_at_most (ext_of bounds.new.upper) (ext_of bounds.old.upper) ≡ true }
    ensures budget { bounds.new.budget ≡ bounds.old.budget }
    ensures lower { bounds.new.lower ≡ bounds.old.lower }
{
    let before = bounds.upper;
    let Some(point) = lower_point(alloc, aim, root, &bounds.point)? else {
        return Ok(false);
    };
    take_point(alloc, aim, bounds, &point)?;
    Ok(has_fallen(before, bounds.upper, aim.gap_bits + 1))
}

// Descent after descent, as long as they help.
#[tactic(auto, using(crate::proofs::Near::at_most_itself))]
fn descents(
    alloc: Global,
    aim: &mut Aim<'_>,
    bounds: &mut Bounds,
    root: &Space,
) -> Result<(), AllocError>
    requires ready { IsReady aim.old }
    requires root { space_of root.now ≡ root_space (problem_of aim.old.problem.now) }
    requires bounds { AreBoundsOf aim.old bounds.old }
    ensures ready { IsReady aim.new }
    ensures same { IsSameAim aim.old aim.new }
    ensures bounds { AreBoundsOf aim.old bounds.new }
    ensures better { ext_at_most (ext_of bounds.new.upper) (ext_of bounds.old.upper) ≡ true }
    ensures budget { bounds.new.budget ≡ bounds.old.budget }
    ensures lower { bounds.new.lower ≡ bounds.old.lower }
{
    for _ in 0..MOST_DESCENTS {
        if !descend_once(alloc, aim, bounds, root)? {
            return Ok(());
        }
    }
    Ok(())
}

/// Better points near the best one. Where they are better by more than four gaps, the closing search is next: the best point
/// is then hardly to be bettered near by.
#[tactic(auto, using(crate::proofs::Near::at_most_itself))]
pub(crate) fn go_down(
    alloc: Global,
    aim: &mut Aim<'_>,
    bounds: &mut Bounds,
) -> Result<(), AllocError>
    requires ready { IsReady aim.old }
    requires bounds { AreBoundsOf aim.old bounds.old }
    ensures ready { IsReady aim.new }
    ensures same { IsSameAim aim.old aim.new }
    ensures bounds { AreBoundsOf aim.old bounds.new }
    ensures better { ext_at_most (ext_of bounds.new.upper) (ext_of bounds.old.upper) ≡ true }
    ensures budget { bounds.new.budget ≡ bounds.old.budget }
    ensures lower { bounds.new.lower ≡ bounds.old.lower }
{
    let Root::Space(root) = root_space(alloc, aim.problem)? else {
        return Ok(());
    };
    let before = bounds.upper;
    descents(alloc, aim, bounds, &root)?;
    if has_fallen(before, bounds.upper, aim.gap_bits.saturating_sub(2)) {
        bounds.phase = Phase::Closing;
    }
    Ok(())
}

/// The point, where it is better, and better ones near it.
pub(crate) fn take_valley(
    alloc: Global,
    aim: &mut Aim<'_>,
    bounds: &mut Bounds,
    point: &Point,
) -> Result<(), AllocError>
    requires ready { IsReady aim.old }
    requires bounds { AreBoundsOf aim.old bounds.old }
    requires shown { IsShownFor aim.old point.now }
    ensures ready { IsReady aim.new }
    ensures same { IsSameAim aim.old aim.new }
    ensures bounds { AreBoundsOf aim.old bounds.new }
    ensures better { ext_at_most (ext_of bounds.new.upper) (ext_of bounds.old.upper) ≡ true }
    ensures kept { OnOk result (IsKeptFor aim.old bounds.new point.now) }
    ensures budget { bounds.new.budget ≡ bounds.old.budget }
    ensures lower { bounds.new.lower ≡ bounds.old.lower }
{
    take_point(alloc, aim, bounds, point)?;
    go_down(alloc, aim, bounds)
}
