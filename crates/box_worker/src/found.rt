// Points of a box that local searches find.
ghost use Rattle.std.specs.Prelude.{◌≡◌, IfOk, IfSome};
ghost use Rattle.cover_rule.specs.Middle.{LiesInRoot};
ghost use Rattle.cover_rule.specs.Patch.{problem_in};
ghost use Rattle.box_worker.specs.Ended.{IsFoundIn};

use crate::searches::Searches;
use cover_rule::{MiddlePoint, Patch, Point};
use ival::Space;
use point_search::{Start, search_from};
use std::alloc::{AllocError, Global};

/// At most so many searches are made in a box.
const MOST_SEARCHES: u32 = 256;

// The point of a space, where that lies within the space that the patch has reached and the form is sure there.
fn tried(alloc: Global, patch: &Patch, space: &Space) -> Result<Option<Point>, AllocError>
    requires root { LiesInRoot (problem_in patch.now) patch.now.kept.first.space }
    ensures { IfOk result (λ o. IfSome o (IsFoundIn patch.now)) }
{
    let reached = patch.reached().space();
    if space.len() != reached.len() {
        return Ok(None);
    }
    if !space.within(reached) {
        return Ok(None);
    }
    let problem = patch.problem();
    let margins = patch.margins();
    Point::of_middle(alloc, problem, margins, space)
}

// The point of the box that one search finds, where the form is sure.
fn found_from(
    alloc: Global,
    searches: &mut Searches,
    patch: &Patch,
    start: Start,
) -> Result<Option<Point>, AllocError>
    requires root { LiesInRoot (problem_in patch.now) patch.now.kept.first.space }
    ensures { IfOk result (λ o. IfSome o (IsFoundIn patch.now)) }
{
    let state = patch.reached();
    let search = search_from(
        alloc,
        patch.problem(),
        patch.margins().delta_bits,
        state.lits(),
        state.space(),
        start,
    )?;
    searches.note(&search);
    match search.point {
        None => Ok(None),
        Some(space) => tried(alloc, patch, &space),
    }
}

// The point of the box that one of the searches finds which are made in it, where the form is sure.
fn found_by(
    alloc: Global,
    searches: &mut Searches,
    patch: &Patch,
) -> Result<Option<Point>, AllocError>
    requires root { LiesInRoot (problem_in patch.now) patch.now.kept.first.space }
    ensures { IfOk result (λ o. IfSome o (IsFoundIn patch.now)) }
{
    searches.come_to_box(patch.problem());
    for _ in 0..MOST_SEARCHES {
        let Some(start) = searches.next() else {
            return Ok(None);
        };
        let found = found_from(alloc, searches, patch, start)?;
        if found.is_some() {
            return Ok(found);
        }
    }
    Ok(None)
}

/// A point of the box that local searches from its middle or from other points of it find, where the form is sure. They are
/// made at some boxes, and not where the form is sure at the middle.
pub fn found_point(
    alloc: Global,
    searches: &mut Searches,
    patch: &mut Patch,
) -> Result<Option<Point>, AllocError>
    requires root { LiesInRoot (problem_in patch.old) patch.old.kept.first.space }
    ensures found { IfOk result (λ o. IfSome o (IsFoundIn patch.new)) }
    ensures same { patch.new ≡ patch.old }
{
    if patch.is_sure_at_middle() {
        return Ok(None);
    }
    found_by(alloc, searches, patch)
}
