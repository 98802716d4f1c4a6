// Axes that are narrowed.
ghost use Rattle.std.specs.Prelude.{◌≡◌, ◌≤◌, ◌<◌, ℕ, length, true, false};
ghost use Rattle.cover_model.specs.Narrowed.{set_axis};
ghost use Rattle.ival.specs.Views.{interval_of};
ghost use Rattle.ival.specs.SpaceViews.{space_of};
ghost use Rattle.combine.specs.Combined.{ArePartsOver, AreSet, IsNarrowedByParts};
ghost use Rattle.combine.specs.Lefts.{IsLeft};
ghost use Rattle.combine.specs.Parts.{AreKept};

use crate::part::Part;
use crate::tighten::tighten;
use ival::{Ival, Narrowed, Space};

// Leaves to the axis, if there is such an axis, an interval whose ends are numbers.
fn set_axis(axis: u32, interval: Ival, space: &mut Space)
    ensures { space_of space.new ≡ set_axis axis (interval_of interval) (space_of space.old) }
{
    let axis = axis as usize;
    if axis >= space.len() {
        return;
    }
    if let Some(range) = interval.range() {
        space.set_real(axis, range);
    }
}

// Leaves to each part's axis what is left to it, the last part first.
fn set_axes(parts: &[Part], lefts: &[Ival], space: &mut Space)
    requires room { length parts.now ≤ length lefts.now }
    requires left { (k : ℕ) → k < length parts.now → IsLeft lefts.now k }
    ensures { AreSet parts.now lefts.now space.old space.new }
{
    for k in (0..parts.len()).rev() {
        let part = parts[k];
        let left = lefts[k];
        set_axis(part.axis, left, space);
    }
}

// Whether each part's axis still has what was left to it.
fn are_kept(parts: &[Part], space: &Space) -> bool
    ensures same { result ≡ true → AreKept (space_of space.now) parts.now }
    ensures changed { result ≡ false → AreKept (space_of space.now) parts.now → ⊥ }
{
    for part in parts {
        let is_same = space.interval(part.axis) == part.own;
        if !is_same {
            return false;
        }
    }
    true
}

/// Leaves to each part's axis what the allowed range leaves to it, and tells whether that is less; where nothing is left
/// to one the space stays as it was.
pub fn narrow(
    parts: &[Part],
    centre: &Space,
    allowed: Ival,
    rest: Ival,
    lefts: &mut [Ival],
    space: &mut Space,
) -> Narrowed
    requires parts { ArePartsOver space.old centre.now parts.now }
    requires room { length parts.now ≤ length lefts.old }
    ensures narrowed { IsNarrowedByParts parts.now centre.now allowed rest
        space.old space.new result }
    ensures room { length lefts.new ≡ length lefts.old }
{
    if !tighten(parts, space, centre, allowed, rest, lefts) {
        return Narrowed::Empty;
    }
    set_axes(parts, lefts, space);
    if are_kept(parts, space) {
        Narrowed::Same
    } else {
        Narrowed::Less
    }
}
