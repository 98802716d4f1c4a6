// What the allowed range leaves to each part.
ghost use Rattle.std.specs.Prelude.{◌≡◌, ◌≤◌, ◌<◌, ℕ, length, true, false};
ghost use Rattle.combine.specs.Combined.{ArePartsOver, IsLeftTo, tightened_parts, LeavesNothing};
ghost use Rattle.combine.specs.Lefts.{pairs, IsLeft};

use crate::left::part_left;
use crate::part::Part;
use crate::ranges::difference;
use ival::{Ival, Space};

// What the allowed range leaves to a part's axis, where the rest and the parts before have the range `before`.
fn left_to(part: Part, space: &Space, centre: &Space, allowed: Ival, before: Ival) -> Ival
    ensures { IsLeftTo part space.now centre.now allowed before result }
{
    let share = difference(allowed, before.add(part.after));
    let apart = part_left(share, part.linear, part.square, part.apart);
    let moved = centre.interval(part.axis).add(apart);
    space.interval(part.axis).meet(moved)
}

/// Puts what the allowed range leaves to each part's axis into `lefts`, in order, and returns whether something is left
/// to each. The rest has the range `rest`.
pub fn tighten(
    parts: &[Part],
    space: &Space,
    centre: &Space,
    allowed: Ival,
    rest: Ival,
    lefts: &mut [Ival],
) -> bool
    requires parts { ArePartsOver space.now centre.now parts.now }
    requires room { length parts.now ≤ length lefts.old }
    ensures none { result ≡ false →
        LeavesNothing (tightened_parts space.now centre.now allowed rest parts.now) }
    ensures some { result ≡ true →
        tightened_parts space.now centre.now allowed rest parts.now ≡ pairs parts.now lefts.new }
    ensures left { result ≡ true → (k : ℕ) → k < length parts.now → IsLeft lefts.new k }
    ensures room { length lefts.new ≡ length lefts.old }
{
    let mut before = rest;
    for k in 0..parts.len() {
        let part = parts[k];
        let left = left_to(part, space, centre, allowed, before);
        if left.is_empty() {
            return false;
        }
        lefts[k] = left;
        before = before.add(part.range);
    }
    true
}
