// At which Real axis a box is cut. Where the version leaves that to the search, a heuristic names the axis, which promises
// nothing; where it names none that may be cut, and in the other versions, the widest one is.
ghost use Rattle.std.specs.Prelude.{◌≡◌, IfOk, IsTrue, true, false};
ghost use Rattle.box_worker.specs.Attempts.{Continues};
ghost use Rattle.box_worker.specs.Ended.{is_left};

use crate::attempt;
use crate::prospects::{Prospect, prospects};
use cover_rule::Patch;
use dyadic::two_to_minus;
use floats::approximate;
use std::alloc::{AllocError, Global};

/// A thin axis has less than this share of the widest side.
const THIN: f64 = 0.125;

/// Axes that are thin, or that an equation defines, come behind the others: their share counts so much.
const BEHIND: f64 = 0.001;

// What a cut of the axis is worth, where this is the widest side: the sum of its shares in what each atom may change by
// (relative smear; Trombettoni, Araya, Neveu, Chabert 2011). An axis that an equation defines follows the others, and one
// far thinner than the widest gains little. 0 where nothing is expected of a cut.
fn worth(axis: Prospect, widest: f64) -> f64 {
    if axis.is_defined || axis.side < THIN * widest {
        BEHIND * axis.share
    } else {
        axis.share
    }
}

// The greatest side.
fn widest_side(prospects: &[Prospect]) -> f64 {
    let mut widest = 0.0;
    for prospect in prospects {
        if prospect.side > widest {
            widest = prospect.side;
        }
    }
    widest
}

// The first axis of most worth, of those with a side above the least, if one has any.
fn best_axis(prospects: &[Prospect], least: f64) -> Option<u32> {
    let widest = widest_side(prospects);
    let mut best = None;
    let mut most = 0.0;
    for axis in 0..prospects.len() {
        let gain = worth(prospects[axis], widest);
        if prospects[axis].side > least && gain > most {
            best = Some(axis);
            most = gain;
        }
    }
    u32::try_from(best?).ok()
}

// The axis that is named, if one is.
fn named_axis(alloc: Global, patch: &Patch) -> Result<Option<u32>, AllocError> {
    let prospects = prospects(alloc, patch)?;
    let least = approximate(two_to_minus(patch.margins().least_bits));
    Ok(best_axis(&prospects, least))
}

// Cuts the axis, if there is one, where it may be cut and nothing else is left to do.
fn cut_at(axis: Option<u32>, patch: &mut Patch) -> bool
    ensures continues { Continues patch.old patch.new }
    ensures parted { result ≡ true → IsTrue (is_left patch.new.kept.end) }
    ensures same { result ≡ false → patch.new ≡ patch.old }
{
    match axis {
        Some(axis) => attempt::cut(patch, axis),
        None => false,
    }
}

// Cuts the widest axis, where it is wide and nothing else is left to do.
fn cut_widest(patch: &mut Patch) -> bool
    ensures continues { Continues patch.old patch.new }
    ensures parted { result ≡ true → IsTrue (is_left patch.new.kept.end) }
    ensures same { result ≡ false → patch.new ≡ patch.old }
{
    attempt::cut_widest(patch)
}

/// Cuts an axis, where nothing else is left to do: the one that is named, else the widest.
pub fn cut(alloc: Global, patch: &mut Patch) -> Result<bool, AllocError>
    ensures continues { IfOk result (λ b. Continues patch.old patch.new) }
    ensures parted { IfOk result (λ b. b ≡ true → IsTrue (is_left patch.new.kept.end)) }
    ensures same { IfOk result (λ b. b ≡ false → patch.new ≡ patch.old) }
{
    if patch.margins().version >= 5 {
        let axis = named_axis(alloc, patch)?;
        if cut_at(axis, patch) {
            return Ok(true);
        }
    }
    Ok(cut_widest(patch))
}
