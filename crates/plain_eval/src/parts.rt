// The parts of variables, one after the other: their ranges, and what is left to each.
ghost use Rattle.std.specs.Prelude.{◌≡◌, ◌≢◌, ◌<◌, ℕ, None, length, false};
ghost use Rattle.cover_model.specs.NodeEnclosure.{row};
ghost use Rattle.ival.specs.Views.{interval_of};
ghost use Rattle.ival.specs.RowViews.{rows_of, marks_of, is_marked};
ghost use Rattle.ival.specs.Options.{option_at};
ghost use Rattle.plain_eval.specs.Calls.{HasRange, HaveBehind, HaveRangesOver, Leaves, PutsLeft, range_of_parts, sum_before, sum_behind};
ghost use Rattle.plain_eval.specs.Suits.{AreFor, AreUnder};

use crate::part::{Part, part_at};
use crate::quadratic::only;
use crate::room::Coefficients;
use dyadic::Dy;
use ival::{Ival, Rows, Space};
use poly_graph::Graph;

// A sum with the part's range before it, if there is a part; the range is put into its row.
fn before(
    part: Option<Part>,
    place: usize,
    space: &Space,
    centre: &Space,
    sum: Ival,
    ranges: &mut Rows,
) -> Ival
    requires place { place < length (rows_of ranges.old) }
    ensures sum { interval_of result ≡ sum_before space.now centre.now part sum }
    ensures range { HasRange space.now centre.now part (row (rows_of ranges.new) place) }
    ensures others { (k : ℕ) → k ≢ place → row (rows_of ranges.new) k ≡ row (rows_of ranges.old) k }
    ensures count { length (rows_of ranges.new) ≡ length (rows_of ranges.old) }
{
    let Some(part) = part else {
        return sum;
    };
    let range = part.range(space, centre);
    ranges.set(place, range);
    range.add(sum)
}

// A sum with this range behind it, if there is a part.
fn behind(part: Option<Part>, range: Ival, sum: Ival) -> Ival
    ensures { interval_of result ≡ sum_behind part range sum }
{
    match part {
        Some(_) => sum.add(range),
        None => sum,
    }
}

/// The range of all parts. Into the rows of each node with a part it puts the part's range, and that of the parts behind it.
pub fn sum_parts(
    graph: &Graph,
    coefficients: &Coefficients,
    space: &Space,
    centre: &Space,
    ranges: &mut Rows,
    left: &mut Rows,
) -> Ival
    requires count { AreFor graph.now coefficients.now }
    requires under { AreUnder coefficients.now }
    requires ranges { length (rows_of ranges.old) ≡ length graph.now }
    requires left { length (rows_of left.old) ≡ length graph.now }
    ensures sum { interval_of result ≡
        range_of_parts graph.now coefficients.now space.now centre.now }
    ensures ranges { HaveRangesOver graph.now coefficients.now space.now centre.now ranges.new }
    ensures behind { HaveBehind graph.now coefficients.now space.now centre.now left.new }
    ensures marks { marks_of left.new ≡ marks_of left.old }
    ensures ranges_count { length (rows_of ranges.new) ≡ length graph.now }
    ensures count { length (rows_of left.new) ≡ length graph.now }
{
    prove_eq!(coefficients.linear.len(), graph.len());
    let mut sum = only(Dy::ZERO);
    let mut place = graph.len();
    while let Some(n) = coefficients.linear.next_marked_below(place) {
        left.set(n, sum);
        let part = part_at(n, graph, coefficients);
        sum = before(part, n, space, centre, sum, ranges);
        place = n;
    }
    sum
}

// Puts what is left to a part into its row, and tells whether that is something. Those before it have this range, and
// those behind it the row's.
fn leave_to(
    part: Option<Part>,
    place: usize,
    space: &Space,
    centre: &Space,
    allowed: Ival,
    before: Ival,
    left: &mut Rows,
) -> bool
    requires place { place < length (rows_of left.old) }
    requires none { option_at left.old place ≡ None }
    ensures put { PutsLeft part place space.now centre.now allowed before left.old left.new result }
    ensures count { length (rows_of left.new) ≡ length (rows_of left.old) }
{
    let Some(part) = part else {
        return true;
    };
    let others = before.add(left.get(place));
    let interval = part.left(allowed, others, space, centre);
    if interval.is_empty() {
        return false;
    }
    left.set(place, interval);
    left.mark(place);
    true
}

/// Puts into the row of each node with a part what is left to it, with a mark, and tells whether that is something for
/// each. The ranges and rows are those of [`sum_parts`], and the rest has this range.
pub fn leave(
    graph: &Graph,
    coefficients: &Coefficients,
    space: &Space,
    centre: &Space,
    allowed: Ival,
    rest: Ival,
    ranges: &Rows,
    left: &mut Rows,
) -> bool
    requires count { AreFor graph.now coefficients.now }
    requires under { AreUnder coefficients.now }
    requires left { length (rows_of left.old) ≡ length graph.now }
    requires ranges_count { length (rows_of ranges.now) ≡ length graph.now }
    requires ranges { HaveRangesOver graph.now coefficients.now space.now centre.now ranges.now }
    requires behind { HaveBehind graph.now coefficients.now space.now centre.now left.old }
    requires none { (k : ℕ) → is_marked (marks_of left.old) k ≡ false }
    ensures left { Leaves graph.now coefficients.now space.now centre.now
        allowed rest left.new result }
    ensures count { length (rows_of left.new) ≡ length graph.now }
{
    prove_eq!(coefficients.linear.len(), graph.len());
    if graph.len() == 0 {
        return true;
    }
    let mut sum = rest;
    let mut place = 0;
    loop {
        let part = part_at(place, graph, coefficients);
        if !leave_to(part, place, space, centre, allowed, sum, left) {
            return false;
        }
        sum = behind(part, ranges.get(place), sum);
        match coefficients.linear.next_marked_above(place) {
            Some(n) => place = n,
            None => return true,
        }
    }
}
