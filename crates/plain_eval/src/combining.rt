// The combination rule.
ghost use Rattle.std.specs.Prelude.{◌≡◌, ◌<◌, ◌≤◌, All, length};
ghost use Rattle.interval_model.specs.Space.{middle};
ghost use Rattle.cover_model.specs.Narrowed.{enclosures};
ghost use Rattle.ival.specs.RowViews.{rows_of};
ghost use Rattle.ival.specs.SpaceViews.{space_of};
ghost use Rattle.plain_eval.specs.Calls.{AreEnclosures, IsCombined};
ghost use Rattle.plain_eval.specs.Suits.{Suits};

use crate::parts::{leave, sum_parts};
use crate::room::Room;
use crate::set_axes::set_axes;
use crate::start::start;
use crate::sweep::sweep;
use dyadic::Dy;
use ival::{Narrowed, Rows, Space};
use poly_graph::{Lits, Problem};

/// Leaves of the space what a combination of marked atoms leaves of it, each atom loosened by 2 to the power of minus
/// `loosen`, and tells whether that is less; where it is nothing the space stays as it was. The rows are the enclosures
/// over the space, `centre` is its middle, and the rows of the centre are the enclosures over that.
pub fn combine_plain(
    problem: &Problem,
    loosen: u32,
    lits: &Lits,
    multipliers: &[(u32, Dy)],
    rows: &Rows,
    centre: &Space,
    centre_rows: &Rows,
    room: &mut Room,
    space: &mut Space,
) -> Narrowed
    requires loosen { loosen ≤ 120 }
    requires atoms { All (λ x. x.0 < length problem.now.atoms) multipliers.now }
    requires lits { length lits.now ≡ length problem.now.atoms }
    requires rows { rows_of rows.now ≡ enclosures (space_of space.old) problem.now.nodes }
    requires centre { space_of centre.now ≡ middle (space_of space.old) }
    requires centre_rows { AreEnclosures problem.now.nodes centre.now centre_rows.now }
    requires room { Suits problem.now.nodes room.old }
    ensures narrowed { IsCombined problem.now loosen lits.now multipliers.now
        space.old space.new result }
    ensures room { Suits problem.now.nodes room.new }
{
    let graph = problem.graph();
    let coefficients = &mut room.coefficients;
    let ranges = &mut room.ranges;
    let left = &mut room.left;
    let (central, allowed) = start(
        problem,
        loosen,
        lits,
        multipliers,
        centre_rows,
        &mut coefficients.linear,
    );
    coefficients.square.clear_marks();
    left.clear_marks();
    let rest = sweep(graph, rows, centre_rows, central, coefficients);
    let sum = sum_parts(graph, coefficients, space, centre, ranges, left);
    if rest.add(sum).meet(allowed).is_empty() {
        return Narrowed::Empty;
    }
    if !leave(
        graph,
        coefficients,
        space,
        centre,
        allowed,
        rest,
        ranges,
        left,
    ) {
        return Narrowed::Empty;
    }
    if set_axes(graph, left, space) {
        Narrowed::Less
    } else {
        Narrowed::Same
    }
}
