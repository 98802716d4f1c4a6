// What a combination leaves of a space.
ghost use Rattle.std.specs.Prelude.{◌≡◌, ◌≤◌, length, vec_len};
ghost use Rattle.interval_model.specs.Space.{middle};
ghost use Rattle.ival.specs.SpaceViews.{space_of};
ghost use Rattle.combine.specs.Combined.{IsMeasuredOver, IsNarrowedByExpansion};
ghost use Rattle.combine.specs.Combined.{NamesAtoms, EncloseOver, IsNarrowedByCombination};
ghost use Rattle.combine.specs.Rooms.{FitsRoom};

use crate::axes::narrow;
use crate::combination::{Combination, Enclosures};
use crate::gathered::Gathered;
use crate::room::Room;
use crate::roots::hand_roots;
use crate::sweep::sweep;
use ival::{Ival, Narrowed, Rows, Space};

// Leaves of the space what the allowed range leaves of it, by the expansion.
fn narrow_by(
    gathered: &Gathered,
    centre: &Space,
    allowed: Ival,
    lefts: &mut [Ival],
    space: &mut Space,
) -> Narrowed
    requires measured { IsMeasuredOver space.old centre.now gathered.now }
    requires room { vec_len gathered.now.parts ≤ length lefts.old }
    ensures narrowed { IsNarrowedByExpansion gathered.now centre.now allowed
        space.old space.new result }
    ensures room { length lefts.new ≡ length lefts.old }
{
    let range = gathered.rest.add(gathered.sum);
    if range.meet(allowed).is_empty() {
        return Narrowed::Empty;
    }
    let parts = &gathered.parts[gathered.first..];
    narrow(parts, centre, allowed, gathered.rest, lefts, space)
}

/// Leaves of the space what the combination leaves of it, and tells whether that is less; where it is nothing the space
/// stays as it was (the mean value form: Moore 1966; Farkas' lemma). The marks are not tested. The rows are the
/// enclosures over the space; `centre` is its middle, with the enclosures over that. The room is one for the problem,
/// whatever stands in it.
pub fn combine(
    combination: &Combination<'_>,
    rows: &Rows,
    centre: &Space,
    centre_rows: &Rows,
    room: &mut Room,
    space: &mut Space,
) -> Narrowed
    requires loosen { combination.now.loosen ≤ 120 }
    requires atoms { NamesAtoms combination.now }
    requires lits { length combination.now.lits.now ≡ length combination.now.problem.now.atoms }
    requires rows { EncloseOver combination.now.problem.now space.old rows.now }
    requires centre { space_of centre.now ≡ middle (space_of space.old) }
    requires centre_rows { EncloseOver combination.now.problem.now centre.now centre_rows.now }
    requires room { FitsRoom combination.now.problem.now.nodes room.old }
    ensures narrowed { IsNarrowedByCombination combination.now space.old space.new result }
    ensures room { FitsRoom combination.now.problem.now.nodes room.new }
{
    let ranges = hand_roots(combination, centre_rows, &mut room.adjoints);
    room.squares.clear_marks();
    room.gathered.begin(ranges.central);
    let enclosures = Enclosures {
        space,
        rows,
        centre,
        centre_rows,
    };
    sweep(
        combination.problem.graph(),
        &enclosures,
        &mut room.adjoints,
        &mut room.squares,
        &mut room.gathered,
    );
    narrow_by(
        &room.gathered,
        centre,
        ranges.allowed,
        &mut room.lefts,
        space,
    )
}
