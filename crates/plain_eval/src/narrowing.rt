// Narrowed spaces.
ghost use Rattle.std.specs.Prelude.{◌≡◌, ◌<◌, ◌≤◌, length};
ghost use Rattle.cover_model.specs.Narrowed.{enclosures, narrowed_by};
ghost use Rattle.ival.specs.Narrows.{IsNarrowed};
ghost use Rattle.ival.specs.RowViews.{rows_of};
ghost use Rattle.ival.specs.SpaceViews.{space_of};
ghost use Rattle.ival.specs.Views.{interval_of};
ghost use Rattle.plain_eval.specs.Narrowing.{IsNarrowedByAtom, IsNarrowedOff};

use crate::axes::narrow_axes;
use crate::scratch::some_empty;
use crate::subterms::narrow_rows;
use cover_model::{off_range_ends, range_ends};
use ival::{Ival, Narrowed, Rows, Space};
use poly_graph::{Atom, Graph};

// Leaves of the space what the root leaves of it where its value lies in the range. The rows are the enclosures over the
// space.
fn narrow_by(
    graph: &Graph,
    root: u32,
    range: Ival,
    rows: &Rows,
    scratch: &mut Rows,
    space: &mut Space,
) -> Narrowed
    requires place { root < length graph.now }
    requires rows { rows_of rows.now ≡ enclosures (space_of space.old) graph.now }
    requires scratch { length (rows_of scratch.old) ≡ length graph.now }
    ensures narrowed { IsNarrowed (space_of space.old) (space_of space.new)
        (narrowed_by graph.now root (interval_of range) (space_of space.old)) result }
    ensures scratch { length (rows_of scratch.new) ≡ length graph.now }
{
    narrow_rows(graph, root, range, rows, scratch);
    if some_empty(scratch) {
        return Narrowed::Empty;
    }
    if narrow_axes(graph, scratch, space) {
        Narrowed::Less
    } else {
        Narrowed::Same
    }
}

/// Leaves of the space what an atom leaves of it that holds but for 2 to the power of minus `loosen`, and tells
/// whether that is less; where it is nothing the space stays as it was. The rows are the enclosures over the space;
/// there are as many rows of scratch as nodes, whatever stands there. Only nodes under the atom are looked at.
pub fn narrow_enclosed(
    graph: &Graph,
    atom: &Atom,
    loosen: u32,
    rows: &Rows,
    scratch: &mut Rows,
    space: &mut Space,
) -> Narrowed
    requires loosen { loosen ≤ 120 }
    requires place { atom.now.term < length graph.now }
    requires rows { rows_of rows.now ≡ enclosures (space_of space.old) graph.now }
    requires scratch { length (rows_of scratch.old) ≡ length graph.now }
    ensures narrowed { IsNarrowedByAtom graph.now atom.now loosen space.old space.new result }
    ensures scratch { length (rows_of scratch.new) ≡ length graph.now }
{
    let (low, high) = range_ends(atom.kind, loosen);
    narrow_by(graph, atom.term, Ival::new(low, high), rows, scratch, space)
}

/// Leaves of the space what an atom leaves of it that does not hold even but for 2 to the power of minus `loosen`, and
/// tells whether that is less; where it is nothing the space stays as it was. An equation leaves nothing only where its
/// term has no value. Rows and conditions are those of [`narrow_enclosed`].
pub fn narrow_off_enclosed(
    graph: &Graph,
    atom: &Atom,
    loosen: u32,
    rows: &Rows,
    scratch: &mut Rows,
    space: &mut Space,
) -> Narrowed
    requires loosen { loosen ≤ 120 }
    requires place { atom.now.term < length graph.now }
    requires rows { rows_of rows.now ≡ enclosures (space_of space.old) graph.now }
    requires scratch { length (rows_of scratch.old) ≡ length graph.now }
    ensures narrowed { IsNarrowedOff graph.now atom.now loosen space.old space.new result }
    ensures scratch { length (rows_of scratch.new) ≡ length graph.now }
{
    let (low, high) = off_range_ends(atom.kind, loosen);
    narrow_by(graph, atom.term, Ival::new(low, high), rows, scratch, space)
}
