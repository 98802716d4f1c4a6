// Enclosures that follow a space from one line to the next.
ghost use Rattle.std.specs.Prelude.{◌≡◌, ℕ, ◌<◌, length, slice_get, slice_index, All, Some, true, false};
ghost use Rattle.poly_graph.specs.Parents.{AreParents};
ghost use Rattle.poly_graph.specs.Views.{node_of};
ghost use Rattle.cover_model.specs.Narrowed.{enclosures};
ghost use Rattle.ival.specs.RowViews.{rows_of, marks_of, is_marked};
ghost use Rattle.ival.specs.SpaceViews.{space_of};
ghost use Rattle.plain_eval.specs.Renewed.{AreKept, IsRenewed};
ghost use Rattle.plain_eval.specs.Rows.{AreEnclosures};
ghost use Rattle.plain_eval.specs.Settled.{Begun};
ghost use Rattle.plain_eval.specs.Upward.{IsUpward};

use crate::evaluate::value;
use crate::upward::Upward;
use ival::{Rows, Space};
use poly_graph::{Graph, Node, Parents};

// Marks these places.
fn mark_all(places: &[u32], rows: &mut Rows)
    requires { All (λ k. k < length (rows_of rows.old)) places.now }
    ensures rows { rows_of rows.new ≡ rows_of rows.old }
    ensures others { (k : ℕ) → is_marked (marks_of rows.new) k ≡ false →
        is_marked (marks_of rows.old) k ≡ false }
    ensures all { (j : ℕ) → j < length places.now →
        is_marked (marks_of rows.new) (slice_index places.now j) ≡ true }
{
    for place in places {
        rows.mark(*place as usize);
    }
}

// Puts its enclosure, from the rows of its children, into the row of node n, and marks the node and its parents
// where that is a change.
fn renew(node: Node, n: usize, graph: &Graph, parents: &Parents, space: &Space, rows: &mut Rows)
    requires node { slice_get graph.now n ≡ Some (node_of node) }
    requires parents { AreParents graph.now parents.now }
    requires count { length (rows_of rows.old) ≡ length graph.now }
    ensures { IsRenewed graph.now (space_of space.now) n (node_of node) rows.old rows.new }
{
    prove!(n < graph.len());
    let interval = value(node, space, rows);
    if interval == rows.get(n) {
        return;
    }
    rows.set(n, interval);
    rows.mark(n);
    mark_all(parents.of(n as u32), rows);
}

// Encloses each variable again.
fn renew_variables(graph: &Graph, upward: &Upward, space: &Space, rows: &mut Rows)
    requires upward { IsUpward graph.now upward.now }
    requires rows { AreEnclosures graph.now (rows_of rows.old) }
    ensures begun { Begun graph.now (space_of space.now) rows.new }
    ensures kept { AreKept rows.old rows.new }
{
    prove_eq!(rows.len(), graph.len());
    for v in &upward.variables {
        let n = *v as usize;
        renew(graph.node(*v), n, graph, &upward.parents, space, rows);
    }
}

/// Puts the enclosure of each node's term over the space into its row, where the rows were the enclosures over another
/// space: each variable is looked at, and of the other nodes only those that have a child whose enclosure changed.
/// Then the rows that changed are marked, and some others.
pub fn follow(graph: &Graph, upward: &Upward, space: &Space, rows: &mut Rows)
    requires upward { IsUpward graph.now upward.now }
    requires rows { AreEnclosures graph.now (rows_of rows.old) }
    ensures rows { rows_of rows.new ≡ enclosures (space_of space.now) graph.now }
    ensures kept { AreKept rows.old rows.new }
{
    prove_eq!(rows.len(), graph.len());
    rows.clear_marks();
    if graph.len() == 0 {
        return;
    }
    renew_variables(graph, upward, space, rows);
    let mut place = 0;
    while let Some(n) = rows.next_marked_above(place) {
        renew(graph.node(n as u32), n, graph, &upward.parents, space, rows);
        place = n;
    }
}
