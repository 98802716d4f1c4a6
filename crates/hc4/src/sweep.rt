// The backward pass over the nodes under an atom.
ghost use Rattle.std.specs.Prelude.{◌≡◌, ℕ, ◌<◌, length, Some, true, false, slice_get};
ghost use Rattle.poly_graph.specs.Term.{variable_node};
ghost use Rattle.cover_model.specs.Narrowed.{some_empty};
ghost use Rattle.ival.specs.Views.{interval_of};
ghost use Rattle.ival.specs.RowViews.{rows_of};
ghost use Rattle.ival.specs.Options.{option_at};
ghost use Rattle.hc4.specs.Reached.{AreEnclosures};
ghost use Rattle.hc4.specs.Sweeps.{HasVariables, narrowed_under};

use crate::push::{push_to, visit};
use ival::{Ival, Rows};
use poly_graph::Graph;

/// Narrows the nodes under the root, from the root down, each at most once, and returns whether none of them is empty.
/// Below a node that is not narrowed no node is visited by way of it. Then the scratch has the narrowed intervals of
/// the variables among them, but for some that are not narrowed, and no other interval.
pub fn sweep(graph: &Graph, root: u32, range: Ival, rows: &Rows, scratch: &mut Rows) -> bool
    requires root { root < length graph.now }
    requires rows { length (rows_of rows.now) ≡ length graph.now }
    requires enclosures { AreEnclosures graph.now (rows_of rows.now) }
    requires scratch { length (rows_of scratch.old) ≡ length graph.now }
    ensures none { result ≡ false →
        some_empty (narrowed_under graph.now rows.now root range) ≡ true }
    ensures some { result ≡ true →
        some_empty (narrowed_under graph.now rows.now root range) ≡ false }
    ensures variables { result ≡ true →
        HasVariables graph.now (rows_of rows.now)
        (narrowed_under graph.now rows.now root range) scratch.new }
    ensures count { length (rows_of scratch.new) ≡ length graph.now }
{
    prove_eq!(rows.len(), graph.len());
    scratch.clear_marks();
    push_to(rows, root, range, scratch);
    let mut place = root as usize + 1;
    while let Some(n) = scratch.next_marked_below(place) {
        let narrowed = scratch.get(n);
        if narrowed.is_empty() {
            return false;
        }
        visit(graph.node(n as u32), n, narrowed, rows, scratch);
        place = n;
    }
    true
}
