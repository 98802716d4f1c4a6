// The forward pass.
ghost use Rattle.std.specs.Prelude.{◌≡◌, length};
ghost use Rattle.cover_model.specs.Narrowed.{enclosures};
ghost use Rattle.ival.specs.RowViews.{rows_of, marks_of};
ghost use Rattle.ival.specs.SpaceViews.{space_of};
ghost use Rattle.hc4.specs.Reached.{AreEnclosures};
ghost use Rattle.hc4.specs.Apart.{IsApart};

use crate::node_interval::node_interval;
use crate::reached::{is_reached, renew};
use ival::{Rows, Space};
use poly_graph::Graph;

/// Puts the enclosure of each node's term over the space into its row (the forward pass of HC4: Benhamou,
/// Goualard, Granvilliers, Puget 1999). There are as many rows as nodes; marks stay.
pub fn fill(graph: &Graph, space: &Space, rows: &mut Rows)
    requires { length (rows_of rows.old) ≡ length graph.now }
    ensures rows { rows_of rows.new ≡ enclosures (space_of space.now) graph.now }
    ensures marks { marks_of rows.new ≡ marks_of rows.old }
{
    for n in 0..graph.len() {
        let interval = node_interval(graph.node(n as u32), space, rows);
        rows.set(n, interval);
    }
}

/// Puts the enclosure of each node's term over the space into its row, where the rows were the enclosures over another
/// space, in one pass: the rows of nodes from which no axis is reached whose numbers changed stay. Afterwards those
/// have no mark.
pub fn follow(graph: &Graph, space: &Space, rows: &mut Rows)
    requires rows { AreEnclosures graph.now (rows_of rows.old) }
    ensures rows { rows_of rows.new ≡ enclosures (space_of space.now) graph.now }
    ensures apart { IsApart graph.now (rows_of rows.old) (rows_of rows.new) (marks_of rows.new) }
{
    rows.clear_marks();
    for place in 0..graph.len() {
        let node = graph.node(place as u32);
        if is_reached(node, place, space, rows) {
            renew(node, place, space, rows);
        }
    }
}
