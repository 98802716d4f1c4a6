// Enclosures of the nodes up to one of them.
ghost use Rattle.std.specs.Prelude.{◌≡◌, ◌<◌, length};
ghost use Rattle.cover_model.specs.Narrowed.{enclosures};
ghost use Rattle.cover_model.specs.NodeEnclosure.{row};
ghost use Rattle.ival.specs.Views.{interval_of};
ghost use Rattle.ival.specs.RowViews.{rows_of, marks_of};
ghost use Rattle.ival.specs.SpaceViews.{space_of};
ghost use Rattle.plain_eval.specs.Rows.{AgreeUpTo};

use crate::evaluate::value;
use ival::{Ival, Rows, Space};
use poly_graph::Graph;

/// The enclosure of the node's term over the space. There are as many rows as nodes; after it those up to the
/// node's are the enclosures. Marks stay.
pub fn enclose(graph: &Graph, node: u32, space: &Space, rows: &mut Rows) -> Ival
    requires count { length (rows_of rows.old) ≡ length graph.now }
    requires place { node < length graph.now }
    ensures result { interval_of result ≡ row (enclosures (space_of space.now) graph.now) node }
    ensures rows { AgreeUpTo node (rows_of rows.new) (enclosures (space_of space.now) graph.now) }
    ensures count { length (rows_of rows.new) ≡ length graph.now }
    ensures marks { marks_of rows.new ≡ marks_of rows.old }
{
    let count = graph.len();
    for n in 0..count {
        let interval = value(graph.node(n as u32), space, rows);
        rows.set(n, interval);
        if n == node as usize {
            return interval;
        }
    }
    Ival::Empty
}
