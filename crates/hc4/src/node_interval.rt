// The enclosure of a node, from the rows of its children.
ghost use Rattle.std.specs.Prelude.{◌≡◌, length, IsTrue};
ghost use Rattle.poly_graph.specs.Term.{comes_after};
ghost use Rattle.poly_graph.specs.Views.{node_of};
ghost use Rattle.ival.specs.Views.{interval_of};
ghost use Rattle.ival.specs.RowViews.{rows_of};
ghost use Rattle.hc4.specs.Renewed.{enclosure_in};

use ival::{Ival, Rows, Space};
use poly_graph::Node;

/// The enclosure of a node over the space, where the rows of its children are theirs.
pub fn node_interval(node: Node, space: &Space, rows: &Rows) -> Ival
    requires { IsTrue (comes_after (length (rows_of rows.now)) (node_of node)) }
    ensures { interval_of result ≡ enclosure_in space.now rows.now node }
{
    match node {
        Node::Const(fraction) => Ival::around(fraction),
        Node::Var(axis) => space.interval(axis),
        Node::Neg(a) => rows.get(a as usize).neg(),
        Node::Add(a, b) => rows.get(a as usize).add(rows.get(b as usize)),
        Node::Mul(a, b) => rows.get(a as usize).mul(rows.get(b as usize)),
        Node::Sq(a) => rows.get(a as usize).sq(),
    }
}
