// Nodes from which a changed axis is reached.
ghost use Rattle.std.specs.Prelude.{◌≡◌, length, slice_set, true, false, IsTrue, ◌<◌};
ghost use Rattle.poly_graph.specs.Term.{comes_after};
ghost use Rattle.poly_graph.specs.Views.{node_of};
ghost use Rattle.ival.specs.RowViews.{rows_of, marks_of};
ghost use Rattle.hc4.specs.Reached.{IsCalm};
ghost use Rattle.hc4.specs.Renewed.{renewed};

use crate::node_interval::node_interval;
use ival::{Rows, Space};
use poly_graph::Node;

/// Whether node n is a variable to whose axis other numbers are left than its row has, or has a marked child.
pub fn is_reached(node: Node, n: usize, space: &Space, rows: &Rows) -> bool
    requires order { IsTrue (comes_after (length (rows_of rows.now)) (node_of node)) }
    requires place { n < length (rows_of rows.now) }
    ensures { result ≡ false → IsCalm space.now rows.now n (node_of node) }
{
    match node {
        Node::Const(_) => false,
        Node::Var(axis) => space.interval(axis) != rows.get(n),
        Node::Neg(a) | Node::Sq(a) => rows.marked(a as usize),
        Node::Add(a, b) | Node::Mul(a, b) => rows.marked(a as usize) || rows.marked(b as usize),
    }
}

/// Marks the row of a node, and puts the node's enclosure there.
pub fn renew(node: Node, n: usize, space: &Space, rows: &mut Rows)
    requires order { IsTrue (comes_after (length (rows_of rows.old)) (node_of node)) }
    requires place { n < length (rows_of rows.old) }
    ensures rows { rows_of rows.new ≡ renewed space.now rows.old n node }
    ensures marks { marks_of rows.new ≡ slice_set (marks_of rows.old) n true }
{
    let interval = node_interval(node, space, rows);
    rows.set(n, interval);
    rows.mark(n);
}
