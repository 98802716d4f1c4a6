// Whether with each node its children are marked, which an expansion rests on.
ghost use Rattle.std.specs.Prelude.{◌≡◌, ◌<◌, ℕ, true, false, get_or, length, IsTrue};
ghost use Rattle.poly_graph.specs.Term.{has_child};
ghost use Rattle.poly_graph.specs.Views.{node_of};
ghost use Rattle.squares.specs.Expanding.{IsClosed};
ghost use Rattle.square_search.specs.Closed.{IsClosedAt};

use crate::marks::is_marked;
use poly_graph::{Graph, Node};

// Whether a node's children are marked.
fn has_marked_children(node: Node, marks: &[bool]) -> bool
    ensures { IsTrue result → (i : ℕ) → has_child i (node_of node) ≡ true →
        get_or marks.now i false ≡ true }
{
    match node {
        Node::Const(_) | Node::Var(_) => true,
        Node::Neg(a) | Node::Sq(a) => is_marked(marks, a),
        Node::Add(a, b) | Node::Mul(a, b) => is_marked(marks, a) && is_marked(marks, b),
    }
}

// Whether a node's children are marked, if it is.
fn is_closed_at(graph: &Graph, marks: &[bool], n: u32) -> bool
    requires { n < length graph.now }
    ensures { IsTrue result → IsClosedAt graph.now marks.now n }
{
    !is_marked(marks, n) || has_marked_children(graph.node(n), marks)
}

/// Whether there is a mark for each node, and with each marked one its children are marked.
pub fn are_closed(graph: &Graph, marks: &[bool]) -> bool
    ensures count { IsTrue result → length marks.now ≡ length graph.now }
    ensures closed { IsTrue result → IsClosed graph.now marks.now }
{
    if marks.len() != graph.len() {
        return false;
    }
    for n in 0..graph.len() {
        if !is_closed_at(graph, marks, n as u32) {
            return false;
        }
    }
    true
}
