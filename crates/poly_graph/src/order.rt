// The order of a graph's nodes.
ghost use Rattle.std.specs.Prelude.{◌≡◌, nat_lt};
ghost use Rattle.std.specs.List.{list_all};
ghost use Rattle.poly_graph.specs.Term.{comes_after, has_child};
ghost use Rattle.poly_graph.specs.Views.{node_of};
ghost use Rattle.poly_graph.specs.FormGraph.{form_comes_after};
ghost use Rattle.poly_graph.specs.FormViews.{form_node_of};

use crate::form_node::FormNode;
use crate::node::Node;

/// Whether the node's children come before number n.
pub fn is_after(node: Node, n: u32) -> bool
    ensures { result ≡ comes_after n (node_of node) }
{
    match node {
        Node::Const(_) | Node::Var(_) => true,
        Node::Neg(a) | Node::Sq(a) => a < n,
        Node::Add(a, b) | Node::Mul(a, b) => a < n && b < n,
    }
}

/// Whether the node is a parent of node s.
pub fn is_parent(node: Node, s: u32) -> bool
    ensures { result ≡ has_child s (node_of node) }
{
    match node {
        Node::Const(_) | Node::Var(_) => false,
        Node::Neg(a) | Node::Sq(a) => a == s,
        Node::Add(a, b) | Node::Mul(a, b) => a == s || b == s,
    }
}

// Whether all of these numbers are below n.
fn are_below(numbers: &[u32], n: u32) -> bool
    ensures { result ≡ list_all (λ k. nat_lt k n) numbers.now }
{
    numbers.iter().all(|k| *k < n)
}

/// Whether the node's children come before number n.
pub fn is_form_after(node: &FormNode, n: u32) -> bool
    ensures { result ≡ form_comes_after n (form_node_of node.now) }
{
    match node {
        FormNode::And(children) | FormNode::Or(children) => are_below(children, n),
        _ => true,
    }
}
