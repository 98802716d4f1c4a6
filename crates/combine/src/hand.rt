// What a node hands to its children.
ghost use Rattle.std.specs.Prelude.{◌≡◌, ◌<◌, length, IsTrue};
ghost use Rattle.poly_graph.specs.Term.{comes_after};
ghost use Rattle.poly_graph.specs.Views.{node_of};
ghost use Rattle.ival.specs.Views.{interval_of};
ghost use Rattle.ival.specs.RowViews.{rows_of};
ghost use Rattle.interval_model.specs.Interval.{interval_product};
ghost use Rattle.cover_model.specs.CombinationConstants.{is_constant_at};
ghost use Rattle.combine.specs.Hands.{IsHanded, IsHandedUnless, IsHandedDown, IsSquareHanded};

use crate::ranges::times;
use ival::{Ival, Rows};
use poly_graph::{Graph, Node};

/// Hands one more coefficient to node a.
pub fn hand(a: u32, coefficient: Ival, into: &mut Rows)
    requires { a < length (rows_of into.old) }
    ensures all { IsHanded a (interval_of coefficient) into.old into.new }
    ensures count { length (rows_of into.new) ≡ length (rows_of into.old) }
{
    let place = a as usize;
    let sum = if into.marked(place) {
        into.get(place).add(coefficient)
    } else {
        coefficient
    };
    into.mark(place);
    into.set(place, sum);
}

// Whether node a is a constant.
fn is_constant(graph: &Graph, a: u32) -> bool
    requires { a < length graph.now }
    ensures { result ≡ is_constant_at graph.now a }
{
    match graph.node(a) {
        Node::Const(_) => true,
        _ => false,
    }
}

// Hands node a what a sum with this coefficient leaves to it, unless it is a constant.
fn hand_term(graph: &Graph, a: u32, linear: Ival, into: &mut Rows)
    requires node { a < length graph.now }
    requires rows { length (rows_of into.old) ≡ length graph.now }
    ensures all { IsHandedUnless graph.now a (interval_of linear) into.old into.new }
    ensures count { length (rows_of into.new) ≡ length graph.now }
{
    if !is_constant(graph, a) {
        hand(a, linear, into);
    }
}

// Hands node a what a product with this coefficient leaves to it, by the other factor, unless it is a constant.
fn hand_factor(graph: &Graph, a: u32, linear: Ival, other: Ival, into: &mut Rows)
    requires node { a < length graph.now }
    requires rows { length (rows_of into.old) ≡ length graph.now }
    ensures all { let coefficient = interval_product (interval_of linear) (interval_of other) in
        IsHandedUnless graph.now a coefficient into.old into.new }
    ensures count { length (rows_of into.new) ≡ length graph.now }
{
    if !is_constant(graph, a) {
        hand(a, times(linear, other), into);
    }
}

/// Hands down what a node with this coefficient leaves to its children, by the centre's rows. A constant that is added
/// or multiplied gets nothing, since it would add nothing.
pub fn hand_down(graph: &Graph, node: Node, linear: Ival, centre_rows: &Rows, adjoints: &mut Rows)
    requires order { IsTrue (comes_after (length graph.now) (node_of node)) }
    requires rows { length (rows_of centre_rows.now) ≡ length graph.now }
    requires adjoints { length (rows_of adjoints.old) ≡ length graph.now }
    ensures all { IsHandedDown graph.now centre_rows.now linear node adjoints.old adjoints.new }
    ensures count { length (rows_of adjoints.new) ≡ length graph.now }
{
    match node {
        Node::Const(_) | Node::Var(_) => {}
        Node::Neg(a) => hand(a, linear.neg(), adjoints),
        Node::Add(a, b) => {
            hand_term(graph, a, linear, adjoints);
            hand_term(graph, b, linear, adjoints);
        }
        Node::Mul(a, b) => {
            hand_factor(graph, a, linear, centre_rows.get(b as usize), adjoints);
            hand_factor(graph, b, linear, centre_rows.get(a as usize), adjoints);
        }
        Node::Sq(a) => {
            let coefficient = times(linear, centre_rows.get(a as usize));
            hand(a, coefficient, adjoints);
            hand(a, coefficient, adjoints);
        }
    }
}

/// Hands down the coefficient of a square for the square of its child's difference.
pub fn hand_square(node: Node, linear: Ival, squares: &mut Rows)
    requires order { IsTrue (comes_after (length (rows_of squares.old)) (node_of node)) }
    ensures all { IsSquareHanded linear node squares.old squares.new }
    ensures count { length (rows_of squares.new) ≡ length (rows_of squares.old) }
{
    match node {
        Node::Sq(a) => hand(a, linear, squares),
        _ => {}
    }
}
