// What a node gives to its children.
ghost use Rattle.std.specs.Prelude.{◌≡◌, ◌<◌, length, IsTrue};
ghost use Rattle.poly_graph.specs.Term.{comes_after};
ghost use Rattle.poly_graph.specs.Views.{node_of};
ghost use Rattle.cover_model.specs.Combination.{joined, handed};
ghost use Rattle.cover_model.specs.CombinationConstants.{is_constant_at};
ghost use Rattle.ival.specs.Views.{interval_of};
ghost use Rattle.ival.specs.RowViews.{rows_of};
ghost use Rattle.ival.specs.Options.{option_at, option_of};
ghost use Rattle.plain_eval.specs.Calls.{given, given_factor, given_part, given_square};

use crate::quadratic::multiple;
use ival::{Ival, Rows};
use poly_graph::{Graph, Node};

/// What stands in this place, if it is marked.
pub fn entry(rows: &Rows, place: usize) -> Option<Ival>
    requires { place < length (rows_of rows.now) }
    ensures { option_of result ≡ option_at rows.now place }
{
    if rows.marked(place) {
        Some(rows.get(place))
    } else {
        None
    }
}

// A coefficient with this more, which begins one where there is none.
fn joined(before: Option<Ival>, more: Ival) -> Ival
    ensures { interval_of result ≡ joined (option_of before) (interval_of more) }
{
    match before {
        Some(before) => before.add(more),
        None => more,
    }
}

/// Adds this to the coefficient of a node, or begins one with it.
pub fn give(node: u32, more: Ival, rows: &mut Rows)
    requires { node < length (rows_of rows.old) }
    ensures all { option_at rows.new ≡ handed node (interval_of more) (option_at rows.old) }
    ensures count { length (rows_of rows.new) ≡ length (rows_of rows.old) }
{
    let place = node as usize;
    let sum = joined(entry(rows, place), more);
    rows.set(place, sum);
    rows.mark(place);
}

// Whether the node is a constant.
fn is_constant(graph: &Graph, node: u32) -> bool
    requires { node < length graph.now }
    ensures { result ≡ is_constant_at graph.now node }
{
    match graph.node(node) {
        Node::Const(_) => true,
        Node::Var(_) => false,
        Node::Neg(_) => false,
        Node::Add(_, _) => false,
        Node::Mul(_, _) => false,
        Node::Sq(_) => false,
    }
}

// Gives the coefficient of a sum to a node of it, unless that is a constant.
fn give_part(graph: &Graph, node: u32, more: Ival, linear: &mut Rows)
    requires node { node < length graph.now }
    requires rows { length (rows_of linear.old) ≡ length graph.now }
    ensures all { option_at linear.new ≡ given_part graph.now node more linear.old }
    ensures count { length (rows_of linear.new) ≡ length graph.now }
{
    if is_constant(graph, node) {
        return;
    }
    give(node, more, linear);
}

// Gives the coefficient of a product, times the other factor, to a node of it, unless that is a constant.
fn give_factor(graph: &Graph, node: u32, coefficient: Ival, other: Ival, linear: &mut Rows)
    requires node { node < length graph.now }
    requires rows { length (rows_of linear.old) ≡ length graph.now }
    ensures all { option_at linear.new ≡ given_factor graph.now node coefficient other linear.old }
    ensures count { length (rows_of linear.new) ≡ length graph.now }
{
    if is_constant(graph, node) {
        return;
    }
    give(node, multiple(coefficient, other), linear);
}

/// Gives to the children what a node with this coefficient has for them, where the rows are the enclosures at the centre;
/// nothing to a constant that is added or multiplied.
pub fn give_children(
    graph: &Graph,
    node: Node,
    coefficient: Ival,
    centre_rows: &Rows,
    linear: &mut Rows,
)
    requires order { IsTrue (comes_after (length graph.now) (node_of node)) }
    requires rows { length (rows_of centre_rows.now) ≡ length graph.now }
    requires linear { length (rows_of linear.old) ≡ length graph.now }
    ensures all { option_at linear.new ≡
        given graph.now node coefficient centre_rows.now linear.old }
    ensures count { length (rows_of linear.new) ≡ length graph.now }
{
    match node {
        Node::Const(_) => {}
        Node::Var(_) => {}
        Node::Neg(a) => give(a, coefficient.neg(), linear),
        Node::Add(a, b) => {
            give_part(graph, a, coefficient, linear);
            give_part(graph, b, coefficient, linear);
        }
        Node::Mul(a, b) => {
            give_factor(graph, a, coefficient, centre_rows.get(b as usize), linear);
            give_factor(graph, b, coefficient, centre_rows.get(a as usize), linear);
        }
        Node::Sq(a) => {
            let half = multiple(coefficient, centre_rows.get(a as usize));
            give(a, half, linear);
            give(a, half, linear);
        }
    }
}

/// Gives to the child of a square the square's coefficient, for the square of the child's difference.
pub fn give_square(node: Node, coefficient: Ival, square: &mut Rows)
    requires order { IsTrue (comes_after (length (rows_of square.old)) (node_of node)) }
    ensures all { option_at square.new ≡ given_square node coefficient square.old }
    ensures count { length (rows_of square.new) ≡ length (rows_of square.old) }
{
    match node {
        Node::Const(_) => {}
        Node::Var(_) => {}
        Node::Neg(_) => {}
        Node::Add(_, _) => {}
        Node::Mul(_, _) => {}
        Node::Sq(a) => give(a, coefficient, square),
    }
}
