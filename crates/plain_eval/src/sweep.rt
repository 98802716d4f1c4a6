// The sweep from the highest root down.
ghost use Rattle.std.specs.Prelude.{◌≡◌, ◌<◌, length, IsTrue, true, false};
ghost use Rattle.poly_graph.specs.Term.{comes_after};
ghost use Rattle.poly_graph.specs.Views.{node_of};
ghost use Rattle.cover_model.specs.Combination.{off_centre};
ghost use Rattle.ival.specs.Views.{interval_of};
ghost use Rattle.ival.specs.RowViews.{rows_of};
ghost use Rattle.plain_eval.specs.Calls.{IsExact, IsSomewhere, Sweeps, rest_with_node, rest_with_product, rest_with_square};
ghost use Rattle.plain_eval.specs.Suits.{AreFor, AreUnder};
ghost use Rattle.plain_eval.specs.Rest.{IsStill, with_node};

use crate::give::{entry, give_children, give_square};
use crate::quadratic::{is_single, less, multiple};
use crate::room::Coefficients;
use ival::{Ival, Rows};
use poly_graph::{Graph, Node};

// By how much node n may differ from its value at the centre.
fn off_centre(n: usize, rows: &Rows, centre_rows: &Rows) -> Ival
    requires rows { n < length (rows_of rows.now) }
    requires centre_rows { n < length (rows_of centre_rows.now) }
    ensures { interval_of result ≡ off_centre (rows_of rows.now) (rows_of centre_rows.now) n }
{
    less(rows.get(n), centre_rows.get(n))
}

// Whether node n has one value, at the centre too.
fn is_still(n: usize, rows: &Rows, centre_rows: &Rows) -> bool
    requires rows { n < length (rows_of rows.now) }
    requires centre_rows { n < length (rows_of centre_rows.now) }
    ensures { result ≡ true → IsStill (rows_of rows.now) (rows_of centre_rows.now) n }
{
    let interval = rows.get(n);
    is_single(interval) && interval == centre_rows.get(n)
}

// Whether node n has a value, at the centre too.
fn is_somewhere(n: usize, rows: &Rows, centre_rows: &Rows) -> bool
    requires rows { n < length (rows_of rows.now) }
    requires centre_rows { n < length (rows_of centre_rows.now) }
    ensures { result ≡ true → IsSomewhere rows.now centre_rows.now n }
{
    !rows.get(n).is_empty() && !centre_rows.get(n).is_empty()
}

// Whether a product has a factor of one value, so that nothing is left over of it.
fn is_multiple(a: usize, b: usize, linear: Ival, rows: &Rows, centre_rows: &Rows) -> bool
    requires first { a < length (rows_of rows.now) }
    requires second { b < length (rows_of rows.now) }
    requires rows { length (rows_of centre_rows.now) ≡ length (rows_of rows.now) }
    ensures { result ≡ true → IsExact rows.now centre_rows.now a b linear }
{
    if linear.is_empty() {
        return false;
    }
    if is_still(a, rows, centre_rows) {
        return is_somewhere(b, rows, centre_rows);
    }
    is_still(b, rows, centre_rows) && is_somewhere(a, rows, centre_rows)
}

// What is left over of a product, times the product's coefficient, added to the rest.
fn add_product(a: u32, b: u32, linear: Ival, rows: &Rows, centre_rows: &Rows, rest: Ival) -> Ival
    requires first { a < length (rows_of rows.now) }
    requires second { b < length (rows_of rows.now) }
    requires rows { length (rows_of centre_rows.now) ≡ length (rows_of rows.now) }
    ensures { interval_of result ≡ rest_with_product rows.now centre_rows.now a b linear rest }
{
    let a = a as usize;
    let b = b as usize;
    if is_multiple(a, b, linear, rows, centre_rows) {
        return rest;
    }
    let first = off_centre(a, rows, centre_rows);
    let second = off_centre(b, rows, centre_rows);
    rest.add(multiple(linear, first.mul(second)))
}

// The square of node n's difference, times its coefficient, added to the rest.
fn add_square(n: usize, square: Option<Ival>, rows: &Rows, centre_rows: &Rows, rest: Ival) -> Ival
    requires rows { n < length (rows_of rows.now) }
    requires centre_rows { n < length (rows_of centre_rows.now) }
    ensures { interval_of result ≡ rest_with_square rows.now centre_rows.now n square rest }
{
    let Some(square) = square else {
        return rest;
    };
    rest.add(square.mul(off_centre(n, rows, centre_rows).sq()))
}

// The rest with what node n adds to it.
fn with_node(
    node: Node,
    n: usize,
    linear: Ival,
    square: Option<Ival>,
    rows: &Rows,
    centre_rows: &Rows,
    rest: Ival,
) -> Ival
    requires order { IsTrue (comes_after n (node_of node)) }
    requires node { n < length (rows_of rows.now) }
    requires rows { length (rows_of centre_rows.now) ≡ length (rows_of rows.now) }
    ensures { interval_of result ≡
        rest_with_node rows.now centre_rows.now n linear square node rest }
{
    match node {
        Node::Var(_) => rest,
        Node::Mul(a, b) => {
            let rest = add_square(n, square, rows, centre_rows, rest);
            add_product(a, b, linear, rows, centre_rows, rest)
        }
        _ => add_square(n, square, rows, centre_rows, rest),
    }
}

/// Expands what the coefficients stand for, which are those of roots, over nodes from the highest down: after it each
/// node under the roots has its coefficients. The answer is the range of the rest, which begins with this one.
pub fn sweep(
    graph: &Graph,
    rows: &Rows,
    centre_rows: &Rows,
    rest: Ival,
    coefficients: &mut Coefficients,
) -> Ival
    requires rows { length (rows_of rows.now) ≡ length graph.now }
    requires centre_rows { length (rows_of centre_rows.now) ≡ length graph.now }
    requires count { AreFor graph.now coefficients.old }
    requires under { AreUnder coefficients.old }
    ensures expansion { Sweeps graph.now rows.now centre_rows.now rest
        coefficients.old coefficients.new result }
    ensures count { AreFor graph.now coefficients.new }
    ensures under { AreUnder coefficients.new }
{
    prove_eq!(coefficients.linear.len(), graph.len());
    let mut rest = rest;
    let mut place = graph.len();
    while let Some(n) = coefficients.linear.next_marked_below(place) {
        let node = graph.node(n as u32);
        let linear = coefficients.linear.get(n);
        let square = entry(&coefficients.square, n);
        rest = with_node(node, n, linear, square, rows, centre_rows, rest);
        give_children(graph, node, linear, centre_rows, &mut coefficients.linear);
        give_square(node, linear, &mut coefficients.square);
        place = n;
    }
    rest
}
