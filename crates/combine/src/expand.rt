// What a visited node adds to an expansion.
ghost use Rattle.std.specs.Prelude.{◌≡◌, ◌+◌, ◌<◌, ◌≤◌, length, IsTrue, List, Some, true, false, vec_len};
ghost use Rattle.poly_graph.specs.Term.{comes_after, variable_node};
ghost use Rattle.poly_graph.specs.Views.{node_of};
ghost use Rattle.ival.specs.Views.{interval_of};
ghost use Rattle.ival.specs.RowViews.{rows_of};
ghost use Rattle.combine.specs.Combined.{IsMeasuredOver};
ghost use Rattle.interval_model.specs.Interval.{is_nothing};
ghost use Rattle.combine.specs.Visits.{difference_at, IsFixed, IsExact, AddsSquare, AddsProduct, IsExpanded};
ghost use Rattle.combine.specs.Parts.{needed_by};

use crate::combination::Enclosures;
use crate::gathered::Gathered;
use crate::ranges::{difference, is_number, times};
use ival::Ival;
use poly_graph::Node;

// By how much node k may differ from its value at the centre.
fn off_centre(k: usize, enclosures: &Enclosures<'_>) -> Ival
    requires rows { k < length (rows_of enclosures.now.rows.now) }
    requires centre_rows { k < length (rows_of enclosures.now.centre_rows.now) }
    ensures { interval_of result ≡ difference_at enclosures.now k }
{
    difference(enclosures.rows.get(k), enclosures.centre_rows.get(k))
}

// The rest with the square of node n's difference, if it has a coefficient.
fn with_square(n: usize, square: Option<Ival>, enclosures: &Enclosures<'_>, rest: Ival) -> Ival
    requires rows { n < length (rows_of enclosures.now.rows.now) }
    requires centre_rows { n < length (rows_of enclosures.now.centre_rows.now) }
    ensures { AddsSquare enclosures.now n square rest result }
{
    match square {
        None => rest,
        Some(square) => rest.add(square.mul(off_centre(n, enclosures).sq())),
    }
}

// Whether node k has one value, at the centre too.
fn is_fixed(k: usize, enclosures: &Enclosures<'_>) -> bool
    requires rows { k < length (rows_of enclosures.now.rows.now) }
    requires centre_rows { k < length (rows_of enclosures.now.centre_rows.now) }
    ensures { result ≡ true → IsFixed enclosures.now k }
{
    let own = enclosures.rows.get(k);
    is_number(own) && own == enclosures.centre_rows.get(k)
}

// Whether node k has values, at the centre too.
fn has_values(k: usize, enclosures: &Enclosures<'_>) -> bool
    requires rows { k < length (rows_of enclosures.now.rows.now) }
    requires centre_rows { k < length (rows_of enclosures.now.centre_rows.now) }
    ensures { result ≡ true → is_nothing (difference_at enclosures.now k) ≡ false }
{
    !enclosures.rows.get(k).is_empty() && !enclosures.centre_rows.get(k).is_empty()
}

// Whether nothing is left over of a product with this coefficient, since a factor is fixed.
fn is_exact(a: usize, b: usize, linear: Ival, enclosures: &Enclosures<'_>) -> bool
    requires first { a < length (rows_of enclosures.now.rows.now) }
    requires second { b < length (rows_of enclosures.now.rows.now) }
    requires rows { length (rows_of enclosures.now.centre_rows.now) ≡
        length (rows_of enclosures.now.rows.now) }
    ensures { result ≡ true → IsExact enclosures.now linear a b }
{
    if linear.is_empty() {
        return false;
    }
    if is_fixed(a, enclosures) {
        return has_values(b, enclosures);
    }
    is_fixed(b, enclosures) && has_values(a, enclosures)
}

// The rest with what is left over of a product.
fn with_product(node: Node, linear: Ival, enclosures: &Enclosures<'_>, rest: Ival) -> Ival
    requires order { let count = length (rows_of enclosures.now.rows.now) in
        IsTrue (comes_after count (node_of node)) }
    requires rows { length (rows_of enclosures.now.centre_rows.now) ≡
        length (rows_of enclosures.now.rows.now) }
    ensures { AddsProduct enclosures.now linear node rest result }
{
    match node {
        Node::Mul(a, b) => {
            let a = a as usize;
            let b = b as usize;
            if is_exact(a, b, linear, enclosures) {
                return rest;
            }
            let first = off_centre(a, enclosures);
            let second = off_centre(b, enclosures);
            rest.add(times(linear, first.mul(second)))
        }
        _ => rest,
    }
}

/// Adds what node n with these coefficients adds: a variable its part, another node to the rest.
pub fn expand(
    node: Node,
    n: usize,
    linear: Ival,
    square: Option<Ival>,
    enclosures: &Enclosures<'_>,
    gathered: &mut Gathered,
)
    requires order { IsTrue (comes_after n (node_of node)) }
    requires rows { n < length (rows_of enclosures.now.rows.now) }
    requires centre_rows { length (rows_of enclosures.now.centre_rows.now) ≡
        length (rows_of enclosures.now.rows.now) }
    requires room { needed_by (node_of node) ≤ gathered.old.first }
    requires measured { IsMeasuredOver enclosures.now.space.now enclosures.now.centre.now
        gathered.old }
    ensures expansion { IsExpanded enclosures.now n linear square node gathered.old gathered.new }
    ensures measured { IsMeasuredOver enclosures.now.space.now enclosures.now.centre.now
        gathered.new }
    ensures first { gathered.new.first + needed_by (node_of node) ≡ gathered.old.first }
    ensures room { vec_len gathered.new.parts ≡ vec_len gathered.old.parts }
{
    if let Node::Var(axis) = node {
        gathered.push(axis, linear, square, enclosures.space, enclosures.centre);
        return;
    }
    let rest = with_square(n, square, enclosures, gathered.rest);
    gathered.rest = with_product(node, linear, enclosures, rest);
}
