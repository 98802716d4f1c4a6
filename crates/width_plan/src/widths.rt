// The widths of a graph's nodes.
ghost use Rattle.std.specs.Prelude.{◌≡◌, ◌<◌, ◌≤◌, ℕ, length, map, IsTrue};
ghost use Rattle.dyadic.specs.Views.{ext_of};
ghost use Rattle.poly_graph.specs.Term.{comes_after};
ghost use Rattle.poly_graph.specs.Views.{node_of};
ghost use Rattle.cover_model.specs.Narrowed.{enclosures};
ghost use Rattle.ival.specs.RowViews.{rows_of};
ghost use Rattle.ival.specs.SpaceViews.{space_of};
ghost use Rattle.width_plan.specs.NodeWidth.{graph_widths, added, of_sum, of_product, of_square, node_width};

use crate::sizes::{
    doubled, interval_size, interval_width, rounding_width, width_product, width_sum,
};
use dyadic::{Ext, two_to_minus};
use ival::{Rows, Space};
use poly_graph::{Graph, Node};

// What rounding adds to the width of the node in this place.
fn added(place: usize, rows: &Rows) -> Ext
    requires { place < length (rows_of rows.now) }
    ensures { ext_of result ≡ added (rows_of rows.now) place }
{
    rounding_width(interval_size(rows.get(place)))
}

// The width of a sum, without what rounding adds.
fn of_sum(a: u32, b: u32, widths: &[Ext]) -> Ext
    requires first { a < length widths.now }
    requires second { b < length widths.now }
    ensures { ext_of result ≡ of_sum (map ext_of widths.now) a b }
{
    width_sum(widths[a as usize], widths[b as usize])
}

// The width of a product, likewise.
fn of_product(a: u32, b: u32, rows: &Rows, widths: &[Ext]) -> Ext
    requires first { a < length widths.now }
    requires second { b < length widths.now }
    requires first_row { a < length (rows_of rows.now) }
    requires second_row { b < length (rows_of rows.now) }
    ensures { ext_of result ≡ of_product (rows_of rows.now) (map ext_of widths.now) a b }
{
    let first = width_product(interval_size(rows.get(a as usize)), widths[b as usize]);
    let second = width_product(interval_size(rows.get(b as usize)), widths[a as usize]);
    width_sum(first, second)
}

// The width of a square, likewise.
fn of_square(a: u32, rows: &Rows, widths: &[Ext]) -> Ext
    requires width { a < length widths.now }
    requires row { a < length (rows_of rows.now) }
    ensures { ext_of result ≡ of_square (rows_of rows.now) (map ext_of widths.now) a }
{
    width_product(
        doubled(interval_size(rows.get(a as usize))),
        widths[a as usize],
    )
}

// The width of a node, from those of its children.
fn node_width(node: Node, place: usize, rows: &Rows, bits: u32, widths: &[Ext]) -> Ext
    requires bits { bits ≤ 60 }
    requires order { IsTrue (comes_after place (node_of node)) }
    requires place { place < length (rows_of rows.now) }
    requires widths { place ≤ length widths.now }
    ensures { ext_of result ≡
        node_width bits (rows_of rows.now) (map ext_of widths.now) place (node_of node) }
{
    match node {
        Node::Const(_) => interval_width(rows.get(place)),
        Node::Var(_) => Ext::Fin(two_to_minus(bits)),
        Node::Neg(a) => widths[a as usize],
        Node::Add(a, b) => width_sum(of_sum(a, b, widths), added(place, rows)),
        Node::Mul(a, b) => width_sum(of_product(a, b, rows, widths), added(place, rows)),
        Node::Sq(a) => width_sum(of_square(a, rows, widths), added(place, rows)),
    }
}

/// Puts the width of each node's term, over boxes whose sides are at most `2^-bits`, into its place. The rows are the
/// enclosures over the root.
pub fn fill_widths(graph: &Graph, _root: &Space, rows: &Rows, bits: u32, widths: &mut [Ext])
    requires bits { bits ≤ 60 }
    requires rows { rows_of rows.now ≡ enclosures (space_of _root.now) graph.now }
    requires count { length widths.old ≡ length graph.now }
    ensures { map ext_of widths.new ≡ graph_widths (space_of _root.now) bits graph.now }
{
    for place in 0..graph.len() {
        widths[place] = node_width(graph.node(place as u32), place, rows, bits, widths);
    }
}
