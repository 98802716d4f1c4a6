// What is left to variables, as what is left of a space.
ghost use Rattle.std.specs.Prelude.{◌≡◌, ◌≢◌, true, false, length, Some};
ghost use Rattle.cover_model.specs.Narrowed.{set_axis, with_axes};
ghost use Rattle.ival.specs.Views.{interval_of};
ghost use Rattle.ival.specs.RowViews.{rows_of};
ghost use Rattle.ival.specs.Options.{options_of};
ghost use Rattle.ival.specs.SpaceViews.{space_of};
ghost use Rattle.plain_eval.specs.Calls.{with_variable};

use ival::{Ival, Rows, Space};
use poly_graph::{Graph, Node};

// Leaves to the axis, if there is such an axis, an interval whose ends are numbers, and tells whether that is a change.
fn set_axis(axis: u32, interval: Ival, space: &mut Space) -> bool
    ensures axes { space_of space.new ≡ set_axis axis (interval_of interval) (space_of space.old) }
    ensures same { result ≡ false → space_of space.new ≡ space_of space.old }
    ensures less { result ≡ true → space_of space.new ≢ space_of space.old }
{
    let axis = axis as usize;
    if axis >= space.len() {
        return false;
    }
    match interval.range() {
        Some(range) => space.set_real(axis, range),
        None => false,
    }
}

// Leaves to the axis of a node that is a variable what is left to the node, and tells whether that is a change.
fn set_variable(node: Node, interval: Ival, space: &mut Space) -> bool
    ensures axes { space_of space.new ≡ with_variable node interval space.old }
    ensures same { result ≡ false → space_of space.new ≡ space_of space.old }
    ensures less { result ≡ true → space_of space.new ≢ space_of space.old }
{
    match node {
        Node::Var(axis) => set_axis(axis, interval, space),
        Node::Const(_) => false,
        Node::Neg(_) => false,
        Node::Add(_, _) => false,
        Node::Mul(_, _) => false,
        Node::Sq(_) => false,
    }
}

/// Leaves to the axis of each variable what is left to it, where its row is marked, and tells whether that is a change.
pub fn set_axes(graph: &Graph, left: &Rows, space: &mut Space) -> bool
    requires { length (rows_of left.now) ≡ length graph.now }
    ensures axes { space_of space.new ≡
        with_axes graph.now (options_of left.now) (space_of space.old) }
    ensures same { result ≡ false → space_of space.new ≡ space_of space.old }
    ensures less { result ≡ true → space_of space.new ≢ space_of space.old }
{
    let mut is_less = false;
    let mut place = graph.len();
    while let Some(n) = left.next_marked_below(place) {
        if set_variable(graph.node(n as u32), left.get(n), space) {
            is_less = true;
        }
        place = n;
    }
    is_less
}
