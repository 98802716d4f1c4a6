// What narrowed intervals leave to the axes.
ghost use Rattle.std.specs.Prelude.{◌≡◌, ◌≢◌, ℕ, true, false, length, Some};
ghost use Rattle.cover_model.specs.AxisStep.{axis_step};
ghost use Rattle.cover_model.specs.Narrowed.{set_axis, with_axes};
ghost use Rattle.poly_graph.specs.Views.{node_of};
ghost use Rattle.ival.specs.Views.{interval_of};
ghost use Rattle.ival.specs.RowViews.{rows_of};
ghost use Rattle.ival.specs.Options.{options_of};
ghost use Rattle.ival.specs.SpaceViews.{space_of};

use ival::{Ival, Rows, Space};
use poly_graph::{Graph, Node};

// Leaves to the axis, if there is such an axis, an interval whose ends are numbers, and tells whether that is a change.
fn narrow_variable(axis: u32, interval: Ival, space: &mut Space) -> bool
    ensures axes { space_of space.new ≡ set_axis axis (interval_of interval) (space_of space.old) }
    ensures same { result ≡ false → space_of space.new ≡ space_of space.old }
    ensures less { result ≡ true → space_of space.new ≢ space_of space.old }
{
    let axis = axis as usize;
    if axis >= space.len() {
        return false;
    }
    match interval.range() {
        Some(range) => space.set_real(axis, range),
        None => false,
    }
}

// Leaves to the axis of a variable its narrowed interval, and tells whether that is a change.
fn narrow_axis(node: Node, narrowed: Ival, space: &mut Space) -> bool
    ensures axes { space_of space.new ≡
        axis_step (node_of node) (Some (interval_of narrowed)) (space_of space.old) }
    ensures same { result ≡ false → space_of space.new ≡ space_of space.old }
    ensures less { result ≡ true → space_of space.new ≢ space_of space.old }
{
    match node {
        Node::Var(axis) => narrow_variable(axis, narrowed, space),
        _ => false,
    }
}

/// Leaves to the axis of each variable its narrowed interval, if it has one, and tells whether that is a change.
pub fn narrow_axes(graph: &Graph, scratch: &Rows, space: &mut Space) -> bool
    requires { length (rows_of scratch.now) ≡ length graph.now }
    ensures axes { space_of space.new ≡
        with_axes graph.now (options_of scratch.now) (space_of space.old) }
    ensures same { result ≡ false → space_of space.new ≡ space_of space.old }
    ensures less { result ≡ true → space_of space.new ≢ space_of space.old }
{
    let mut is_less = false;
    let mut place = graph.len();
    while let Some(n) = scratch.next_marked_below(place) {
        if narrow_axis(graph.node(n as u32), scratch.get(n), space) {
            is_less = true;
        }
        place = n;
    }
    is_less
}
