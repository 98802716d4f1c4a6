// The tightest ends of each axis.
ghost use Rattle.std.specs.Prelude.{◌≡◌, ◌<◌, length, map, replicate, false, IfOk};
ghost use Rattle.declared_box.specs.Calls.{AreTightestBy, intervals_of, tightened_after, tightened_on};
ghost use Rattle.declared_box.specs.Table.{AreBefore, ComesAfter};
ghost use Rattle.declared_box.specs.Interval.{no_interval};
ghost use Rattle.declared_box.specs.Sweep.{marked_all, marks_after};
ghost use Rattle.declared_box.specs.Views.{node_of, interval_of};

use crate::interval::Interval;
use crate::table::{BoundNode, BoundTable, Side};
use dyadic::Frac;
use std::alloc::{AllocError, Global};

// Marks each of these nodes.
fn mark_all(marks: &mut [bool], parts: &[u32])
    requires { AreBefore (length marks.old) parts.now }
    ensures { marks.new ≡ marked_all marks.old parts.now }
{
    for part in parts {
        marks[*part as usize] = true;
    }
}

// Adds a bound to the ends of its axis, if there is such an axis.
fn tighten(intervals: &mut [Interval], axis: u32, side: Side, value: Frac)
    ensures { intervals_of intervals.new ≡ tightened_on axis side value intervals.old }
{
    let axis = axis as usize;
    if axis < intervals.len() {
        intervals[axis] = intervals[axis].tightened(side, value);
    }
}

// Adds the node's bound to the ends of its axis, or marks its parts.
fn visit(node: &BoundNode, marks: &mut [bool], intervals: &mut [Interval])
    requires { ComesAfter (length marks.old) (node_of node.now) }
    ensures marks { marks.new ≡ marks_after (node_of node.now) marks.old }
    ensures intervals { intervals_of intervals.new ≡ tightened_after node.now intervals.old }
{
    match node {
        BoundNode::One(axis, side, value) => tighten(intervals, *axis, *side, *value),
        BoundNode::All(parts) => mark_all(marks, parts),
    }
}

// A mark for each node, set at these.
fn marks_at(alloc: Global, count: usize, nodes: &[u32]) -> Result<Vec<bool>, AllocError>
    requires { AreBefore count nodes.now }
    ensures { IfOk result (λ marks. marks.items ≡ marked_all (replicate count false) nodes.now) }
{
    let mut marks = vec![in alloc; false; count]?;
    mark_all(&mut marks, nodes);
    Ok(marks)
}

// So many axes without ends.
fn no_intervals(alloc: Global, count: usize) -> Result<Vec<Interval>, AllocError>
    ensures { IfOk result (λ intervals.
        map interval_of intervals.items ≡ replicate count no_interval) }
{
    let mut intervals = Vec::with_capacity(alloc, count)?;
    for _ in 0..count {
        intervals.push(Interval::none())?;
    }
    Ok(intervals)
}

/// For each axis below `axes` its tightest ends by the bounds of these lists. Each node is visited once, after its
/// parents.
pub fn tightest(
    alloc: Global,
    table: &BoundTable,
    roots: &[u32],
    axes: usize,
) -> Result<Vec<Interval>, AllocError>
    requires { AreBefore (length table.now) roots.now }
    ensures { IfOk result (AreTightestBy table.now roots.now axes) }
{
    let nodes = table.nodes();
    let mut marks = marks_at(alloc, nodes.len(), roots)?;
    let mut intervals = no_intervals(alloc, axes)?;
    for n in (0..nodes.len()).rev() {
        if marks[n] {
            visit(&nodes[n], &mut marks, &mut intervals);
        }
    }
    Ok(intervals)
}
