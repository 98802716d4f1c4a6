// The ends that comparisons give to constants.
ghost use Rattle.std.specs.Prelude.{◌≡◌, ◌++◌, IsTrue, Some, length, map, OnOk};
ghost use Rattle.dyadic.specs.Views.{ext_of};
ghost use Rattle.ival.specs.Views.{interval_of};
ghost use Rattle.root_rewriting.specs.Nodes.{AreBelow, IsBelow};
ghost use Rattle.script_model.specs.Meaning.{neighbours};
ghost use Rattle.script_roots.specs.TreeBounds as model;
ghost use Rattle.script_roots.specs.TreeBounds.{all_ends, at_most_ends};
ghost use Rattle.sort_check.specs.Views.{operator_of};
ghost use Rattle.root_rewriting.specs.Ends.{compared, ends_of, ends_of_all, own_ends};
ghost use Rattle.root_rewriting.specs.Sides.{is_outward, side_of};
ghost use Rattle.root_rewriting.specs.Shapes.{shape_at, shape_of};

use crate::range::end_bound::EndBound;
use crate::range::shapes::Shape;
use crate::range::side::Side;
use crate::unfold::Node;
use dyadic::Ext;
use ival::Ival;
use sort_check::{Operator, operator_named};
use std::alloc::AllocError;

// The end of an interval on a side; none at all where it is empty.
fn end_on(side: Side, range: Ival) -> Ext
    ensures end { ext_of result ≡ model.end_on (side_of side) (interval_of range) }
    ensures outward { IsTrue (is_outward (side_of side) (ext_of result)) }
{
    match (side, range) {
        (Side::Lower, Ival::Between(ends)) => ends.low,
        (Side::Upper, Ival::Between(ends)) => ends.high,
        (Side::Lower, Ival::Empty) => Ext::NegInf,
        (Side::Upper, Ival::Empty) => Ext::PosInf,
    }
}

// The end of a constant on this side, where its value there is that of the interval.
fn one_end(side: Side, axis: usize, range: Ival) -> EndBound
    ensures { ends_of (Some result) ≡
        model.one_end (side_of side) axis (interval_of range) }
{
    EndBound {
        axis,
        side,
        end: end_on(side, range),
    }
}

// What `low <= high` gives.
fn at_most_end(low: Shape, high: Shape) -> Option<EndBound>
    ensures { ends_of result ≡ at_most_ends (shape_of low) (shape_of high) }
{
    match (low, high) {
        (Shape::Axis(axis), Shape::Known(range)) => Some(one_end(Side::Upper, axis, range)),
        (Shape::Known(range), Shape::Axis(axis)) => Some(one_end(Side::Lower, axis, range)),
        _ => None,
    }
}

// Adds what `low <= high` gives.
fn push_end(low: Shape, high: Shape, ends: &mut Vec<EndBound>) -> Result<(), AllocError>
    ensures { OnOk result (ends_of_all ends.new.items ≡
        ends_of_all ends.old.items ++ at_most_ends (shape_of low) (shape_of high)) }
{
    if let Some(end) = at_most_end(low, high) {
        ends.push(end)?;
    }
    Ok(())
}

// Adds what a comparison of two gives; nothing where the operator is no comparison.
fn push_ends(
    operator: Operator,
    first: Shape,
    second: Shape,
    ends: &mut Vec<EndBound>,
) -> Result<(), AllocError>
    ensures { OnOk result (ends_of_all ends.new.items ≡ ends_of_all ends.old.items
        ++ compared (operator_of operator) (shape_of first) (shape_of second)) }
{
    match operator {
        Operator::AtMost | Operator::Below => push_end(first, second, ends),
        Operator::AtLeast | Operator::Above => push_end(second, first, ends),
        Operator::Equal => {
            push_end(first, second, ends)?;
            push_end(second, first, ends)
        }
        _ => Ok(()),
    }
}

// Adds what a chain of comparisons of trees at these places gives.
fn push_chain(
    operator: Operator,
    shapes: &[Shape],
    parts: &[usize],
    ends: &mut Vec<EndBound>,
) -> Result<(), AllocError>
    requires { AreBelow (length shapes.now) parts.now }
    ensures { OnOk result (ends_of_all ends.new.items ≡ ends_of_all ends.old.items
        ++ all_ends (neighbours (compared (operator_of operator))
        (map (shape_at shapes.now) parts.now))) }
{
    let mut rest = parts;
    while let [first, later @ ..] = rest {
        if let [second, ..] = later {
            push_ends(operator, shapes[*first], shapes[*second], ends)?;
        }
        rest = later;
    }
    Ok(())
}

/// Adds the ends that a node gives by itself.
pub(crate) fn push_node(
    node: &Node<'_>,
    shapes: &[Shape],
    ends: &mut Vec<EndBound>,
) -> Result<(), AllocError>
    requires { IsBelow (length shapes.now) node.now }
    ensures { OnOk result (ends_of_all ends.new.items ≡ ends_of_all ends.old.items
        ++ own_ends (map shape_of shapes.now) node.now) }
{
    let Node::Applied(_, name, parts) = node else {
        return Ok(());
    };
    match operator_named(name.as_slice()) {
        Some(operator) => push_chain(operator, shapes, parts.as_slice(), ends),
        None => Ok(()),
    }
}
