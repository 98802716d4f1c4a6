// The bounds that comparisons give.
ghost use Rattle.std.specs.Prelude.{◌≡◌, ◌<◌, length};
ghost use Rattle.term_build.specs.Steps.{tree_of};
ghost use Rattle.value_build.specs.Arithmetic.{AreNodes};
ghost use Rattle.value_build.specs.Bounds.{AddsList, weight_of};
ghost use Rattle.value_build.specs.Calls.{AddsPart, bound_of, bounds_along, bounds_at_most, bounds_of, bounds_with};
ghost use Rattle.value_build.specs.Weights.{weight};

use declared_box::{BoundTable, Side};
use dyadic::Frac;
use poly_graph::Kind;
use std::alloc::{AllocError, Global};
use term_build::Builder;

/// What a tree says of bounds: a constant, the constant of an axis, or neither.
#[derive(Clone, Copy, Debug)]
pub(crate) enum Weight {
    Known(Frac),
    Axis(u32),
    Other,
}

// What the tree of a node says.
fn weigh(builder: &Builder, k: u32) -> Weight
    requires { k < length builder.now.nodes }
    ensures { weight_of result ≡ weight (tree_of builder.now k) }
{
    if let Some(q) = builder.constant_at(k) {
        return Weight::Known(q);
    }
    match builder.axis_at(k) {
        Some(axis) => Weight::Axis(axis),
        None => Weight::Other,
    }
}

// One bound is a part more.
fn add_one(
    bounds: &mut BoundTable,
    axis: u32,
    side: Side,
    value: Frac,
    parts: &mut Vec<u32>,
) -> Result<(), AllocError>
    ensures { AddsPart bounds.old bounds.new parts.old parts.new (bound_of side axis value) result }
{
    let number = bounds.one(axis, side, value)?;
    parts.push(number)?;
    Ok(())
}

// The bounds of "a is at most b" are a part more, where there are any.
fn add_at_most(
    bounds: &mut BoundTable,
    a: Weight,
    b: Weight,
    parts: &mut Vec<u32>,
) -> Result<(), AllocError>
    ensures { AddsPart bounds.old bounds.new parts.old parts.new (bounds_at_most a b) result }
{
    match (a, b) {
        (Weight::Axis(axis), Weight::Known(q)) => add_one(bounds, axis, Side::Upper, q, parts),
        (Weight::Known(q), Weight::Axis(axis)) => add_one(bounds, axis, Side::Lower, q, parts),
        _ => Ok(()),
    }
}

// The bounds of a comparison of two trees are parts more.
fn add_bounds(
    bounds: &mut BoundTable,
    a: Weight,
    b: Weight,
    kind: Kind,
    parts: &mut Vec<u32>,
) -> Result<(), AllocError>
    ensures { AddsPart bounds.old bounds.new parts.old parts.new (bounds_of kind a b) result }
{
    match kind {
        Kind::Le => add_at_most(bounds, a, b, parts),
        Kind::Ge => add_at_most(bounds, b, a, parts),
        Kind::Eq => {
            add_at_most(bounds, a, b, parts)?;
            add_at_most(bounds, b, a, parts)
        }
    }
}

// The same of a tree and the first of those behind it, where there is one.
fn add_first(
    builder: &Builder,
    bounds: &mut BoundTable,
    first: u32,
    later: &[u32],
    kind: Kind,
    parts: &mut Vec<u32>,
) -> Result<(), AllocError>
    requires first { first < length builder.now.nodes }
    requires later { AreNodes builder.now later.now }
    ensures { AddsPart bounds.old bounds.new parts.old parts.new
        (bounds_with builder.now kind first later.now) result }
{
    let Some((next, _)) = later.split_first() else {
        return Ok(());
    };
    let a = weigh(builder, first);
    let b = weigh(builder, *next);
    add_bounds(bounds, a, b, kind, parts)
}

/// The bounds of a chain of comparisons, as a list of its own.
pub(crate) fn chain_bounds(
    alloc: Global,
    builder: &Builder,
    bounds: &mut BoundTable,
    nodes: &[u32],
    kind: Kind,
) -> Result<u32, AllocError>
    requires { AreNodes builder.now nodes.now }
    ensures { AddsList bounds.old bounds.new (bounds_along builder.now kind nodes.now) result }
{
    let mut parts = Vec::new(alloc);
    let mut left = nodes;
    while let Some((first, later)) = left.split_first() {
        add_first(builder, bounds, *first, later, kind, &mut parts)?;
        left = later;
    }
    bounds.all(parts)
}
