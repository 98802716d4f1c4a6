// The forms of comparisons of several trees, and of several Bool expressions that are equal or differ.
ghost use Rattle.std.specs.Prelude.{◌≡◌};
ghost use Rattle.term_build.specs.Calls.{drawn};
ghost use Rattle.term_build.specs.Pairs.{ConnectsTwo};
ghost use Rattle.value_build.specs.Calls.{ComparesSpread, ComparesWith, ConnectsSpread, ConnectsWith};
ghost use Rattle.value_build.specs.Chains.{others_of, two_of};

use poly_graph::Kind;
use script_fault::Place;
use std::alloc::{AllocError, Global};
use term_build::{Pair, SketchNode};

/// Which two of several arguments belong together: each with the next, or each with every later one.
#[derive(Clone, Copy, Debug, PartialEq, Eq)]
pub(crate) enum Spread {
    Next,
    Later,
}

/// Those of the later arguments that belong with an earlier one.
pub(crate) fn others_of<T: Copy>(spread: Spread, later: &[T]) -> &[T]
    ensures { result.now ≡ others_of spread later.now }
{
    match spread {
        Spread::Next => &later[..later.len().min(1)],
        Spread::Later => later,
    }
}

// The comparisons of one tree with each of others, after those that were made.
fn compare_with(
    sketch: &mut Vec<SketchNode>,
    at: Place,
    first: u32,
    others: &[u32],
    kind: Kind,
    made: &mut Vec<Pair>,
) -> Result<(), AllocError>
    ensures { ComparesWith kind at sketch.old sketch.new first others.now made.old made.new result }
{
    let mut left = others;
    while let Some((other, later)) = left.split_first() {
        let pair = Pair::compare_two(sketch, at, first, *other, kind)?;
        made.push(pair)?;
        left = later;
    }
    Ok(())
}

/// The comparisons of each two trees that belong together.
pub(crate) fn compare_each(
    alloc: Global,
    sketch: &mut Vec<SketchNode>,
    at: Place,
    nodes: &[u32],
    kind: Kind,
    spread: Spread,
) -> Result<Vec<Pair>, AllocError>
    ensures { ComparesSpread spread kind at sketch.old sketch.new nodes.now result }
{
    let mut made = Vec::new(alloc);
    let mut left = nodes;
    while let Some((first, later)) = left.split_first() {
        compare_with(
            sketch,
            at,
            *first,
            others_of(spread, later),
            kind,
            &mut made,
        )?;
        left = later;
    }
    Ok(made)
}

// What two Bool expressions that belong together make: that they are equal, or that they differ.
fn connect_two(
    alloc: Global,
    sketch: &mut Vec<SketchNode>,
    spread: Spread,
    first: Pair,
    second: Pair,
) -> Result<Pair, AllocError>
    ensures { ConnectsTwo (two_of spread) (drawn sketch.old) (drawn sketch.new)
        first second result }
{
    match spread {
        Spread::Next => Pair::same_two(alloc, sketch, first, second),
        Spread::Later => Pair::exclusive_two(alloc, sketch, first, second),
    }
}

/// What one Bool expression makes with each of others, after those that were made.
pub(crate) fn connect_with(
    alloc: Global,
    sketch: &mut Vec<SketchNode>,
    spread: Spread,
    first: Pair,
    others: &[Pair],
    made: &mut Vec<Pair>,
) -> Result<(), AllocError>
    ensures { ConnectsWith spread sketch.old sketch.new first others.now made.old made.new result }
{
    let mut left = others;
    while let Some((other, later)) = left.split_first() {
        let pair = connect_two(alloc, sketch, spread, first, *other)?;
        made.push(pair)?;
        left = later;
    }
    Ok(())
}

/// What each two Bool expressions that belong together make: that each is equal to the next, or differs from every
/// later one.
pub(crate) fn connect_each(
    alloc: Global,
    sketch: &mut Vec<SketchNode>,
    spread: Spread,
    pairs: &[Pair],
) -> Result<Vec<Pair>, AllocError>
    ensures { ConnectsSpread spread sketch.old sketch.new pairs.now result }
{
    let mut made = Vec::new(alloc);
    let mut left = pairs;
    while let Some((first, later)) = left.split_first() {
        connect_with(
            alloc,
            sketch,
            spread,
            *first,
            others_of(spread, later),
            &mut made,
        )?;
        left = later;
    }
    Ok(made)
}
