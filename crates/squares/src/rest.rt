// A combination less its blocks.
ghost use Rattle.std.specs.Prelude.{◌≡◌, ◌<◌, length, map, slice_index_or, IfOk};
ghost use Rattle.cover_line.specs.Views.{block_of};
ghost use Rattle.ival.specs.SpaceViews.{space_of};
ghost use Rattle.square_model.specs.Steps.{counted, counted_negated, counted_sum};
ghost use Rattle.squares.specs.Pairs.{NamesAtoms};
ghost use Rattle.squares.specs.Rest.{IsRest, IsSpread};
ghost use Rattle.squares.specs.Sums.{AreLess, AreTaken, IsAdded, IsShortTaken, IsTaken};
ghost use Rattle.squares.specs.Views.{terms_of};

use crate::block::block_polynomial;
use crate::budget::Budget;
use crate::combination::Combination;
use crate::conditions::is_block;
use crate::expand::expand_nodes;
use crate::marks::expanded_nodes;
use crate::polynomial::Polynomial;
use crate::sum::combined_polynomial;
use cover_line::Block;
use ival::Space;
use std::alloc::{AllocError, Global};

// Takes a polynomial away, and tells whether enough steps were left.
fn subtract_within(
    alloc: Global,
    less: &Polynomial,
    rest: &mut Polynomial,
    budget: &mut Budget,
) -> Result<bool, AllocError>
    ensures { IfOk result (IsAdded
        (counted_sum (counted (terms_of rest.old)) (counted_negated (counted (terms_of less.now))))
        budget.old budget.new rest.new) }
{
    if !budget.take_sum(rest.len(), less.len()) {
        return Ok(false);
    }
    rest.subtract(alloc, less)?;
    Ok(true)
}

// Takes a polynomial away, and tells whether none of its monomials has more than 32 axes and enough steps were left.
fn subtract_short(
    alloc: Global,
    less: &Polynomial,
    rest: &mut Polynomial,
    budget: &mut Budget,
) -> Result<bool, AllocError>
    ensures { IfOk result
        (IsShortTaken (terms_of less.now) (terms_of rest.old) budget.old budget.new rest.new) }
{
    if !less.is_short() {
        return Ok(false);
    }
    subtract_within(alloc, less, rest, budget)
}

// Takes a block away, and tells whether it is one within the limits.
fn subtract_block(
    alloc: Global,
    space: &Space,
    centre: &Space,
    block: &Block,
    rest: &mut Polynomial,
    budget: &mut Budget,
) -> Result<bool, AllocError>
    ensures { IfOk result
        (IsTaken (space_of space.now) (space_of centre.now) (block_of block.now)
        (terms_of rest.old) budget.old budget.new rest.new) }
{
    if !is_block(space, centre, block) {
        return Ok(false);
    }
    match block_polynomial(alloc, space, centre, block, budget)? {
        None => Ok(false),
        Some(squares) => subtract_short(alloc, &squares, rest, budget),
    }
}

// The block in this place.
fn block_at<'a>(blocks: &'a [Block], place: usize) -> &'a Block
    requires { place < length blocks.now }
    ensures { result.now ≡ slice_index_or blocks.now place result.now }
{
    &blocks[place]
}

// Takes the blocks away, and tells whether they are blocks within the limits.
fn subtract_blocks(
    alloc: Global,
    space: &Space,
    centre: &Space,
    blocks: &[Block],
    rest: &mut Polynomial,
    budget: &mut Budget,
) -> Result<bool, AllocError>
    ensures { IfOk result
        (AreTaken (space_of space.now) (space_of centre.now) (map block_of blocks.now)
        (terms_of rest.old) budget.old budget.new rest.new) }
{
    for place in 0..blocks.len() {
        let block = block_at(blocks, place);
        if !subtract_block(alloc, space, centre, block, rest, budget)? {
            return Ok(false);
        }
    }
    Ok(true)
}

// The polynomial of the combination, expanded at the centre; none where too few steps are left, or where a node of its terms
// has a monomial of more than 32 axes.
fn spread(
    alloc: Global,
    combination: &Combination<'_>,
    centre: &Space,
    budget: &mut Budget,
) -> Result<Option<Polynomial>, AllocError>
    requires { NamesAtoms combination.now }
    ensures { IfOk result (IsSpread combination.now centre.now budget.old budget.new) }
{
    let marks = expanded_nodes(alloc, combination)?;
    let graph = combination.problem.graph();
    match expand_nodes(alloc, graph, centre, &marks, budget)? {
        None => Ok(None),
        Some(polynomials) => combined_polynomial(alloc, combination, &polynomials, budget),
    }
}

// The polynomial less those of the blocks; none where they are no blocks within the limits.
fn less_blocks(
    alloc: Global,
    space: &Space,
    centre: &Space,
    blocks: &[Block],
    all: Polynomial,
    budget: &mut Budget,
) -> Result<Option<Polynomial>, AllocError>
    ensures { IfOk result
        (AreLess (space_of space.now) (space_of centre.now) (map block_of blocks.now)
        (terms_of all) budget.old budget.new) }
{
    let mut rest = all;
    if !subtract_blocks(alloc, space, centre, blocks, &mut rest, budget)? {
        return Ok(None);
    }
    Ok(Some(rest))
}

/// The polynomial of the combination less those of the blocks, expanded at the centre; none where a block is not one, a
/// monomial has more than 32 axes, or too few steps are left.
pub fn rest_polynomial(
    alloc: Global,
    combination: &Combination<'_>,
    blocks: &[Block],
    space: &Space,
    centre: &Space,
    budget: &mut Budget,
) -> Result<Option<Polynomial>, AllocError>
    requires { NamesAtoms combination.now }
    ensures { IfOk result
        (IsRest combination.now blocks.now space.now centre.now budget.old budget.new) }
{
    match spread(alloc, combination, centre, budget)? {
        None => Ok(None),
        Some(all) => less_blocks(alloc, space, centre, blocks, all, budget),
    }
}
