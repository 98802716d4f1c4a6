// Whether a line of squares is positive.
ghost use Rattle.std.specs.Prelude.{◌≡◌, IfOk};
ghost use Rattle.ival.specs.Views.{interval_of};
ghost use Rattle.square_model.specs.Positive.{is_above};
ghost use Rattle.squares.specs.Pairs.{HasRanges, NamesAtoms};
ghost use Rattle.squares.specs.Rest.{is_above_allowed, TellsPositive};
ghost use Rattle.squares.specs.Views.{terms_of};

use crate::budget::Budget;
use crate::combination::Combination;
use crate::count::are_few;
use crate::pairs::sum_of_ranges;
use crate::polynomial::Polynomial;
use crate::range::polynomial_range;
use crate::rest::rest_polynomial;
use cover_line::Block;
use dyadic::at_most;
use ival::{Ival, Space};
use std::alloc::{AllocError, Global};

// Whether the lower end of the first is above the upper end of the second.
fn is_above(first: Ival, second: Ival) -> bool
    ensures { result ≡ is_above (interval_of first) (interval_of second) }
{
    match (first, second) {
        (Ival::Between(first), Ival::Between(second)) => !at_most(first.low, second.high),
        _ => false,
    }
}

// Whether the steps of its range are left, and the range is above what the atoms' ranges allow.
fn is_above_allowed(
    combination: &Combination<'_>,
    rest: &Polynomial,
    space: &Space,
    centre: &Space,
    budget: &mut Budget,
) -> bool
    requires { HasRanges combination.now }
    ensures { result ≡
        is_above_allowed combination.now (terms_of rest.now) space.now centre.now budget.old }
{
    if !budget.take_range(rest.len()) {
        return false;
    }
    let allowed = sum_of_ranges(combination.multipliers, combination.ranges);
    is_above(polynomial_range(space, centre, rest), allowed)
}

/// Whether the combination less its blocks, expanded at the centre, is above all that its atoms' ranges allow, so that no point
/// of the space has each atom's value in its range. The centre is a point of the space's axes.
///
/// It is not where the line has more than 8,000 numbers; where a block is none (a monomial of more than 32 axes, of an axis that
/// is not Real, that does not ascend or stands twice, no monomial at all, rows that are not one for each monomial with a number
/// for it and for each after it, a bound that is infinite); where a product has a monomial of more than 32 axes; and where it
/// takes more than 1,048,576 steps.
pub fn is_positive(
    alloc: Global,
    combination: &Combination<'_>,
    blocks: &[Block],
    space: &Space,
    centre: &Space,
) -> Result<bool, AllocError>
    requires atoms { NamesAtoms combination.now }
    requires ranges { HasRanges combination.now }
    ensures { IfOk result (TellsPositive combination.now blocks.now space.now centre.now) }
{
    if !are_few(combination.multipliers, blocks) {
        return Ok(false);
    }
    let mut budget = Budget::new();
    match rest_polynomial(alloc, combination, blocks, space, centre, &mut budget)? {
        None => Ok(false),
        Some(rest) => Ok(is_above_allowed(combination, &rest, space, centre, &mut budget)),
    }
}
