// Blocks of squares.
ghost use Rattle.std.specs.Prelude.{◌≡◌, [], map, IfOk, OnOk};
ghost use Rattle.cover_line.specs.Views.{axes_of};
ghost use Rattle.dyadic.specs.Views.{dyadic_of, ext_of};
ghost use Rattle.ival.specs.SpaceViews.{space_of};
ghost use Rattle.square_model.specs.Block.{row_given, greatest_square, bound_polynomial};
ghost use Rattle.square_model.specs.Steps.{counted};
ghost use Rattle.squares.specs.Views.{terms_of, given_unless_nought};
ghost use Rattle.squares.specs.Blocks.{AddsSquares, Multiplies, IsFactored, IsBlock};

use crate::budget::Budget;
use crate::number::{is_other_than_nought, minus_one, only};
use crate::polynomial::Polynomial;
use crate::range::apart;
use cover_line::{Block, Factor};
use dyadic::{Dy, Ext};
use ival::{Ival, Space};
use std::alloc::{AllocError, Global};

// Gives the number to the coefficient of the monomial, but no 0.
fn give_unless_nought(
    alloc: Global,
    monomial: &[u32],
    number: Dy,
    polynomial: &mut Polynomial,
) -> Result<(), AllocError>
    ensures { OnOk result (terms_of polynomial.new ≡
        given_unless_nought monomial.now (dyadic_of number) (terms_of polynomial.old)) }
{
    if !is_other_than_nought(number) {
        return Ok(());
    }
    let axes = Vec::from_slice(alloc, monomial)?;
    polynomial.give(axes, only(number))?;
    Ok(())
}

// The root of a square: the sum of these monomials, each times its number.
fn root(alloc: Global, monomials: &[Vec<u32>], numbers: &[Dy]) -> Result<Polynomial, AllocError>
    ensures { IfOk result (λ p. terms_of p ≡
        row_given (map axes_of monomials.now) (map dyadic_of numbers.now) []) }
{
    let mut root = Polynomial::new(alloc);
    let count = monomials.len().min(numbers.len());
    for place in 0..count {
        give_unless_nought(alloc, &monomials[place], numbers[place], &mut root)?;
    }
    Ok(root)
}

// The sum of the squares of a block, or none where too few steps are left.
fn squares(
    alloc: Global,
    block: &Block,
    budget: &mut Budget,
) -> Result<Option<Polynomial>, AllocError>
    ensures { IfOk result (AddsSquares block.now budget.old budget.new) }
{
    let mut sum = Polynomial::new(alloc);
    let count = block.monomials.len().min(block.rows.len());
    for place in 0..count {
        let root = root(alloc, &block.monomials[place..], &block.rows[place])?;
        if !budget.take_product(root.len(), root.len()) {
            return Ok(None);
        }
        let square = Polynomial::product(alloc, &root, &root)?;
        if !budget.take_sum(sum.len(), square.len()) {
            return Ok(None);
        }
        sum.add(alloc, &square)?;
    }
    Ok(Some(sum))
}

/// The product of two polynomials, or none where too few steps are left.
pub fn times(
    alloc: Global,
    first: &Polynomial,
    second: &Polynomial,
    budget: &mut Budget,
) -> Result<Option<Polynomial>, AllocError>
    ensures { IfOk result (Multiplies first.now second.now budget.old budget.new) }
{
    if !budget.take_product(first.len(), second.len()) {
        return Ok(None);
    }
    let product = Polynomial::product(alloc, first, second)?;
    Ok(Some(product))
}

/// The greatest square of the difference of an axis to the centre.
pub fn greatest_square(space: &Space, centre: &Space, axis: u32) -> Ext
    ensures { ext_of result ≡ greatest_square (space_of space.now) (space_of centre.now) axis }
{
    match apart(space, centre, axis).sq() {
        Ival::Empty => Ext::PosInf,
        Ival::Between(ends) => ends.high,
    }
}

// h - d^2, where h is a number.
fn bound_polynomial(alloc: Global, axis: u32, bound: Ext) -> Result<Polynomial, AllocError>
    ensures { IfOk result (λ p. terms_of p ≡ bound_polynomial axis (ext_of bound)) }
{
    let mut polynomial = Polynomial::new(alloc);
    if let Ext::Fin(bound) = bound {
        let square = Vec::from_array(alloc, [axis, axis])?;
        polynomial.give(Vec::new(alloc), only(bound))?;
        polynomial.give(square, minus_one())?;
        return Ok(polynomial);
    }
    Ok(polynomial)
}

// The squares times the factor, or none where too few steps are left.
fn factored(
    alloc: Global,
    space: &Space,
    centre: &Space,
    factor: Factor,
    squares: Polynomial,
    budget: &mut Budget,
) -> Result<Option<Polynomial>, AllocError>
    ensures { IfOk result
        (IsFactored space.now centre.now factor (counted (terms_of squares)) budget.old budget.new) }
{
    match factor {
        Factor::One => Ok(Some(squares)),
        Factor::BoundOf(axis) => {
            let bound = bound_polynomial(alloc, axis, greatest_square(space, centre, axis))?;
            times(alloc, &bound, &squares, budget)
        }
    }
}

/// The polynomial of a block, or none where too few steps are left.
pub fn block_polynomial(
    alloc: Global,
    space: &Space,
    centre: &Space,
    block: &Block,
    budget: &mut Budget,
) -> Result<Option<Polynomial>, AllocError>
    ensures { IfOk result
        (IsBlock space.now centre.now block.now budget.old budget.new) }
{
    match squares(alloc, block, budget)? {
        None => Ok(None),
        Some(sum) => factored(alloc, space, centre, block.factor, sum, budget),
    }
}
