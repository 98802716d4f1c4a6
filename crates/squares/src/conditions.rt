// What is asked of a block: monomials of Real axes in ascending order, none twice, a row for each, and a factor with numbers for
// coefficients.
ghost use Rattle.std.specs.Prelude.{◌≡◌, map, nat_le};
ghost use Rattle.cover_line.specs.Views.{axes_of, block_of, factor_of, numbers_of};
ghost use Rattle.dyadic.specs.Views.{ext_of};
ghost use Rattle.interval_model.specs.Space.{test_axis};
ghost use Rattle.ival.specs.SpaceViews.{domain_of, space_of};
ghost use Rattle.square_model.specs.Block.{are_monomials, are_real_axes, are_rows, is_among, is_ascending, is_block, is_factor, is_finite, is_monomial, is_real};
ghost use Rattle.squares.specs.Conditions.{is_before, is_new_monomial};

use crate::block::greatest_square;
use cover_line::{Block, Factor};
use dyadic::{Dy, Ext};
use ival::{Domain, Space};

/// A monomial has at most so many axes.
pub const MOST_AXES: usize = 32;

// Whether it is the domain of a Real axis.
fn is_real(domain: Domain) -> bool
    ensures { result ≡ is_real (domain_of domain) }
{
    match domain {
        Domain::Real(_) => true,
        Domain::Bool(_) => false,
    }
}

// Whether the space has this axis, and it is Real.
#[tactic(auto, using(crate::proofs::Testing::tested_domain, crate::proofs::Testing::tested_past))]
fn is_real_axis(space: &Space, axis: u32) -> bool
    ensures { result ≡ test_axis is_real axis (space_of space.now) }
{
    let axis = axis as usize;
    axis < space.len() && is_real(space.get(axis))
}

// Whether all axes are Real.
#[tactic(auto, using(crate::proofs::Testing::real_axes_from))]
fn are_real_axes(space: &Space, monomial: &[u32]) -> bool
    ensures { result ≡ are_real_axes (space_of space.now) monomial.now }
{
    for axis in monomial {
        if !is_real_axis(space, *axis) {
            return false;
        }
    }
    true
}

// Whether the axis is at most the first of these.
#[tactic(auto, using(crate::proofs::Testing::before_none, crate::proofs::Testing::before_some))]
fn is_before(axis: u32, after: &[u32]) -> bool
    ensures { result ≡ is_before axis after.now }
{
    after.is_empty() || axis <= after[0]
}

// Whether no axis comes before one that is less.
#[tactic(auto, using(crate::proofs::Testing::ascending_from))]
fn is_ascending(monomial: &[u32]) -> bool
    ensures { result ≡ is_ascending monomial.now }
{
    for place in 0..monomial.len() {
        let (_, after) = monomial.split_at(place + 1);
        if !is_before(monomial[place], after) {
            return false;
        }
    }
    true
}

// Whether these are at most 32 Real axes in ascending order.
fn is_monomial(space: &Space, monomial: &[u32]) -> bool
    ensures { result ≡ is_monomial (space_of space.now) monomial.now }
{
    monomial.len() <= MOST_AXES && is_ascending(monomial) && are_real_axes(space, monomial)
}

// Whether the monomial is one of these.
#[tactic(auto, using(crate::proofs::Testing::among_from))]
fn is_among(monomial: &[u32], others: &[Vec<u32>]) -> bool
    ensures { result ≡ is_among monomial.now (map axes_of others.now) }
{
    for other in others {
        if monomial.cmp(other.as_slice()).is_eq() {
            return true;
        }
    }
    false
}

// Whether the axes make a monomial that is none of those after it.
fn is_new_monomial(space: &Space, monomial: &[u32], after: &[Vec<u32>]) -> bool
    ensures { result ≡
        is_new_monomial (space_of space.now) monomial.now (map axes_of after.now) }
{
    is_monomial(space, monomial) && !is_among(monomial, after)
}

// Whether each is a monomial, and none stands twice.
#[tactic(auto, using(crate::proofs::Testing::monomials_from))]
fn are_monomials(space: &Space, monomials: &[Vec<u32>]) -> bool
    ensures { result ≡ are_monomials (space_of space.now) (map axes_of monomials.now) }
{
    for place in 0..monomials.len() {
        let (_, after) = monomials.split_at(place + 1);
        if !is_new_monomial(space, &monomials[place], after) {
            return false;
        }
    }
    true
}

// Whether there is a row for each monomial, with a number for it and for each after it.
#[tactic(auto, using(crate::proofs::Testing::rows_uneven, crate::proofs::Testing::rows_done, crate::proofs::Testing::rows_next, crate::proofs::Testing::rows_end))]
fn are_rows(monomials: &[Vec<u32>], rows: &[Vec<Dy>]) -> bool
    ensures { result ≡ are_rows (map axes_of monomials.now) (map numbers_of rows.now) }
{
    let count = monomials.len();
    if rows.len() != count {
        return false;
    }
    for place in 0..count {
        if rows[place].len() != count - place {
            return false;
        }
    }
    true
}

// Whether the end is a number.
fn is_finite(end: Ext) -> bool
    ensures { result ≡ is_finite (ext_of end) }
{
    match end {
        Ext::Fin(_) => true,
        Ext::NegInf | Ext::PosInf => false,
    }
}

// Whether the factor is a polynomial with numbers for coefficients.
fn is_factor(space: &Space, centre: &Space, factor: Factor) -> bool
    ensures { result ≡
        is_factor (space_of space.now) (space_of centre.now) (factor_of factor) }
{
    match factor {
        Factor::One => true,
        Factor::BoundOf(axis) => {
            is_real_axis(space, axis) && is_finite(greatest_square(space, centre, axis))
        }
    }
}

/// Whether the block has a monomial, its monomials are at most 32 Real axes each, in ascending order, none of them stands
/// twice, there is a row for each, with a number for it and for each after it, and its factor has numbers for coefficients.
pub fn is_block(space: &Space, centre: &Space, block: &Block) -> bool
    ensures { result ≡ is_block (space_of space.now) (space_of centre.now) (block_of block.now) }
{
    !block.monomials.is_empty()
        && are_monomials(space, &block.monomials)
        && are_rows(&block.monomials, &block.rows)
        && is_factor(space, centre, block.factor)
}
