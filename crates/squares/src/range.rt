// The range of a polynomial over a space.
ghost use Rattle.std.specs.Prelude.{◌≡◌, [], ◌∷◌};
ghost use Rattle.ival.specs.Views.{interval_of};
ghost use Rattle.ival.specs.SpaceViews.{space_of};
ghost use Rattle.square_model.specs.Polynomial.{Monomial};
ghost use Rattle.square_model.specs.Range.{apart_range, monomial_range, polynomial_range};
ghost use Rattle.squares.specs.Views.{apart_over, range_before, terms_of};

use crate::number::{nought, one};
use crate::polynomial::Polynomial;
use ival::{Ival, Space};

/// By how much the axis may differ from the centre.
pub fn apart(space: &Space, centre: &Space, axis: u32) -> Ival
    ensures { interval_of result ≡ apart_range (space_of space.now) (space_of centre.now) axis }
{
    space.interval(axis).add(centre.interval(axis).neg())
}

// The range of the factors so far, and the axis that waits for its like.
#[derive(Clone, Copy)]
struct Factors {
    range: Ival,
    waiting: Option<u32>,
}

// One axis more.
fn with_axis(space: &Space, centre: &Space, factors: Factors, axis: u32) -> Factors
    ensures { (m : Monomial) → range_before (apart_over space.now centre.now) result m ≡
        range_before (apart_over space.now centre.now) factors (axis ∷ m) }
{
    let Some(other) = factors.waiting else {
        return Factors {
            range: factors.range,
            waiting: Some(axis),
        };
    };
    let own = apart(space, centre, other);
    if other == axis {
        return Factors {
            range: factors.range.mul(own.sq()),
            waiting: None,
        };
    }
    Factors {
        range: factors.range.mul(own),
        waiting: Some(axis),
    }
}

// The range with the axis that waits.
fn whole(space: &Space, centre: &Space, factors: Factors) -> Ival
    ensures { interval_of result ≡ range_before (apart_over space.now centre.now) factors [] }
{
    match factors.waiting {
        None => factors.range,
        Some(axis) => factors.range.mul(apart(space, centre, axis)),
    }
}

// The range of a monomial.
fn monomial_range(space: &Space, centre: &Space, monomial: &[u32]) -> Ival
    ensures { interval_of result ≡ monomial_range (apart_over space.now centre.now) monomial.now }
{
    let mut factors = Factors {
        range: one(),
        waiting: None,
    };
    let mut place = 0;
    while place < monomial.len() {
        factors = with_axis(space, centre, factors, monomial[place]);
        place += 1;
    }
    whole(space, centre, factors)
}

/// The range of a polynomial.
pub fn polynomial_range(space: &Space, centre: &Space, polynomial: &Polynomial) -> Ival
    ensures { interval_of result ≡
        polynomial_range (apart_over space.now centre.now) (terms_of polynomial.now) }
{
    let mut range = nought();
    for (monomial, coefficient) in &polynomial.terms {
        range = range.add(coefficient.mul(monomial_range(space, centre, monomial)));
    }
    range
}
