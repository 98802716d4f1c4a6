// Ranges of a part: of a linear and a quadratic coefficient.
ghost use Rattle.std.specs.Prelude.{◌≡◌, Some, true};
ghost use Rattle.dyadic.specs.Views.{dyadic_of};
ghost use Rattle.interval_model.specs.Interval.{misses_nought, interval_product};
ghost use Rattle.cover_model.specs.Combination.{only, interval_difference};
ghost use Rattle.ival.specs.Views.{interval_of};
ghost use Rattle.cover_model.specs.CombinationConstants.{one_alone};
ghost use Rattle.combine.specs.Coefficients.{IsNumber, range_by, completed_range};

use dyadic::{Dy, Ext, Sign, pow2, sign_of};
use ival::{Ends, Ival};

/// A number alone.
pub fn only(value: Dy) -> Ival
    ensures { interval_of result ≡ only (dyadic_of value) }
{
    Ival::Between(Ends {
        low: Ext::Fin(value),
        high: Ext::Fin(value),
    })
}

/// The differences of a number of each.
pub fn difference(a: Ival, b: Ival) -> Ival
    ensures { interval_of result ≡ interval_difference (interval_of a) (interval_of b) }
{
    a.add(b.neg())
}

/// Whether it is a number alone.
pub fn is_number(interval: Ival) -> bool
    ensures { result ≡ true → IsNumber (interval_of interval) }
{
    match interval {
        Ival::Empty => false,
        Ival::Between(ends) => match (ends.low, ends.high) {
            (Ext::Fin(low), Ext::Fin(high)) => low == high,
            _ => false,
        },
    }
}

// Whether it is 1 alone.
fn is_one(interval: Ival) -> bool
    ensures { result ≡ true → interval_of interval ≡ one_alone }
{
    let one = pow2(0);
    match interval {
        Ival::Empty => false,
        Ival::Between(ends) => match (ends.low, ends.high) {
            (Ext::Fin(low), Ext::Fin(high)) => low == one && high == one,
            _ => false,
        },
    }
}

/// The product with a coefficient, which is often 1.
pub fn times(coefficient: Ival, other: Ival) -> Ival
    ensures { interval_of result ≡ interval_product (interval_of coefficient) (interval_of other) }
{
    if is_one(coefficient) {
        other
    } else {
        coefficient.mul(other)
    }
}

/// Whether 0 lies outside of the interval; not where it is empty.
pub fn misses_nought(interval: Ival) -> bool
    ensures { result ≡ misses_nought (interval_of interval) }
{
    match interval {
        Ival::Empty => false,
        Ival::Between(ends) => match (sign_of(ends.high), sign_of(ends.low)) {
            (Sign::Below, _) => true,
            (_, Sign::Above) => true,
            _ => false,
        },
    }
}

// The range of both coefficients' part by its completed square, by half the quotient of the coefficients.
fn completed(square: Ival, half: Ival, apart: Ival) -> Ival
    ensures { interval_of result ≡ completed_range square half apart }
{
    square.mul(difference(apart.add(half).sq(), half.sq()))
}

// The range of a part with both coefficients.
fn full_range(linear: Ival, square: Ival, apart: Ival) -> Ival
    ensures { interval_of result ≡ range_by linear (Some square) apart }
{
    let plain = linear.mul(apart).add(square.mul(apart.sq()));
    let double = square.add(square);
    if misses_nought(double) {
        plain.meet(completed(square, linear.inv_mul(double), apart))
    } else {
        plain
    }
}

/// The range of a variable's part, where the variable's difference to the centre lies in `apart`.
pub fn part_range(linear: Ival, square: Option<Ival>, apart: Ival) -> Ival
    ensures { interval_of result ≡ range_by linear square apart }
{
    match square {
        None => linear.mul(apart),
        Some(square) => full_range(linear, square, apart),
    }
}
