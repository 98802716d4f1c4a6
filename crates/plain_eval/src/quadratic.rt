// The range of a multiple of a number and one of its square, and what it leaves to the number.
ghost use Rattle.std.specs.Prelude.{◌≡◌, Some, true};
ghost use Rattle.dyadic.specs.Views.{dyadic_of};
ghost use Rattle.interval_model.specs.Interval.{misses_nought, interval_product};
ghost use Rattle.cover_model.specs.Combination.{only, interval_difference, half_quotient, completed, root_left, completed_left, both_range, both_left};
ghost use Rattle.cover_model.specs.CombinationConstants.{one_alone};
ghost use Rattle.ival.specs.Views.{interval_of};
ghost use Rattle.plain_eval.specs.Calls.{both_left_of, both_range_of, completed_left_of, completed_of, sum_left_of, sum_range_of};
ghost use Rattle.plain_eval.specs.Rest.{IsSingle};

use dyadic::{Dy, Ext, Sign, pow2, sign_of};
use ival::{Ends, Ival};

/// The number alone.
pub fn only(number: Dy) -> Ival
    ensures { interval_of result ≡ only (dyadic_of number) }
{
    let end = Ext::Fin(number);
    Ival::Between(Ends {
        low: end,
        high: end,
    })
}

/// Whether it is one number.
pub fn is_single(interval: Ival) -> bool
    ensures { result ≡ true → IsSingle (interval_of interval) }
{
    let Ival::Between(ends) = interval else {
        return false;
    };
    match (ends.low, ends.high) {
        (Ext::Fin(low), Ext::Fin(high)) => low == high,
        _ => false,
    }
}

// Whether it is the number 1.
fn is_one(interval: Ival) -> bool
    ensures { result ≡ true → interval_of interval ≡ one_alone }
{
    let Ival::Between(ends) = interval else {
        return false;
    };
    let one = pow2(0);
    match (ends.low, ends.high) {
        (Ext::Fin(low), Ext::Fin(high)) => low == one && high == one,
        _ => false,
    }
}

/// The coefficient's multiple; that by 1 is the interval itself.
pub fn multiple(coefficient: Ival, interval: Ival) -> Ival
    ensures { interval_of result ≡
        interval_product (interval_of coefficient) (interval_of interval) }
{
    if is_one(coefficient) {
        return interval;
    }
    coefficient.mul(interval)
}

/// The numbers of the first less those of the second.
pub fn less(first: Ival, second: Ival) -> Ival
    ensures { interval_of result ≡ interval_difference (interval_of first) (interval_of second) }
{
    first.add(second.neg())
}

// Whether 0 lies outside.
fn misses_nought(interval: Ival) -> bool
    ensures { result ≡ misses_nought (interval_of interval) }
{
    match interval {
        Ival::Between(ends) => match (sign_of(ends.high), sign_of(ends.low)) {
            (Sign::Below, _) => true,
            (_, Sign::Above) => true,
            _ => false,
        },
        Ival::Empty => false,
    }
}

// By how much the number is moved where the square is completed.
fn half_quotient(linear: Ival, square: Ival) -> Ival
    ensures { interval_of result ≡ half_quotient (interval_of linear) (interval_of square) }
{
    linear.inv_mul(square.add(square))
}

// The range of both multiples, by the completed square.
fn completed(linear: Ival, square: Ival, number: Ival) -> Ival
    ensures { interval_of result ≡ completed_of linear square number }
{
    let half = half_quotient(linear, square);
    let moved = number.add(half).sq();
    square.mul(less(moved, half.sq()))
}

// What a square that lies in `square` leaves to its number, which lies in `own`.
fn root_left(own: Ival, square: Ival) -> Ival
    ensures { interval_of result ≡ root_left (interval_of own) (interval_of square) }
{
    let possible = square.meet(own.sq());
    possible.inv_sq(own)
}

// What both multiples, whose sum lies in `share`, leave to the number by the completed square.
fn completed_left(share: Ival, linear: Ival, square: Ival, number: Ival) -> Ival
    ensures { interval_of result ≡ completed_left_of share linear square number }
{
    let half = half_quotient(linear, square);
    let moved = share.inv_mul(square).add(half.sq());
    less(root_left(number.add(half), moved), half)
}

// The range of both multiples.
fn both_range(linear: Ival, square: Ival, number: Ival) -> Ival
    ensures { interval_of result ≡ both_range_of linear square number }
{
    let sum = linear.mul(number).add(square.mul(number.sq()));
    if misses_nought(square.add(square)) {
        return sum.meet(completed(linear, square, number));
    }
    sum
}

// What both multiples, whose sum lies in `share`, leave to the number.
fn both_left(share: Ival, linear: Ival, square: Ival, number: Ival) -> Ival
    ensures { interval_of result ≡ both_left_of share linear square number }
{
    let left = less(share, square.mul(number.sq())).inv_mul(linear);
    if misses_nought(square.add(square)) {
        return left.meet(completed_left(share, linear, square, number));
    }
    left
}

/// The range of a multiple of the number and, if there is one, of a multiple of its square.
pub fn range(linear: Ival, square: Option<Ival>, number: Ival) -> Ival
    ensures { interval_of result ≡ sum_range_of linear square number }
{
    match square {
        Some(square) => both_range(linear, square, number),
        None => linear.mul(number),
    }
}

/// What such a sum, which lies in `share`, leaves to the number.
pub fn left(share: Ival, linear: Ival, square: Option<Ival>, number: Ival) -> Ival
    ensures { interval_of result ≡ sum_left_of share linear square number }
{
    match square {
        Some(square) => both_left(share, linear, square, number),
        None => share.inv_mul(linear),
    }
}
