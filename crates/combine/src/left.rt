// What the others leave to a part.
ghost use Rattle.std.specs.Prelude.{◌≡◌, Some};
ghost use Rattle.cover_model.specs.Combination.{root_left};
ghost use Rattle.ival.specs.Views.{interval_of};
ghost use Rattle.combine.specs.Coefficients.{left_by, left_by_completed};

use crate::ranges::{difference, misses_nought};
use ival::Ival;

// What a square that lies in `square` leaves to its operand, which lies in `own`.
fn root_left(own: Ival, square: Ival) -> Ival
    ensures { interval_of result ≡ root_left (interval_of own) (interval_of square) }
{
    square.meet(own.sq()).inv_sq(own)
}

// What a part with both coefficients, which lies in `share`, leaves to the difference, by its
// completed square, by half the quotient of the coefficients.
fn completed_left(share: Ival, square: Ival, half: Ival, apart: Ival) -> Ival
    ensures { interval_of result ≡ left_by_completed share square half apart }
{
    let moved = share.inv_mul(square).add(half.sq());
    difference(root_left(apart.add(half), moved), half)
}

// What a part with both coefficients, which lies in `share`, leaves to the difference.
fn full_left(share: Ival, linear: Ival, square: Ival, apart: Ival) -> Ival
    ensures { interval_of result ≡ left_by share linear (Some square) apart }
{
    let plain = difference(share, square.mul(apart.sq())).inv_mul(linear);
    let double = square.add(square);
    if misses_nought(double) {
        plain.meet(completed_left(share, square, linear.inv_mul(double), apart))
    } else {
        plain
    }
}

/// What a variable's part, which lies in `share`, leaves to its difference to the centre.
pub fn part_left(share: Ival, linear: Ival, square: Option<Ival>, apart: Ival) -> Ival
    ensures { interval_of result ≡ left_by share linear square apart }
{
    match square {
        None => share.inv_mul(linear),
        Some(square) => full_left(share, linear, square, apart),
    }
}
