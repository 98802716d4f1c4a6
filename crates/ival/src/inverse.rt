// What a product and a square leave to an operand.
ghost use Rattle.std.specs.Prelude.{◌≡◌, IsTrue, false};
ghost use Rattle.dyadic.specs.Rounding.{end_of, below_all, above_all};
ghost use Rattle.interval_model.specs.Interval.{between, of_four, misses_nought, nought_inside, up_from, up_to, inverse_product, inverse_square, is_above};
ghost use Rattle.dyadic.specs.End.{end_quotient, rounded_down, rounded_up, end_sign};
ghost use Rattle.dyadic.specs.Calls.{IsDivisor};
ghost use Rattle.dyadic.specs.Views.{ext_of};
ghost use Rattle.ival.specs.Views.{interval_of, ends_of};
ghost use Rattle.ival.specs.Sides.{LiesOn, MissesOn, IsFinite};
ghost use Rattle.ival.specs.Corners.{least_quotient, greatest_quotient};

use crate::ends::{Ends, Ival};
use crate::factors::{first_of_greatest, first_of_least, second_of_greatest, second_of_least};
use crate::side::{Side, is_above, is_below, side_of};
use dyadic::{Ext, Sign, div_down, div_up, sign_of};

// Whether 0 lies outside.
fn misses_nought(ends: Ends) -> bool
    ensures { result ≡ misses_nought (ends_of ends) }
{
    is_below(ends.high) || is_above(ends.low)
}

// The side on which a divisor without 0 lies.
fn divisor_side(divisor: Ends) -> Side
    requires { IsTrue (misses_nought (ends_of divisor)) }
    ensures { MissesOn result (ext_of divisor.low) (ext_of divisor.high) }
{
    if is_above(divisor.low) {
        Side::Above
    } else {
        Side::Below
    }
}

// The least quotient, rounded down.
fn least_quotient(a: Ends, first: Side, divisor: Ends, second: Side) -> Ext
    requires first { LiesOn first (end_of (ext_of a.low)) (end_of (ext_of a.high)) }
    requires second { MissesOn second (ext_of divisor.low) (ext_of divisor.high) }
    ensures { ext_of result ≡
        least_quotient (ext_of a.low) (ext_of a.high) (ext_of divisor.low) (ext_of divisor.high) }
{
    div_down(
        first_of_least(first, second, a.low, a.high),
        second_of_least(first, second, divisor.high, divisor.low),
    )
}

// The greatest quotient, rounded up.
fn greatest_quotient(a: Ends, first: Side, divisor: Ends, second: Side) -> Ext
    requires first { LiesOn first (end_of (ext_of a.low)) (end_of (ext_of a.high)) }
    requires second { MissesOn second (ext_of divisor.low) (ext_of divisor.high) }
    ensures { ext_of result ≡
        greatest_quotient (ext_of a.low) (ext_of a.high)
        (ext_of divisor.low) (ext_of divisor.high) }
{
    div_up(
        first_of_greatest(first, second, a.low, a.high),
        second_of_greatest(first, second, divisor.high, divisor.low),
    )
}

// The quotients by an interval without 0.
fn quotient_of_ends(a: Ends, divisor: Ends) -> Ends
    requires { IsTrue (misses_nought (ends_of divisor)) }
    ensures { ends_of result ≡ of_four end_quotient (ends_of a) (ends_of divisor) }
{
    let first = side_of(a);
    let second = divisor_side(divisor);
    Ends {
        low: least_quotient(a, first, divisor, second),
        high: greatest_quotient(a, first, divisor, second),
    }
}

// From a quotient up.
fn from_quotient(end: Ext, divisor: Ext) -> Ival
    requires number { IsFinite (ext_of end) }
    requires divisor { IsDivisor (ext_of divisor) }
    ensures { interval_of result ≡ up_from (end_of (ext_of end)) (end_of (ext_of divisor)) }
{
    Ival::Between(Ends {
        low: div_down(end, divisor),
        high: Ext::PosInf,
    })
}

// Up to a quotient.
fn to_quotient(end: Ext, divisor: Ext) -> Ival
    requires number { IsFinite (ext_of end) }
    requires divisor { IsDivisor (ext_of divisor) }
    ensures { interval_of result ≡ up_to (end_of (ext_of end)) (end_of (ext_of divisor)) }
{
    Ival::Between(Ends {
        low: Ext::NegInf,
        high: div_up(end, divisor),
    })
}

// What a product without 0 leaves to an operand, where the other one holds 0.
fn beside_nought(product: Ends, other: Ends) -> Ival
    requires { IsTrue (misses_nought (ends_of product)) }
    ensures { interval_of result ≡
        nought_inside (ends_of product) (ext_of other.low) (ext_of other.high) }
{
    let is_high = is_above(product.low);
    match (sign_of(other.low), sign_of(other.high)) {
        (Sign::Nought, Sign::Nought) => Ival::Empty,
        (Sign::Nought, Sign::Above) => {
            if is_high {
                from_quotient(product.low, other.high)
            } else {
                to_quotient(product.high, other.high)
            }
        }
        (Sign::Below, Sign::Nought) => {
            if is_high {
                to_quotient(product.low, other.low)
            } else {
                from_quotient(product.high, other.low)
            }
        }
        (Sign::Nought, Sign::Below) => Ival::everything(),
        (Sign::Below, Sign::Below) => Ival::everything(),
        (Sign::Below, Sign::Above) => Ival::everything(),
        (Sign::Above, _) => Ival::everything(),
    }
}

impl Ival {
    /// What a product that lies in this interval leaves to an operand, where the other one lies in `other`.
    pub fn inv_mul(self, other: Ival) -> Ival
        ensures { interval_of result ≡ inverse_product (interval_of self) (interval_of other) }
    {
        match (self, other) {
            (Ival::Empty, _) => Ival::Empty,
            (Ival::Between(_), Ival::Empty) => Ival::Empty,
            (Ival::Between(a), Ival::Between(b)) => {
                if misses_nought(b) {
                    Ival::Between(quotient_of_ends(a, b))
                } else if misses_nought(a) {
                    beside_nought(a, b)
                } else {
                    Ival::everything()
                }
            }
        }
    }
}
