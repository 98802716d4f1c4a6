// Products and squares, by the sides of 0 on which the factors lie.
ghost use Rattle.std.specs.Prelude.{◌≡◌, IsTrue};
ghost use Rattle.dyadic.specs.Rounding.{end_of};
ghost use Rattle.interval_model.specs.Interval.{between, interval_product, interval_square};
ghost use Rattle.dyadic.specs.End.{rounded_down, rounded_up};
ghost use Rattle.dyadic.specs.Views.{ext_of};
ghost use Rattle.ival.specs.Views.{interval_of, ends_of};
ghost use Rattle.ival.specs.Sides.{LiesOn};
ghost use Rattle.ival.specs.Corners.{least_product, greatest_product, square_from, square_to};

use crate::ends::{Ends, Ival};
use crate::factors::{first_of_greatest, first_of_least, second_of_greatest, second_of_least};
use crate::interval::{greater, lesser};
use crate::side::{Side, side_of};
use dyadic::{Dy, Ext, mul_down, mul_up};

// The least product, rounded down, for intervals on these sides.
fn least_product(a: Ends, first: Side, b: Ends, second: Side) -> Ext
    requires first { LiesOn first (end_of (ext_of a.low)) (end_of (ext_of a.high)) }
    requires second { LiesOn second (end_of (ext_of b.low)) (end_of (ext_of b.high)) }
    ensures { ext_of result ≡
        least_product (ext_of a.low) (ext_of a.high)
        (ext_of b.low) (ext_of b.high) }
{
    let product = mul_down(
        first_of_least(first, second, a.low, a.high),
        second_of_least(first, second, b.low, b.high),
    );
    match (first, second) {
        (Side::Across, Side::Across) => lesser(product, mul_down(a.high, b.low)),
        _ => product,
    }
}

// The greatest product, rounded up, for intervals on these sides.
fn greatest_product(a: Ends, first: Side, b: Ends, second: Side) -> Ext
    requires first { LiesOn first (end_of (ext_of a.low)) (end_of (ext_of a.high)) }
    requires second { LiesOn second (end_of (ext_of b.low)) (end_of (ext_of b.high)) }
    ensures { ext_of result ≡
        greatest_product (ext_of a.low) (ext_of a.high)
        (ext_of b.low) (ext_of b.high) }
{
    let product = mul_up(
        first_of_greatest(first, second, a.low, a.high),
        second_of_greatest(first, second, b.low, b.high),
    );
    match (first, second) {
        (Side::Across, Side::Across) => greater(product, mul_up(a.high, b.high)),
        _ => product,
    }
}

// The products of two intervals that are not empty.
fn product_of_ends(a: Ends, b: Ends) -> Ends
    ensures { ends_of result ≡ interval_product (ends_of a) (ends_of b) }
{
    let first = side_of(a);
    let second = side_of(b);
    Ends {
        low: least_product(a, first, b, second),
        high: greatest_product(a, first, b, second),
    }
}

// The least square, rounded down.
fn least_square(a: Ends, side: Side) -> Ext
    requires { LiesOn side (end_of (ext_of a.low)) (end_of (ext_of a.high)) }
    ensures { ext_of result ≡ square_from (ext_of a.low) (ext_of a.high) }
{
    match side {
        Side::Above => mul_down(a.low, a.low),
        Side::Below => mul_down(a.high, a.high),
        Side::Across => Ext::Fin(Dy::ZERO),
    }
}

// The greatest square, rounded up.
fn greatest_square(a: Ends, side: Side) -> Ext
    requires { LiesOn side (end_of (ext_of a.low)) (end_of (ext_of a.high)) }
    ensures { ext_of result ≡ square_to (ext_of a.low) (ext_of a.high) }
{
    match side {
        Side::Above => mul_up(a.high, a.high),
        Side::Below => mul_up(a.low, a.low),
        Side::Across => greater(mul_up(a.low, a.low), mul_up(a.high, a.high)),
    }
}

// The squares of an interval that is not empty.
fn square_of_ends(a: Ends) -> Ends
    ensures { ends_of result ≡ interval_square (ends_of a) }
{
    let side = side_of(a);
    Ends {
        low: least_square(a, side),
        high: greatest_square(a, side),
    }
}

impl Ival {
    /// The products of a number of each.
    pub fn mul(self, other: Ival) -> Ival
        ensures { interval_of result ≡ interval_product (interval_of self) (interval_of other) }
    {
        match (self, other) {
            (Ival::Between(a), Ival::Between(b)) => Ival::Between(product_of_ends(a, b)),
            _ => Ival::Empty,
        }
    }

    /// The squares of its numbers.
    pub fn sq(self) -> Ival
        ensures { interval_of result ≡ interval_square (interval_of self) }
    {
        match self {
            Ival::Between(a) => Ival::Between(square_of_ends(a)),
            Ival::Empty => Ival::Empty,
        }
    }
}
