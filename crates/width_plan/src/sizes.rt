// Sizes and widths of intervals, rounded up.
ghost use Rattle.std.specs.Prelude.{◌≡◌, ◌+◌, ◌<◌, ◌≤◌, pos, ◌-◌};
ghost use Rattle.dyadic.specs.Calls.{power_of_two};
ghost use Rattle.dyadic.specs.Rounding.{finite};
ghost use Rattle.dyadic.specs.Views.{ext_of};
ghost use Rattle.ival.specs.Views.{interval_of};
ghost use Rattle.width_plan.specs.Width.{end_size, interval_size, width_sum, width_product, interval_width, rounding_width, two};

use dyadic::{Dy, Ext, add_up, at_most, mul_up, pow2, two_to_minus};
use ival::Ival;

// An end without its sign.
fn end_size(end: Ext) -> Ext
    ensures { ext_of result ≡ end_size (ext_of end) }
{
    match end {
        Ext::Fin(number) => Ext::Fin(number.abs()),
        Ext::NegInf => Ext::PosInf,
        Ext::PosInf => Ext::PosInf,
    }
}

/// The greater size of an interval's ends.
pub fn interval_size(interval: Ival) -> Ext
    ensures { ext_of result ≡ interval_size (interval_of interval) }
{
    match interval {
        Ival::Empty => Ext::Fin(Dy::ZERO),
        Ival::Between(ends) => {
            let low = end_size(ends.low);
            let high = end_size(ends.high);
            if at_most(low, high) { high } else { low }
        }
    }
}

/// The sum of two widths, rounded up.
pub fn width_sum(first: Ext, second: Ext) -> Ext
    ensures { ext_of result ≡ width_sum (ext_of first) (ext_of second) }
{
    match (first, second) {
        (Ext::Fin(_), Ext::Fin(_)) => add_up(first, second),
        (Ext::Fin(_), infinite) => infinite,
        (infinite, _) => infinite,
    }
}

/// The product of two widths, rounded up.
pub fn width_product(first: Ext, second: Ext) -> Ext
    ensures { ext_of result ≡ width_product (ext_of first) (ext_of second) }
{
    mul_up(first, second)
}

/// The width of an interval, rounded up.
pub fn interval_width(interval: Ival) -> Ext
    ensures { ext_of result ≡ interval_width (interval_of interval) }
{
    match interval {
        Ival::Empty => Ext::Fin(Dy::ZERO),
        Ival::Between(ends) => width_sum(ends.high, ends.low.neg()),
    }
}

/// What is added to a width where both ends, of at most this size, are rounded outward.
pub fn rounding_width(size: Ext) -> Ext
    ensures { ext_of result ≡ rounding_width (ext_of size) }
{
    let relative = width_product(size, Ext::Fin(two_to_minus(60)));
    width_sum(relative, Ext::Fin(two_to_minus(119)))
}

/// Twice a size.
pub fn doubled(size: Ext) -> Ext
    ensures { ext_of result ≡ width_product two (ext_of size) }
{
    width_product(Ext::Fin(pow2(1)), size)
}
