// The ranges of roots.
ghost use Rattle.std.specs.Prelude.{◌≡◌, ◌≤◌, ◌≤ℤ◌, ◌^◌, IsTrue, pos};
ghost use Rattle.dyadic.specs.Rounding.{ceiling, not_negative};
ghost use Rattle.dyadic.specs.Size.{units};
ghost use Rattle.dyadic.specs.Fraction.{whole};
ghost use Rattle.dyadic.specs.Views.{ext_of, fraction_of_frac, units_of};
ghost use Rattle.interval_model.specs.Interval.{between};
ghost use Rattle.ival.specs.Proper.{are_ends};
ghost use Rattle.ival.specs.Views.{interval_of};
ghost use Rattle.script_roots.specs.Ranges.{root_above, root_bound, root_range, whole_ext};

use dyadic::{Dy, Ext, Frac, Size, down_frac, sqrt_up};
use ival::{Ends, Ival};

// How many bits a whole unit has.
const UNIT_BITS: u32 = 120;

// The least whole number that is not below a size.
fn whole_of(size: Size) -> u64
    requires { units size ≤ 2 ^ 181 }
    ensures value { result ≡ ceiling (units size) (2 ^ 120) }
    ensures few { result ≤ 2 ^ 62 }
{
    if size.shift >= UNIT_BITS {
        return size.odd << (size.shift - UNIT_BITS);
    }
    let odd = u128::from(size.odd);
    let below = UNIT_BITS - size.shift;
    let whole = (odd >> below) as u64;
    if u128::from(whole) << below == odd {
        whole
    } else {
        whole + 1
    }
}

// The number, or 0 where it is below 0.
fn clamped(number: Dy) -> Dy
    ensures plus { pos 0 ≤ℤ units_of result }
    ensures size { not_negative (units_of result) ≡ not_negative (units_of number) }
{
    if number.is_negative() {
        Dy::ZERO
    } else {
        number
    }
}

// The root of an upper end, rounded up.
fn root_above(end: Ext) -> Ext
    ensures { ext_of result ≡ root_above (ext_of end) }
{
    match end {
        Ext::NegInf => Ext::NegInf,
        Ext::Fin(number) => sqrt_up(Ext::Fin(clamped(number))),
        Ext::PosInf => Ext::PosInf,
    }
}

/// A whole number that no root of a value in the interval is above, at most 2^62; none where the interval has no upper
/// end.
pub fn root_bound(range: Ival) -> Option<u64>
    ensures { result ≡ root_bound (interval_of range) }
{
    match range {
        Ival::Empty => Some(0),
        Ival::Between(ends) => match root_above(ends.high) {
            Ext::NegInf => Some(0),
            Ext::Fin(root) => Some(whole_of(root.parts().size)),
            Ext::PosInf => None,
        },
    }
}

/// The whole number as a fraction.
pub(crate) fn whole(number: u64) -> Frac
    ensures { fraction_of_frac result ≡ whole (pos number) }
{
    Frac {
        n: i128::from(number),
        d: 1,
    }
}

// A whole number as an end.
fn whole_end(number: u64) -> Ext
    requires { number ≤ 2 ^ 62 }
    ensures { ext_of result ≡ whole_ext number }
{
    down_frac(whole(number))
}

// What lies from 0 to an end.
fn from_nought(high: Ext) -> Ival
    requires { IsTrue (are_ends (whole_ext 0) (ext_of high)) }
    ensures { interval_of result ≡ between (whole_ext 0) (ext_of high) }
{
    Ival::Between(Ends {
        low: Ext::Fin(Dy::ZERO),
        high,
    })
}

/// In what a root of a value in the interval lies: from 0 to its bound.
pub(crate) fn root_range(range: Ival) -> Ival
    ensures { interval_of result ≡ root_range (interval_of range) }
{
    match root_bound(range) {
        Some(number) => from_nought(whole_end(number)),
        None => from_nought(Ext::PosInf),
    }
}
