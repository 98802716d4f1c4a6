// Whole numbers of units, exactly, in two halves.
ghost use Rattle.std.specs.Prelude.{◌≡◌, ℕ, ◌+◌, ◌-◌, ◌*◌, ◌^◌, ◌<◌, ◌≤◌, ◌↔◌, IsTrue};
ghost use Rattle.dyadic.specs.Size.{units};
ghost use Rattle.ival.specs.WideViews.{wide_value};

use crate::wide_parts::Wide;
use dyadic::Size;

// How many bits the lower half has.
const HALF: u32 = 120;

// The units of a size of at least 2^120 units, or 0.
fn raised(size: Size) -> Wide
    requires { 120 ≤ size.shift }
    ensures { wide_value result ≡ units size }
{
    let high = u128::from(size.odd) << (size.shift - HALF);
    Wide { high, low: 0 }
}

// The units of a size with a shift below 120.
fn split(size: Size) -> Wide
    requires { size.shift < 120 }
    ensures { wide_value result ≡ units size }
{
    let odd = u128::from(size.odd);
    let back = HALF - size.shift;
    let high = odd >> back;
    let rest = odd - (high << back);
    Wide {
        high,
        low: rest << size.shift,
    }
}

/// The units of a size.
pub fn wide_of(size: Size) -> Wide
    ensures value { wide_value result ≡ units size }
    ensures few { wide_value result ≤ 2 ^ 242 }
{
    if size.shift >= HALF {
        raised(size)
    } else {
        split(size)
    }
}

/// The sum of two numbers of at most 2^242 units.
pub fn wide_sum(a: Wide, b: Wide) -> Wide
    requires first { wide_value a ≤ 2 ^ 242 }
    requires second { wide_value b ≤ 2 ^ 242 }
    ensures { wide_value result ≡ wide_value a + wide_value b }
{
    let low = a.low + b.low;
    if low < 1 << HALF {
        Wide {
            high: a.high + b.high,
            low,
        }
    } else {
        Wide {
            high: a.high + b.high + 1,
            low: low - (1 << HALF),
        }
    }
}

/// The difference of two numbers, of which the second is not the greater.
pub fn wide_difference(a: Wide, b: Wide) -> Wide
    requires { wide_value b ≤ wide_value a }
    ensures { wide_value result ≡ wide_value a - wide_value b }
{
    if b.low <= a.low {
        Wide {
            high: a.high - b.high,
            low: a.low - b.low,
        }
    } else {
        Wide {
            high: a.high - b.high - 1,
            low: a.low + (1 << HALF) - b.low,
        }
    }
}

/// Whether a number is at most another.
pub fn wide_at_most(a: Wide, b: Wide) -> bool
    ensures { IsTrue result ↔ (wide_value a ≤ wide_value b) }
{
    if a.high == b.high {
        a.low <= b.low
    } else {
        a.high < b.high
    }
}
