// Powers of two near to floats, and rounding to multiples of them.
use std::num::{f64_from_bits_with_nan, f64_to_bits_with_nan};

/// Adding this rounds a float of less than 2 to the power of 51 to a whole number.
const ROUNDER: f64 = 6755399441055744.0;

/// The greater of two numbers; the first where the second is none.
pub fn greater(a: f64, b: f64) -> f64 {
    if b > a { b } else { a }
}

/// Whether a number is finite, and not far too large to go on with.
pub fn is_moderate(x: f64) -> bool {
    x > -1e150 && x < 1e150
}

/// The exponent of the least power of two that is not below a number's size.
pub fn exponent(x: f64) -> i32 {
    let bits = f64_to_bits_with_nan(x);
    let below = ((bits >> 52) & 2047) as i32 - 1023;
    if bits % (1 << 52) == 0 {
        below
    } else {
        below + 1
    }
}

/// The power of two with this exponent, or the nearest one that is there.
pub fn power(exponent: i32) -> f64 {
    let biased = if exponent < -1022 {
        1
    } else if exponent > 1023 {
        2046
    } else {
        (exponent + 1023) as u64
    };
    f64_from_bits_with_nan(biased << 52)
}

/// The least power of two that is not below a number's size.
pub fn power_above(x: f64) -> f64 {
    power(exponent(x))
}

/// The multiple of the unit, a power of two, that is nearest to a number.
pub fn rounded(x: f64, unit: f64) -> f64 {
    ((x / unit + ROUNDER) - ROUNDER) * unit
}
