// Numbers of the grid as floats, and back.
ghost use Rattle.std.specs.Prelude.{◌≤◌, ◌^◌, ◌≤ℤ◌, neg_ℤ, pos};

use dyadic::{Dy, Ext, Frac, down_frac, mul_down, pow2};
use ival::{Domain, Ival};
use std::num::{f64_from_bits_with_nan, f64_to_bits_with_nan, nearest_u64_to_f64};

/// The interval from one float to another.
#[derive(Clone, Copy, PartialEq, Debug)]
pub struct Span {
    pub low: f64,
    pub high: f64,
}

impl Span {
    /// The middle, or 0 where an end is infinite.
    pub fn middle(self) -> f64 {
        let middle = 0.5 * (self.low + self.high);
        if middle > -1e300 && middle < 1e300 {
            middle
        } else {
            0.0
        }
    }

    /// The interval moved down by a number.
    pub fn less(self, by: f64) -> Span {
        Span {
            low: self.low - by,
            high: self.high - by,
        }
    }

    /// Its sums with another one's numbers.
    pub fn plus(self, other: Span) -> Span {
        Span {
            low: self.low + other.low,
            high: self.high + other.high,
        }
    }

    /// Its numbers with the other sign.
    pub fn negated(self) -> Span {
        Span {
            low: -self.high,
            high: -self.low,
        }
    }

    /// The greatest size of its numbers.
    pub fn size(self) -> f64 {
        greater(self.high, -self.low)
    }

    /// Its products with another one's numbers.
    pub fn times(self, other: Span) -> Span {
        let first = self.low * other.low;
        let second = self.low * other.high;
        let third = self.high * other.low;
        let fourth = self.high * other.high;
        Span {
            low: lesser(lesser(first, second), lesser(third, fourth)),
            high: greater(greater(first, second), greater(third, fourth)),
        }
    }

    /// The squares of its numbers.
    pub fn squared(self) -> Span {
        let first = self.low * self.low;
        let second = self.high * self.high;
        let low = if self.low <= 0.0 && self.high >= 0.0 {
            0.0
        } else {
            lesser(first, second)
        };
        Span {
            low,
            high: greater(first, second),
        }
    }

    /// Whether both ends are of moderate size.
    pub fn is_moderate(self) -> bool {
        self.low > -1e15 && self.high < 1e15 && self.low <= self.high
    }
}

// The lesser of two numbers.
fn lesser(a: f64, b: f64) -> f64 {
    if b < a { b } else { a }
}

// The greater of two numbers.
fn greater(a: f64, b: f64) -> f64 {
    if b > a { b } else { a }
}

/// A float near to the number.
pub fn approximate(number: Dy) -> f64 {
    let parts = number.parts();
    let size = parts.size;
    let shift = if size.shift > 250 { 250 } else { size.shift };
    // 2 to the power of shift - 120, by its exponent's bits
    let unit = f64_from_bits_with_nan(u64::from(shift + 903) << 52);
    let value = nearest_u64_to_f64(size.odd) * unit;
    if parts.negative { -value } else { value }
}

// A float near to the end; of an infinity, that infinity.
fn approximate_end(end: Ext) -> f64 {
    match end {
        Ext::NegInf => -1.0 / 0.0,
        Ext::Fin(number) => approximate(number),
        Ext::PosInf => 1.0 / 0.0,
    }
}

/// The interval in floats; of the empty one, one of numbers that are none.
pub fn span_of_interval(interval: Ival) -> Span {
    match interval {
        Ival::Empty => Span {
            low: 0.0 / 0.0,
            high: 0.0 / 0.0,
        },
        Ival::Between(ends) => Span {
            low: approximate_end(ends.low),
            high: approximate_end(ends.high),
        },
    }
}

/// The interval of a domain; of a Bool it is 0.
pub fn span_of_domain(domain: Domain) -> Span {
    match domain {
        Domain::Real(range) => Span {
            low: approximate(range.low),
            high: approximate(range.high),
        },
        Domain::Bool(_) => Span {
            low: 0.0,
            high: 0.0,
        },
    }
}

/// A float near to the fraction.
pub fn near_fraction(fraction: Frac) -> f64 {
    approximate_end(down_frac(fraction))
}

// So many times 2 to the power of the exponent, rounded down, with this sign; none where it is too great.
fn scaled(negative: bool, whole: u64, exponent: i32) -> Option<Dy>
    requires few { whole ≤ 2 ^ 53 }
    requires low { neg_ℤ (pos 120) ≤ℤ exponent }
    requires high { exponent ≤ℤ pos 60 }
{
    let size = down_frac(Frac::new(i128::from(whole), 1));
    match mul_down(size, Ext::Fin(pow2(exponent))) {
        Ext::Fin(number) => Some(if negative { number.neg() } else { number }),
        _ => None,
    }
}

// The exponent of a float's last bit.
fn exponent_of(bits: u64) -> i32 {
    ((bits >> 52) & 2047) as i32 - 1075
}

// The whole number that a float's bits name, times 2 to the power of its exponent.
fn whole_of(bits: u64) -> u64
    ensures { result ≤ 2 ^ 53 }
{
    (1 << 52) + bits % (1 << 52)
}

/// The number that the float is, or 0 where it is far too small; none of one that is no number, or far too great.
pub fn number(x: f64) -> Option<Dy> {
    let bits = f64_to_bits_with_nan(x);
    let exponent = exponent_of(bits);
    if exponent < -120 {
        return Some(Dy::ZERO);
    }
    if exponent > 8 {
        return None;
    }
    scaled(x < 0.0, whole_of(bits), exponent)
}

/// The number of 8 bits next to the float towards 0; none of one that is 0, no number, or far too small or great.
pub fn multiplier(x: f64) -> Option<Dy> {
    let bits = f64_to_bits_with_nan(x);
    let exponent = exponent_of(bits);
    if exponent < -152 || exponent > -2 {
        return None;
    }
    scaled(x < 0.0, whole_of(bits) >> 45, exponent + 45)
}
