// Fractions rounded down and up.
ghost use Rattle.std.specs.Prelude.{◌≡◌, ℕ, ◌+◌, ◌*◌, ◌/◌, ◌^◌, ◌<◌, ◌≤◌, true};
ghost use Rattle.std.specs.Int.RustNames.{unsigned_abs};
ghost use Rattle.dyadic.specs.Grid.{IsTight};
ghost use Rattle.dyadic.specs.Signed.{signed_of};
ghost use Rattle.dyadic.specs.Views.{ext_of, fraction_of_frac};
ghost use Rattle.dyadic.specs.Rounding.{down, up};

use crate::bracket::{Bracket, down, up};
use crate::dy::Ext;
use crate::frac::Frac;
use crate::product::UNIT_BITS;

// By how many bits a short numerator is moved up: by all the digits, or until the quotient has 63 or 64 bits.
#[tactic(auto, using(crate::proofs::Division::lead_apart, crate::proofs::Division::lead_room, crate::proofs::Division::quotient_room, crate::proofs::Division::quotient_many))]
fn bits_up(n: u128, d: u128, digits: u32) -> u32
    requires positive { 0 < d }
    requires few_bits { n < 2 ^ 64 }
    requires few_bits_below { d < 2 ^ 64 }
    ensures within { result ≤ digits }
    ensures short { result < 128 }
    ensures room { n * 2 ^ result < 2 ^ 127 }
    ensures many { result < digits → 0 < n → 2 ^ 62 * d ≤ n * 2 ^ result }
{
    let most = 63 + n.leading_zeros() - d.leading_zeros();
    if digits < most { digits } else { most }
}

// Bounds of `n * 2^digits / d` for short numbers, by one division.
#[tactic(auto, using(crate::proofs::Division::tight_short))]
fn short_bracket(n: u128, d: u128, digits: u32) -> Bracket
    requires positive { 0 < d }
    requires few_digits { digits ≤ 1000 }
    requires few_bits { n < 2 ^ 64 }
    requires few_bits_below { d < 2 ^ 64 }
    ensures short { result.shift ≤ 1000 }
    ensures tight { IsTight (n * 2 ^ digits) d result.low result.high result.shift }
{
    let up = bits_up(n, d, digits);
    let raised = n << up;
    let quotient = raised / d;
    Bracket {
        low: quotient,
        high: if quotient * d == raised {
            quotient
        } else {
            quotient + 1
        },
        shift: digits - up,
    }
}

// Bounds of `n * 2^digits / d`, by long division until there are 62 bits or no digit is left.
#[inline(never)]
fn long_bracket(n: u128, d: u128, digits: u32) -> Bracket
    requires positive { 0 < d }
    requires few_digits { digits ≤ 1000 }
    requires few_bits { n < 2 ^ 126 }
    requires few_bits_below { d < 2 ^ 126 }
    ensures short { result.shift ≤ 1000 }
    ensures tight { IsTight (n * 2 ^ digits) d result.low result.high result.shift }
{
    let mut quotient = n / d;
    let mut rest = n % d;
    let mut shift = digits;
    while shift > 0 && quotient < 1 << 62 {
        quotient *= 2;
        rest *= 2;
        if rest >= d {
            quotient += 1;
            rest -= d;
        }
        shift -= 1;
    }
    Bracket {
        low: quotient,
        high: if rest == 0 { quotient } else { quotient + 1 },
        shift,
    }
}

// Bounds of `n * 2^digits`, which are itself.
#[tactic(auto, using(crate::proofs::Division::tight_whole))]
fn whole_bracket(n: u128, digits: u32) -> Bracket
    requires few_digits { digits ≤ 1000 }
    ensures short { result.shift ≤ 1000 }
    ensures tight { IsTight (n * 2 ^ digits) 1 result.low result.high result.shift }
{
    Bracket {
        low: n,
        high: n,
        shift: digits,
    }
}

/// Bounds of `n * 2^digits / d`.
pub fn quotient_bracket(n: u128, d: u128, digits: u32) -> Bracket
    requires positive { 0 < d }
    requires few_digits { digits ≤ 1000 }
    requires few_bits { n < 2 ^ 126 }
    requires few_bits_below { d < 2 ^ 126 }
    ensures short { result.shift ≤ 1000 }
    ensures tight { IsTight (n * 2 ^ digits) d result.low result.high result.shift }
{
    if d == 1 {
        whole_bracket(n, digits)
    } else if n < 1 << 64 && d < 1 << 64 {
        short_bracket(n, d, digits)
    } else {
        long_bracket(n, d, digits)
    }
}

// Whether the fraction has a minus.
pub fn has_minus(f: Frac) -> bool
    ensures sign { signed_of result (unsigned_abs f.n) ≡ f.n }
    ensures some { result ≡ true → 0 < unsigned_abs f.n }
{
    f.n < 0
}

// Bounds of the fraction's size.
fn frac_bracket(f: Frac) -> Bracket
    ensures short { result.shift ≤ 1000 }
    ensures tight { IsTight (unsigned_abs f.n * 2 ^ 120) (unsigned_abs f.d)
        result.low result.high result.shift }
{
    quotient_bracket(f.n.unsigned_abs(), f.d.unsigned_abs(), UNIT_BITS)
}

/// The fraction, rounded down.
pub fn down_frac(f: Frac) -> Ext
    ensures { ext_of result ≡ down (fraction_of_frac f) }
{
    down(has_minus(f), frac_bracket(f))
}

/// The fraction, rounded up.
pub fn up_frac(f: Frac) -> Ext
    ensures { ext_of result ≡ up (fraction_of_frac f) }
{
    up(has_minus(f), frac_bracket(f))
}
