// Whether a number lies between two fractions, or outside by no more than a margin.
ghost use Rattle.std.specs.Prelude.{◌≡◌, ℕ, ◌+◌, ◌-◌, ◌*◌, ◌^◌, ◌<◌, ◌≤◌, ◌↔◌, IsTrue};
ghost use Rattle.std.specs.Ordering.{nat_cmp};
ghost use Rattle.std.specs.Int.RustNames.{unsigned_abs};
ghost use Rattle.dyadic.specs.Fraction.{at_most, power_below, sum_of, difference_of};
ghost use Rattle.dyadic.specs.Rounding.{exact};
ghost use Rattle.dyadic.specs.Size.{units};
ghost use Rattle.dyadic.specs.Views.{dyadic_of, parts_dyadic, fraction_of_frac};
ghost use Rattle.dyadic.specs.Calls.{is_near};
ghost use Rattle.dyadic.specs.Near.{IsUnder, IsInSteps};

use crate::dy::Dy;
use crate::frac::Frac;
use crate::frac_order::cmp_quotients;
use crate::parts::Parts;
use crate::quotient::has_minus;
use crate::size::Size;
use std::cmp::Ordering;

// A size and a margin in steps of one power of 2.
#[derive(Clone, Copy)]
struct Steps {
    size: u128,
    margin: u128,
    shift: u32,
}

// A size of less than 2^62 and a margin of 2^-bits in steps.
fn in_steps(v: Size, bits: u32) -> Steps
    requires fine { v.shift < 120 }
    requires some { 1 ≤ bits }
    requires few { bits ≤ 60 }
    ensures { IsInSteps (units v) (2 ^ (120 - bits)) result.size result.margin result.shift }
{
    let margin = 120 - bits;
    let shift = v.shift.min(margin);
    Steps {
        size: u128::from(v.odd) << (v.shift - shift),
        margin: 1 << (margin - shift),
        shift,
    }
}

// The order of a fraction and of a number of steps.
fn cmp_steps(n: u128, d: u128, size: u128, shift: u32) -> Ordering
    requires positive { 0 < d }
    requires fine { shift < 120 }
    ensures { result ≡ nat_cmp (n * 2 ^ 120) (size * 2 ^ shift * d) }
{
    cmp_quotients(n, d, size, 1 << (120 - shift))
}

// The test where the number may have digits after the point.
fn is_under_fine(minus: bool, n: u128, d: u128, negative: bool, v: Size, bits: u32) -> bool
    requires positive { 0 < d }
    requires fine { v.shift < 120 }
    requires some { 1 ≤ bits }
    requires few { bits ≤ 60 }
    ensures { IsTrue result ↔ IsUnder minus negative n d (units v) (2 ^ (120 - bits)) }
{
    let steps = in_steps(v, bits);
    let (size, margin, shift) = (steps.size, steps.margin, steps.shift);
    match (minus, negative) {
        (false, false) => cmp_steps(n, d, size + margin, shift).is_le(),
        (true, false) => true,
        (false, true) => size <= margin && cmp_steps(n, d, margin - size, shift).is_le(),
        (true, true) => size <= margin || cmp_steps(n, d, size - margin, shift).is_ge(),
    }
}

// Whether `n / d` is at most `w` and a margin.
fn is_under_whole(n: u128, d: u128, w: u128, bits: u32) -> bool
    requires positive { 0 < d }
    requires some { 1 ≤ bits }
    requires few { bits ≤ 60 }
    ensures { IsTrue result ↔ (n * 2 ^ bits ≤ (w * 2 ^ bits + 1) * d) }
{
    let quotient = n / d;
    if quotient == w {
        n % d <= d >> bits
    } else {
        quotient < w
    }
}

// Whether `w` is at most `n / d` and a margin.
fn is_over_whole(n: u128, d: u128, w: u128, bits: u32) -> bool
    requires positive { 0 < d }
    requires some { 1 ≤ bits }
    requires few { bits ≤ 60 }
    ensures { IsTrue result ↔ (w * 2 ^ bits * d ≤ n * 2 ^ bits + d) }
{
    let quotient = n / d;
    if quotient < w && w - quotient == 1 {
        d - n % d <= d >> bits
    } else {
        w <= quotient
    }
}

// The test where the number is whole, and not 0.
fn is_under_coarse(minus: bool, n: u128, d: u128, negative: bool, v: Size, bits: u32) -> bool
    requires positive { 0 < d }
    requires coarse { 120 ≤ v.shift }
    requires some { 1 ≤ bits }
    requires few { bits ≤ 60 }
    ensures { IsTrue result ↔ IsUnder minus negative n d (units v) (2 ^ (120 - bits)) }
{
    let whole = whole_of(v);
    match (minus, negative) {
        (false, false) => is_under_whole(n, d, whole, bits),
        (true, false) => true,
        (false, true) => false,
        (true, true) => is_over_whole(n, d, whole, bits),
    }
}

// A whole size.
fn whole_of(v: Size) -> u128
    requires { 120 ≤ v.shift }
    ensures value { result * 2 ^ 120 ≡ units v }
    ensures some { 0 < result }
{
    u128::from(v.odd) << (v.shift - 120)
}

// Whether a fraction of this sign and these sizes is at most a number and a margin.
fn is_under(minus: bool, n: u128, d: u128, negative: bool, v: Size, bits: u32) -> bool
    requires positive { 0 < d }
    requires some { 1 ≤ bits }
    requires few { bits ≤ 60 }
    ensures { IsTrue result ↔ IsUnder minus negative n d (units v) (2 ^ (120 - bits)) }
{
    if v.shift < 120 {
        is_under_fine(minus, n, d, negative, v, bits)
    } else {
        is_under_coarse(minus, n, d, negative, v, bits)
    }
}

// Whether the fraction is at most the number and 2^-bits.
fn is_low(f: Frac, v: Parts, bits: u32) -> bool
    requires some { 1 ≤ bits }
    requires few { bits ≤ 60 }
    ensures { result ≡
        at_most (difference_of (fraction_of_frac f) (power_below bits)) (exact (parts_dyadic v)) }
{
    is_under(has_minus(f), above(f), below(f), v.negative, v.size, bits)
}

// Whether the number is at most the fraction and 2^-bits.
fn is_high(f: Frac, v: Parts, bits: u32) -> bool
    requires some { 1 ≤ bits }
    requires few { bits ≤ 60 }
    ensures { result ≡
        at_most (exact (parts_dyadic v)) (sum_of (fraction_of_frac f) (power_below bits)) }
{
    is_under(!has_minus(f), above(f), below(f), !v.negative, v.size, bits)
}

/// Whether `lo - 2^-bits <= v <= hi + 2^-bits`, exactly.
pub fn near(v: Dy, bits: u32, lo: Frac, hi: Frac) -> bool
    requires some { 1 ≤ bits }
    requires few { bits ≤ 60 }
    ensures { result ≡ is_near (dyadic_of v) bits (fraction_of_frac lo) (fraction_of_frac hi) }
{
    let v = v.parts();
    is_low(lo, v, bits) && is_high(hi, v, bits)
}

// The size of the numerator.
fn above(f: Frac) -> u128
    ensures { result ≡ unsigned_abs f.n }
{
    f.n.unsigned_abs()
}

// The denominator.
fn below(f: Frac) -> u128
    ensures same { result ≡ unsigned_abs f.d }
    ensures positive { 0 < result }
{
    f.d.unsigned_abs()
}
