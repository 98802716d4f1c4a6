// Products.
ghost use Rattle.std.specs.Prelude.{◌≡◌, ℕ, ◌+◌, ◌*◌, ◌^◌, ◌<◌, ◌≤◌, ◌*ℤ◌, pos, nat_abs};
ghost use Rattle.std.specs.Int.{int_shr};
ghost use Rattle.dyadic.specs.Fraction.{product_of};
ghost use Rattle.dyadic.specs.Rounding.{exact, down, up, end_of};
ghost use Rattle.dyadic.specs.End.{end_product, rounded_down, rounded_up};
ghost use Rattle.dyadic.specs.Mantissa.{IsWithinStep};
ghost use Rattle.dyadic.specs.Views.{normal_units, dyadic_of, ext_of};

use crate::dy::{Dy, Ext};
use crate::normal::Normal;
use crate::sign::{infinite_product, sign_of};
use crate::steps::{Steps, round_steps};

// The units' exponent: a unit is 2^-120.
pub const UNIT_BITS: u32 = 120;

// The product of two mantissas.
#[inline(always)]
fn times(m: i64, n: i64) -> i128
    requires first { nat_abs m < 2 ^ 62 }
    requires second { nat_abs n < 2 ^ 62 }
    ensures value { result ≡ m *ℤ n }
    ensures few { nat_abs result + 2 ^ 62 ≤ 2 ^ 124 }
{
    i128::from(m) * i128::from(n)
}

// The product moved down, rounded down.
#[inline(always)]
fn lowered(product: i128, by: u32) -> i64
    requires short { by ≤ 120 }
    requires few { nat_abs product + 2 ^ by ≤ 2 ^ 63 * 2 ^ by }
    ensures value { result ≡ int_shr product by }
    ensures few { nat_abs result < 2 ^ 63 }
{
    (product >> by) as i64
}

// By how many bits the product of two mantissas is to be moved down: to 62 bits, and down to units.
fn dropped_bits(product: i128, shift: u32) -> u32
    requires { nat_abs product < 2 ^ 124 }
    ensures short { result ≤ 120 }
    ensures units { 120 ≤ shift + result }
    ensures few { nat_abs product < 2 ^ 62 * 2 ^ result }
    ensures many { 120 < shift + result → 0 < result → 2 ^ 61 * 2 ^ result ≤ nat_abs product }
{
    let bits = 128 - product.unsigned_abs().leading_zeros();
    bits.saturating_sub(62).max(UNIT_BITS.saturating_sub(shift))
}

// The product of two mantissas of which one may have few bits.
#[inline(never)]
fn short_product(product: i128, shift: u32) -> Steps
    requires few { nat_abs product < 2 ^ 124 }
    requires short { shift ≤ 362 }
    ensures few { nat_abs result.count < 2 ^ 63 }
    ensures short { result.shift ≤ 1000 }
    ensures within { IsWithinStep (product *ℤ pos (2 ^ shift)) (2 ^ 120) result.count result.shift }
{
    let dropped = dropped_bits(product, shift);
    Steps {
        count: lowered(product, dropped),
        shift: shift + dropped - UNIT_BITS,
    }
}

/// The product of two numbers, in steps.
#[inline(always)]
fn product_of(a: Normal, b: Normal) -> Steps
    ensures few { nat_abs result.count < 2 ^ 63 }
    ensures short { result.shift ≤ 1000 }
    ensures within { IsWithinStep (normal_units a *ℤ normal_units b) (2 ^ 120)
        result.count result.shift }
{
    let product = times(a.mantissa, b.mantissa);
    let shift = a.shift + b.shift;
    if a.shift > 0 && b.shift > 0 && shift >= 59 {
        Steps {
            count: lowered(product, 61),
            shift: shift - 59,
        }
    } else {
        short_product(product, shift)
    }
}

// The product of two numbers, rounded down.
#[inline(always)]
fn finite_down(a: Dy, b: Dy) -> Ext
    ensures { ext_of result ≡ down (product_of (exact (dyadic_of a)) (exact (dyadic_of b))) }
{
    let product = product_of(a.normal(), b.normal());
    round_steps(product)
}

// The product of two numbers, rounded up: the opposite of a product of the opposite, rounded down.
#[inline(always)]
fn finite_up(a: Dy, b: Dy) -> Ext
    ensures { ext_of result ≡ up (product_of (exact (dyadic_of a)) (exact (dyadic_of b))) }
{
    let product = product_of(a.normal().neg(), b.normal());
    round_steps(product).neg()
}

/// The product, rounded down; 0 times an infinity is 0.
pub fn mul_down(a: Ext, b: Ext) -> Ext
    ensures { ext_of result ≡ rounded_down (end_product (end_of (ext_of a)) (end_of (ext_of b))) }
{
    match (a, b) {
        (Ext::Fin(a), Ext::Fin(b)) => finite_down(a, b),
        (a, b) => infinite_product(sign_of(a), sign_of(b)),
    }
}

/// The product, rounded up; 0 times an infinity is 0.
pub fn mul_up(a: Ext, b: Ext) -> Ext
    ensures { ext_of result ≡ rounded_up (end_product (end_of (ext_of a)) (end_of (ext_of b))) }
{
    match (a, b) {
        (Ext::Fin(a), Ext::Fin(b)) => finite_up(a, b),
        (a, b) => infinite_product(sign_of(a), sign_of(b)),
    }
}
