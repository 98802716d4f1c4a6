// Quotients.
ghost use Rattle.std.specs.Prelude.{◌≡◌, ℕ, ◌+◌, ◌*◌, ◌^◌, ◌<◌, ◌≤◌, ◌+ℤ◌, ◌*ℤ◌, ◌≤ℤ◌, ◌<ℤ◌, ◌↔◌, pos, nat_abs, true, IsTrue};
ghost use Rattle.dyadic.specs.Fraction.{quotient_of};
ghost use Rattle.dyadic.specs.Rounding.{exact, down, up, end_of};
ghost use Rattle.dyadic.specs.End.{end_quotient, rounded_down, rounded_up};
ghost use Rattle.dyadic.specs.Grid.{IsTight};
ghost use Rattle.dyadic.specs.InUnits.{IsDownAt};
ghost use Rattle.dyadic.specs.Mantissa.{IsWithinStep};
ghost use Rattle.dyadic.specs.Signed.{by_sign};
ghost use Rattle.dyadic.specs.Size.{units};
ghost use Rattle.dyadic.specs.Views.{units_of, dyadic_of, parts_units, normal_units, ext_of};
ghost use Rattle.dyadic.specs.Calls.{IsDivisor};

use crate::bracket::{Bracket, down};
use crate::dy::{Dy, Ext};
use crate::normal::Normal;
use crate::parts::Parts;
use crate::product::UNIT_BITS;
use crate::quotient::quotient_bracket;
use crate::sign::{infinite_product, sign_of};
use crate::size::Size;
use crate::steps::{Steps, round_steps};

// 2^62
const RAISE: u128 = 4611686018427387904;

// Bounds of the quotient of two sizes.
#[tactic(auto, using(crate::proofs::Divisors::tight_near, crate::proofs::Divisors::tight_far, crate::proofs::Divisors::room))]
fn divide_bracket(a: Size, b: Size) -> Bracket
    requires { 0 < units b }
    ensures short { result.shift ≤ 1000 }
    ensures tight { IsTight (units a * 2 ^ 120) (units b) result.low result.high result.shift }
{
    let top = a.shift + UNIT_BITS;
    if b.shift <= top {
        quotient_bracket(u128::from(a.odd), u128::from(b.odd), top - b.shift)
    } else if b.shift - top < 64 {
        quotient_bracket(u128::from(a.odd), u128::from(b.odd) << (b.shift - top), 0)
    } else {
        Bracket {
            low: 0,
            high: if a.odd == 0 { 0 } else { 1 },
            shift: 0,
        }
    }
}

// The quotient of the sizes of two mantissas with 62 bits more, rounded down.
#[tactic(auto, using(crate::proofs::LongQuotients::long_few, crate::proofs::LongQuotients::long_low, crate::proofs::LongQuotients::long_high))]
#[inline(always)]
fn size_quotient(m: u64, n: u64) -> u64
    requires first { m < 2 ^ 62 }
    requires many { 2 ^ 61 ≤ n }
    ensures few { result + 1 < 2 ^ 63 }
    ensures at_least { result * n ≤ m * 2 ^ 62 }
    ensures below { m * 2 ^ 62 < (result + 1) * n }
{
    (u128::from(m) * RAISE / u128::from(n)) as u64
}

// Whether a quotient of sizes leaves no rest.
#[inline(always)]
fn is_whole(quotient: u64, m: u64, n: u64) -> bool
    requires { m < 2 ^ 62 }
    ensures { IsTrue result ↔ (quotient * n ≡ m * 2 ^ 62) }
{
    u128::from(quotient) * u128::from(n) == u128::from(m) * RAISE
}

// The quotient of two mantissas with 62 bits more, rounded down.
#[inline(always)]
fn quotient_of(m: i64, n: i64) -> i64
    requires first { nat_abs m < 2 ^ 62 }
    requires few { nat_abs n < 2 ^ 62 }
    requires many { 2 ^ 61 ≤ nat_abs n }
    ensures few { nat_abs result < 2 ^ 63 }
    ensures at_least { (result *ℤ pos (nat_abs n)) ≤ℤ (by_sign n m *ℤ pos (2 ^ 62)) }
    ensures below { (by_sign n m *ℤ pos (2 ^ 62)) <ℤ ((result +ℤ pos 1) *ℤ pos (nat_abs n)) }
{
    let (size, divisor) = (m.unsigned_abs(), n.unsigned_abs());
    let quotient = size_quotient(size, divisor);
    if (m < 0) == (n < 0) {
        quotient as i64
    } else if is_whole(quotient, size, divisor) {
        -(quotient as i64)
    } else {
        -(quotient as i64) - 1
    }
}

// Whether both numbers have 62 bits, and the steps of 62 bits of their quotient are not below units.
#[inline(always)]
fn are_long(a: Normal, b: Normal) -> bool
    ensures first { result ≡ true → 0 < a.shift }
    ensures second { result ≡ true → 0 < b.shift }
    ensures coarse { result ≡ true → b.shift ≤ a.shift + 58 }
{
    a.shift > 0 && b.shift > 0 && b.shift <= a.shift + 58
}

// The quotient of two numbers of 62 bits, in steps.
#[inline(always)]
fn long_quotient(a: Normal, b: Normal) -> Steps
    requires first { 0 < a.shift }
    requires second { 0 < b.shift }
    requires coarse { b.shift ≤ a.shift + 58 }
    ensures few { nat_abs result.count < 2 ^ 63 }
    ensures short { result.shift ≤ 1000 }
    ensures within { IsWithinStep (by_sign b.mantissa (normal_units a) *ℤ pos (2 ^ 120))
        (nat_abs (normal_units b)) result.count result.shift }
{
    Steps {
        count: quotient_of(a.mantissa, b.mantissa),
        shift: a.shift + 58 - b.shift,
    }
}

// The quotient of two numbers by their parts, rounded down.
#[inline(never)]
fn parts_quotient(a: Parts, b: Parts) -> Ext
    requires { 0 < units b.size }
    ensures { IsDownAt (by_sign (parts_units b) (parts_units a) *ℤ pos (2 ^ 120))
        (nat_abs (parts_units b)) result }
{
    down(a.negative != b.negative, divide_bracket(a.size, b.size))
}

// The quotient of two numbers, rounded down.
#[inline(always)]
fn number_quotient(a: Dy, b: Dy) -> Ext
    requires { 0 < nat_abs (units_of b) }
    ensures { IsDownAt (by_sign (units_of b) (units_of a) *ℤ pos (2 ^ 120))
        (nat_abs (units_of b)) result }
{
    let (x, y) = (a.normal(), b.normal());
    if are_long(x, y) {
        let quotient = long_quotient(x, y);
        round_steps(quotient)
    } else {
        parts_quotient(a.parts(), b.parts())
    }
}

// The quotient of two numbers, rounded down.
#[inline(always)]
fn finite_down(a: Dy, b: Dy) -> Ext
    requires { 0 < nat_abs (units_of b) }
    ensures { ext_of result ≡ down (quotient_of (exact (dyadic_of a)) (exact (dyadic_of b))) }
{
    number_quotient(a, b)
}

// The quotient of two numbers, rounded up: the opposite of the opposite's quotient, rounded down.
#[inline(always)]
fn finite_up(a: Dy, b: Dy) -> Ext
    requires { 0 < nat_abs (units_of b) }
    ensures { ext_of result ≡ up (quotient_of (exact (dyadic_of a)) (exact (dyadic_of b))) }
{
    number_quotient(a.neg(), b).neg()
}

/// The quotient, rounded down; an end divided by an infinity is 0.
pub fn div_down(a: Ext, b: Ext) -> Ext
    requires { IsDivisor (ext_of b) }
    ensures { ext_of result ≡ rounded_down (end_quotient (end_of (ext_of a)) (end_of (ext_of b))) }
{
    match (a, b) {
        (Ext::Fin(a), Ext::Fin(b)) => finite_down(a, b),
        (a, Ext::Fin(b)) => infinite_product(sign_of(a), sign_of(Ext::Fin(b))),
        (_, _) => Ext::Fin(Dy::ZERO),
    }
}

/// The quotient, rounded up; an end divided by an infinity is 0.
pub fn div_up(a: Ext, b: Ext) -> Ext
    requires { IsDivisor (ext_of b) }
    ensures { ext_of result ≡ rounded_up (end_quotient (end_of (ext_of a)) (end_of (ext_of b))) }
{
    match (a, b) {
        (Ext::Fin(a), Ext::Fin(b)) => finite_up(a, b),
        (a, Ext::Fin(b)) => infinite_product(sign_of(a), sign_of(Ext::Fin(b))),
        (_, _) => Ext::Fin(Dy::ZERO),
    }
}
