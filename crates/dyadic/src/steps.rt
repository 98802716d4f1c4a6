// Bounds of exact results in steps of a power of 2, and what they round to.
ghost use Rattle.std.specs.Prelude.{◌≡◌, ℕ, ◌^◌, ◌<◌, ◌≤◌, ◌*◌, ◌*ℤ◌, pos, nat_abs};
ghost use Rattle.std.specs.Int.{int_shr};
ghost use Rattle.dyadic.specs.InUnits.{IsDownAt};
ghost use Rattle.dyadic.specs.Mantissa.{IsNormal};
ghost use Rattle.dyadic.specs.Signed.{IsFloor};

use crate::dy::{Dy, Ext};
use crate::number::{number, spare_bits};

/// `count * 2^shift` units.
#[derive(Clone, Copy)]
pub struct Steps {
    pub count: i64,
    pub shift: u32,
}

// A count of 63 bits with one bit less, or two where it becomes a power of 2.
#[inline(always)]
fn halved(count: i64, shift: u32) -> Steps
    requires few { nat_abs count < 2 ^ 63 }
    requires many { 2 ^ 62 ≤ nat_abs count }
    requires short { shift ≤ 1000 }
    ensures few { nat_abs result.count < 2 ^ 62 }
    ensures many { 2 ^ 61 ≤ nat_abs result.count }
    ensures floor { IsFloor (count *ℤ pos (2 ^ shift)) 1 (result.count *ℤ pos (2 ^ result.shift)) }
{
    let half = count >> 1;
    if half == -(1 << 62) {
        Steps {
            count: -(1 << 61),
            shift: shift + 2,
        }
    } else {
        Steps {
            count: half,
            shift: shift + 1,
        }
    }
}

// The count times 2^up.
#[inline(always)]
fn moved_up(count: i64, up: u32) -> i64
    requires short { up ≤ 61 }
    requires few { nat_abs count * 2 ^ up < 2 ^ 62 }
    ensures { result ≡ count *ℤ pos (2 ^ up) }
{
    count * (1 << up)
}

// A count of fewer than 62 bits, moved up as far as the steps allow.
#[inline(always)]
fn raised(count: i64, shift: u32) -> Steps
    requires few { nat_abs count < 2 ^ 61 }
    ensures few { nat_abs result.count < 2 ^ 62 }
    ensures many { 0 < result.shift → 2 ^ 61 ≤ nat_abs result.count }
    ensures same { result.count *ℤ pos (2 ^ result.shift) ≡ count *ℤ pos (2 ^ shift) }
{
    if count == 0 {
        return Steps { count: 0, shift: 0 };
    }
    let up = spare_bits(count.unsigned_abs(), shift);
    Steps {
        count: moved_up(count, up),
        shift: shift - up,
    }
}

// Steps of which a bound is a number, unless it lies beyond all numbers.
#[inline(always)]
fn settled(count: i64, shift: u32) -> Steps
    requires few { nat_abs count < 2 ^ 63 }
    requires short { shift ≤ 1000 }
    ensures few { nat_abs result.count < 2 ^ 62 }
    ensures many { 0 < result.shift → 2 ^ 61 ≤ nat_abs result.count }
    ensures floor { IsFloor (count *ℤ pos (2 ^ shift)) 1 (result.count *ℤ pos (2 ^ result.shift)) }
{
    let size = count.unsigned_abs();
    if size >= 1 << 62 {
        halved(count, shift)
    } else if size >= 1 << 61 {
        Steps { count, shift }
    } else {
        raised(count, shift)
    }
}

// What steps round down to that the shift alone does not show to be in range.
#[inline(always)]
fn bounded(count: i64, shift: u32) -> Ext
    requires few { nat_abs count < 2 ^ 62 }
    requires many { 2 ^ 61 ≤ nat_abs count }
    requires high { 181 ≤ shift }
    ensures { IsDownAt (count *ℤ pos (2 ^ shift)) 1 result }
{
    if count > 0 {
        Ext::Fin(Dy::GREATEST)
    } else if shift == 181 && count == -(1 << 61) {
        Ext::Fin(number(count, shift))
    } else {
        Ext::NegInf
    }
}

/// The greatest number that is not above so many steps, or minus infinity.
#[inline(always)]
pub fn round_steps(steps: Steps) -> Ext
    requires few { nat_abs steps.count < 2 ^ 63 }
    requires short { steps.shift ≤ 1000 }
    ensures { IsDownAt (steps.count *ℤ pos (2 ^ steps.shift)) 1 result }
{
    let steps = settled(steps.count, steps.shift);
    if steps.shift <= 180 {
        Ext::Fin(number(steps.count, steps.shift))
    } else {
        bounded(steps.count, steps.shift)
    }
}
