// Numbers by their mantissas, by their parts and back, with the other sign, and the number 0.
ghost use Rattle.std.specs.Prelude.{◌≡◌, ℕ, ◌*◌, ◌^◌, ◌<◌, ◌≤◌, ◌<ℤ◌, ◌*ℤ◌, ◌↔◌, pos, neg_ℤ, nat_abs, IsTrue};
ghost use Rattle.std.specs.Int.{int_shr};
ghost use Rattle.dyadic.specs.End.{negated_dyadic, negated_ext};
ghost use Rattle.dyadic.specs.Mantissa.{IsNormal, mantissa};
ghost use Rattle.dyadic.specs.Rounding.{Dyadic};
ghost use Rattle.dyadic.specs.Size.{units};
ghost use Rattle.dyadic.specs.Signed.{signed_of};
ghost use Rattle.dyadic.specs.Views.{units_of, parts_units, normal_units, dyadic_of, ext_of};

use crate::dy::{Dy, Ext};
use crate::normal::Normal;
use crate::parts::Parts;
use crate::rounding::spelled;
use crate::size::Size;

// 2^32
const HALF: i64 = 4294967296;

// The upper half of a mantissa.
#[inline(always)]
fn high_half(m: i64) -> i32
    requires { nat_abs m < 2 ^ 62 }
    ensures { result ≡ int_shr m 32 }
{
    (m >> 32) as i32
}

// The lower half.
#[inline(always)]
fn low_half(m: i64) -> u32
    requires { nat_abs m < 2 ^ 62 }
    ensures { mantissa (int_shr m 32) result ≡ m }
{
    (m - (m >> 32) * HALF) as u32
}

/// The number of `m * 2^shift` units.
#[inline(always)]
pub fn number(m: i64, shift: u32) -> Dy
    requires { IsNormal m shift }
    ensures { units_of result ≡ m *ℤ pos (2 ^ shift) }
{
    Dy {
        low: low_half(m),
        high: high_half(m),
        shift,
    }
}

// The integer of this sign and size.
#[inline(always)]
fn with_sign(negative: bool, size: u64) -> i64
    requires { size < 2 ^ 62 }
    ensures { result ≡ signed_of negative size }
{
    if negative {
        -(size as i64)
    } else {
        size as i64
    }
}

/// By how many bits a size in steps of `2^shift` units can be moved up to 62 bits at most.
#[inline(always)]
pub fn spare_bits(size: u64, shift: u32) -> u32
    requires some { 0 < size }
    requires few { size < 2 ^ 62 }
    ensures within { result ≤ shift }
    ensures short { result ≤ 61 }
    ensures few { size * 2 ^ result < 2 ^ 62 }
    ensures many { result < shift → 2 ^ 61 ≤ size * 2 ^ result }
{
    (size.leading_zeros() - 2).min(shift)
}

/// The number of this sign and size.
#[inline(always)]
pub fn signed(negative: bool, size: Size) -> Dy
    ensures { units_of result ≡ signed_of negative (units size) }
{
    if size.odd == 0 {
        return Dy::ZERO;
    }
    let up = spare_bits(size.odd, size.shift);
    number(with_sign(negative, size.odd << up), size.shift - up)
}

impl Dy {
    pub const ZERO: Dy = Dy {
        low: 0,
        high: 0,
        shift: 0,
    };

    /// The greatest number, 2^122.
    pub const GREATEST: Dy = Dy {
        low: 0,
        high: 1 << 29,
        shift: 181,
    };

    // The number's mantissa.
    #[inline(always)]
    pub fn mantissa(self) -> i64
        ensures { result ≡ mantissa self.high self.low }
    {
        i64::from(self.high) * HALF + i64::from(self.low)
    }

    /// The number with its mantissa put together.
    #[inline(always)]
    pub fn normal(self) -> Normal
        ensures { normal_units result ≡ units_of self }
    {
        Normal {
            mantissa: self.mantissa(),
            shift: self.shift,
        }
    }

    /// Its sign and its size.
    #[inline(always)]
    pub fn parts(self) -> Parts
        ensures { parts_units result ≡ units_of self }
    {
        let m = self.mantissa();
        Parts {
            negative: m < 0,
            size: spelled(m.unsigned_abs(), self.shift),
        }
    }

    /// Whether the number is 0.
    #[tactic(auto, using(crate::proofs::Mantissas::zero_units, crate::proofs::Mantissas::units_zero, std::proofs::lemmas::Nat::pow_pos))]
    #[inline]
    pub fn is_zero(self) -> bool
        ensures { IsTrue result ↔ (units_of self ≡ pos 0) }
    {
        self.mantissa() == 0
    }

    /// Whether the number is below 0.
    #[inline]
    pub fn is_negative(self) -> bool
        ensures { IsTrue result ↔ (units_of self <ℤ pos 0) }
    {
        self.mantissa() < 0
    }

    /// The opposite number.
    #[inline]
    pub fn neg(self) -> Dy
        ensures { dyadic_of result ≡ negated_dyadic (dyadic_of self) }
    {
        number(-self.mantissa(), self.shift)
    }

    /// The number without its sign.
    #[inline]
    pub fn abs(self) -> Dy
        ensures { units_of result ≡ pos (nat_abs (units_of self)) }
    {
        if self.is_negative() { self.neg() } else { self }
    }
}

impl Normal {
    /// The opposite.
    #[inline(always)]
    pub fn neg(self) -> Normal
        ensures { normal_units result ≡ neg_ℤ (normal_units self) }
    {
        Normal {
            mantissa: -self.mantissa,
            shift: self.shift,
        }
    }
}

impl Ext {
    /// The opposite, also of an infinity.
    #[inline]
    pub fn neg(self) -> Ext
        ensures { ext_of result ≡ negated_ext (ext_of self) }
    {
        match self {
            Ext::NegInf => Ext::PosInf,
            Ext::Fin(a) => Ext::Fin(a.neg()),
            Ext::PosInf => Ext::NegInf,
        }
    }
}
