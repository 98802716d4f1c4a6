// Tight bounds of an exact result, and what it rounds to.
ghost use Rattle.std.specs.Prelude.{◌≡◌, ℕ, ◌+◌, ◌*◌, ◌/◌, ◌^◌, ◌<◌, ◌≤◌, neg_ℤ};
ghost use Rattle.dyadic.specs.Grid.{IsTight};
ghost use Rattle.dyadic.specs.Size.{units};
ghost use Rattle.dyadic.specs.Signed.{signed_of};
ghost use Rattle.dyadic.specs.Views.{units_of};
ghost use Rattle.dyadic.specs.InUnits.{IsDownAt, IsUpAt};

use crate::dy::Ext;
use crate::number::signed;
use crate::rounding::{round_down, round_up};
use crate::size::Size;

/// Bounds `low * 2^shift` and `high * 2^shift` of the size of an exact result.
#[derive(Clone, Copy)]
pub struct Bracket {
    pub low: u128,
    pub high: u128,
    pub shift: u32,
}

/// The greatest number that is not above the exact result, whose size is bracketed and whose sign is given.
#[inline(always)]
pub fn down(negative: bool, bracket: Bracket) -> Ext
    requires { bracket.shift ≤ 1000 }
    ensures { (n d : ℕ) → 0 < d → IsTight n d bracket.low bracket.high bracket.shift →
        IsDownAt (signed_of negative n) d result }
{
    if negative {
        match round_up(bracket.high, bracket.shift) {
            Some(size) => Ext::Fin(signed(true, size)),
            None => Ext::NegInf,
        }
    } else {
        Ext::Fin(signed(false, round_down(bracket.low, bracket.shift)))
    }
}

/// The least number that is not below the exact result.
#[inline(always)]
pub fn up(negative: bool, bracket: Bracket) -> Ext
    requires { bracket.shift ≤ 1000 }
    ensures { (n d : ℕ) → 0 < d → IsTight n d bracket.low bracket.high bracket.shift →
        IsUpAt (signed_of negative n) d result }
{
    down(!negative, bracket).neg()
}
