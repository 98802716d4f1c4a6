// Powers of 2.
ghost use Rattle.std.specs.Prelude.{◌≡◌, ℕ, ◌≤◌, ◌≤ℤ◌, ◌+ℤ◌, pos, neg_ℤ};
ghost use Rattle.dyadic.specs.Rounding.{two_to_minus};
ghost use Rattle.dyadic.specs.Calls.{power_of_two};
ghost use Rattle.dyadic.specs.Views.{dyadic_of};

use crate::dy::Dy;
use crate::number::signed;
use crate::size::Size;

// How many units' bits the power has.
fn power_shift(exponent: i32) -> u32
    requires low { neg_ℤ (pos 120) ≤ℤ exponent }
    requires high { exponent ≤ℤ pos 122 }
    ensures short { result ≤ 242 }
    ensures value { pos result ≡ exponent +ℤ pos 120 }
{
    (exponent + 120) as u32
}

/// 2 to the power of `exponent`, which has to be from -120 to 122.
pub fn pow2(exponent: i32) -> Dy
    requires low { neg_ℤ (pos 120) ≤ℤ exponent }
    requires high { exponent ≤ℤ pos 122 }
    ensures { dyadic_of result ≡ power_of_two exponent }
{
    let shift = power_shift(exponent);
    let size = Size { odd: 1, shift };
    signed(false, size)
}

/// 2 to the power of minus `bits`, which has to be at most 120.
pub fn two_to_minus(bits: u32) -> Dy
    requires { bits ≤ 120 }
    ensures { dyadic_of result ≡ two_to_minus bits }
{
    let size = Size {
        odd: 1,
        shift: 120 - bits,
    };
    signed(false, size)
}
