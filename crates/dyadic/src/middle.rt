// Middles.
ghost use Rattle.std.specs.Prelude.{◌≡◌, ℕ, ◌^◌, ◌<◌, ◌≤◌, ◌+ℤ◌, nat_abs};
ghost use Rattle.dyadic.specs.Rounding.{mid};
ghost use Rattle.dyadic.specs.InUnits.{IsDownAt};
ghost use Rattle.dyadic.specs.Mantissa.{IsWithinStep};
ghost use Rattle.dyadic.specs.Views.{normal_units, dyadic_of};

use crate::dy::{Dy, Ext};
use crate::normal::Normal;
use crate::steps::{Steps, round_steps};
use crate::sum::sum_of;

// Half the sum of two numbers, in steps.
#[inline(always)]
fn half_sum(a: Normal, b: Normal) -> Steps
    ensures few { nat_abs result.count < 2 ^ 63 }
    ensures short { result.shift ≤ 181 }
    ensures within { IsWithinStep (normal_units a +ℤ normal_units b) 2 result.count result.shift }
{
    let sum = sum_of(a, b);
    if sum.shift > 0 {
        Steps {
            count: sum.count,
            shift: sum.shift - 1,
        }
    } else {
        Steps {
            count: sum.count >> 1,
            shift: 0,
        }
    }
}

// Half the sum of two numbers, rounded down.
fn half_of(a: Normal, b: Normal) -> Ext
    ensures { IsDownAt (normal_units a +ℤ normal_units b) 2 result }
{
    round_steps(half_sum(a, b))
}

/// Half the sum of two numbers, rounded down.
pub fn mid(a: Dy, b: Dy) -> Dy
    ensures { dyadic_of result ≡ mid (dyadic_of a) (dyadic_of b) }
{
    match half_of(a.normal(), b.normal()) {
        Ext::Fin(middle) => middle,
        Ext::NegInf => unreachable!(),
        Ext::PosInf => unreachable!(),
    }
}
