// Sums of numbers.
ghost use Rattle.std.specs.Prelude.{◌≡◌};
ghost use Rattle.dyadic.specs.Fraction.{sum_of};
ghost use Rattle.dyadic.specs.Rounding.{exact, down, up, end_of};
ghost use Rattle.dyadic.specs.End.{end_sum, rounded_down, rounded_up};
ghost use Rattle.dyadic.specs.Views.{dyadic_of, ext_of};
ghost use Rattle.dyadic.specs.Calls.{AreAddable};

use crate::dy::{Dy, Ext};
use crate::steps::round_steps;
use crate::sum::sum_of;

// The sum of two numbers, rounded down.
#[inline(always)]
fn finite_down(a: Dy, b: Dy) -> Ext
    ensures { ext_of result ≡ down (sum_of (exact (dyadic_of a)) (exact (dyadic_of b))) }
{
    let sum = sum_of(a.normal(), b.normal());
    round_steps(sum)
}

// The sum of two numbers, rounded up: the opposite of the opposites' sum, rounded down.
#[inline(always)]
fn finite_up(a: Dy, b: Dy) -> Ext
    ensures { ext_of result ≡ up (sum_of (exact (dyadic_of a)) (exact (dyadic_of b))) }
{
    let sum = sum_of(a.normal().neg(), b.normal().neg());
    round_steps(sum).neg()
}

/// The sum, rounded down.
pub fn add_down(a: Ext, b: Ext) -> Ext
    requires { AreAddable (ext_of a) (ext_of b) }
    ensures { ext_of result ≡ rounded_down (end_sum (end_of (ext_of a)) (end_of (ext_of b))) }
{
    match a {
        Ext::NegInf => Ext::NegInf,
        Ext::PosInf => Ext::PosInf,
        Ext::Fin(a) => match b {
            Ext::NegInf => Ext::NegInf,
            Ext::PosInf => Ext::PosInf,
            Ext::Fin(b) => finite_down(a, b),
        },
    }
}

/// The sum, rounded up.
pub fn add_up(a: Ext, b: Ext) -> Ext
    requires { AreAddable (ext_of a) (ext_of b) }
    ensures { ext_of result ≡ rounded_up (end_sum (end_of (ext_of a)) (end_of (ext_of b))) }
{
    match a {
        Ext::NegInf => Ext::NegInf,
        Ext::PosInf => Ext::PosInf,
        Ext::Fin(a) => match b {
            Ext::NegInf => Ext::NegInf,
            Ext::PosInf => Ext::PosInf,
            Ext::Fin(b) => finite_up(a, b),
        },
    }
}
