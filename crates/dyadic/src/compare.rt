// The order of the numbers.
ghost use Rattle.std.specs.Prelude.{◌≡◌};
ghost use Rattle.dyadic.specs.Fraction.{at_most};
ghost use Rattle.dyadic.specs.Rounding.{exact, ext_at_most};
ghost use Rattle.dyadic.specs.Calls.{order_of};
ghost use Rattle.dyadic.specs.Views.{dyadic_of, ext_of};

use crate::dy::{Dy, Ext};
use std::cmp::Ordering;

// Whether a number is at most another: the one with the greater shift has the greater size.
#[inline(always)]
fn number_at_most(a: Dy, b: Dy) -> bool
    ensures { result ≡ at_most (exact (dyadic_of a)) (exact (dyadic_of b)) }
{
    if a.shift == b.shift {
        a.mantissa() <= b.mantissa()
    } else if a.shift < b.shift {
        !b.is_negative()
    } else {
        a.is_negative()
    }
}

/// Whether `a` is at most `b`.
pub fn at_most(a: Ext, b: Ext) -> bool
    ensures { result ≡ ext_at_most (ext_of a) (ext_of b) }
{
    match (a, b) {
        (Ext::Fin(a), Ext::Fin(b)) => number_at_most(a, b),
        (Ext::NegInf, _) | (_, Ext::PosInf) => true,
        (_, Ext::NegInf) | (Ext::PosInf, _) => false,
    }
}

/// The order of numbers and infinities.
pub fn cmp(a: Ext, b: Ext) -> Ordering
    ensures { result ≡
        order_of (ext_at_most (ext_of a) (ext_of b)) (ext_at_most (ext_of b) (ext_of a)) }
{
    match (at_most(a, b), at_most(b, a)) {
        (true, true) => Ordering::Equal,
        (true, false) => Ordering::Less,
        (false, _) => Ordering::Greater,
    }
}
