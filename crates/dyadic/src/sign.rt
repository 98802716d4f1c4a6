// Signs, and the products of infinities by signs.
ghost use Rattle.std.specs.Prelude.{◌≡◌, ℕ, pos};
ghost use Rattle.dyadic.specs.Rounding.{end_of};
ghost use Rattle.dyadic.specs.End.{sign_of, end_sign, infinite, rounded_down, rounded_up};
ghost use Rattle.dyadic.specs.Views.{units_of, ext_of};
ghost use Rattle.dyadic.specs.SignView.{sign_view};

use crate::dy::{Dy, Ext};

/// Below 0, 0, or above.
#[derive(Clone, Copy, PartialEq, Eq, Debug)]
pub enum Sign {
    Below,
    Nought,
    Above,
}

// The sign of a number.
#[inline(always)]
fn number_sign(a: Dy) -> Sign
    ensures { sign_view result ≡ sign_of (units_of a) }
{
    if a.is_negative() {
        Sign::Below
    } else if a.is_zero() {
        Sign::Nought
    } else {
        Sign::Above
    }
}

/// The sign of an end.
pub fn sign_of(a: Ext) -> Sign
    ensures { sign_view result ≡ end_sign (end_of (ext_of a)) }
{
    match a {
        Ext::NegInf => Sign::Below,
        Ext::Fin(a) => number_sign(a),
        Ext::PosInf => Sign::Above,
    }
}

/// An infinite product, by the signs of its factors; 0 times an infinity is 0.
pub fn infinite_product(a: Sign, b: Sign) -> Ext
    ensures down { ext_of result ≡ rounded_down (infinite (sign_view a) (sign_view b)) }
    ensures up { ext_of result ≡ rounded_up (infinite (sign_view a) (sign_view b)) }
{
    match (a, b) {
        (Sign::Nought, _) | (_, Sign::Nought) => Ext::Fin(Dy::ZERO),
        (Sign::Above, Sign::Above) | (Sign::Below, Sign::Below) => Ext::PosInf,
        (Sign::Above, Sign::Below) | (Sign::Below, Sign::Above) => Ext::NegInf,
    }
}
