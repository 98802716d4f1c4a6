// Intervals of one number.
ghost use Rattle.std.specs.Prelude.{◌≡◌};
ghost use Rattle.dyadic.specs.Views.{dyadic_of};
ghost use Rattle.interval_model.specs.Interval.{misses_nought};
ghost use Rattle.ival.specs.Views.{interval_of};
ghost use Rattle.square_model.specs.Polynomial.{only, nought_alone, one_alone, minus_one_alone};

use dyadic::{Dy, Ext, pow2};
use ival::{Ends, Ival};

/// Whether the number is another one than 0.
pub fn is_other_than_nought(number: Dy) -> bool
    ensures { result ≡ misses_nought (only (dyadic_of number)) }
{
    !number.is_zero()
}

/// The number alone.
pub fn only(number: Dy) -> Ival
    ensures { interval_of result ≡ only (dyadic_of number) }
{
    let end = Ext::Fin(number);
    Ival::Between(Ends {
        low: end,
        high: end,
    })
}

/// 0 alone.
pub fn nought() -> Ival
    ensures { interval_of result ≡ nought_alone }
{
    only(Dy::ZERO)
}

/// 1 alone.
pub fn one() -> Ival
    ensures { interval_of result ≡ one_alone }
{
    only(pow2(0))
}

/// -1 alone.
pub fn minus_one() -> Ival
    ensures { interval_of result ≡ minus_one_alone }
{
    only(pow2(0).neg())
}
