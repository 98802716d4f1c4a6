// The ranges of quotients.
ghost use Rattle.std.specs.Prelude.{◌≡◌};
ghost use Rattle.ival.specs.Views.{interval_of};
ghost use Rattle.script_roots.specs.Ranges.{avoids_nought, quotient_range};

use dyadic::{Sign, sign_of};
use ival::Ival;

/// Whether 0 does not lie in an interval.
pub fn avoids_nought(range: Ival) -> bool
    ensures { result ≡ avoids_nought (interval_of range) }
{
    match range {
        Ival::Empty => true,
        Ival::Between(ends) => {
            matches!(sign_of(ends.high), Sign::Below) || matches!(sign_of(ends.low), Sign::Above)
        }
    }
}

/// In what a quotient lies whose dividend and divisor lie in these: everywhere where the divisor's holds 0.
pub fn quotient_range(dividend: Ival, divisor: Ival) -> Ival
    ensures { interval_of result ≡
        quotient_range (interval_of dividend) (interval_of divisor) }
{
    if avoids_nought(divisor) {
        dividend.inv_mul(divisor)
    } else {
        Ival::everything()
    }
}
