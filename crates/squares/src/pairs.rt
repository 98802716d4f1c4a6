// What the ranges of a combination's atoms come to.
ghost use Rattle.std.specs.Prelude.{◌≡◌, length, map};
ghost use Rattle.cover_line.specs.Views.{multipliers_of};
ghost use Rattle.ival.specs.Views.{interval_of};
ghost use Rattle.squares.specs.Pairs.{sum_of_ranges};

use crate::number::{nought, only};
use dyadic::Dy;
use ival::Ival;

/// The sum of the ranges, each times its multiplier, from the last one to the first.
pub fn sum_of_ranges(multipliers: &[(u32, Dy)], ranges: &[Ival]) -> Ival
    requires { length ranges.now ≡ length multipliers.now }
    ensures { interval_of result ≡
        sum_of_ranges (multipliers_of multipliers.now) (map interval_of ranges.now) }
{
    let mut sum = nought();
    for i in (0..multipliers.len()).rev() {
        let pair = multipliers[i];
        sum = sum.add(only(pair.1).mul(ranges[i]));
    }
    sum
}
