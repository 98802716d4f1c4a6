// The ends of an axis.
ghost use Rattle.std.specs.Prelude.{◌≡◌, pos};
ghost use Rattle.dyadic.specs.Fraction.{whole};
ghost use Rattle.dyadic.specs.Views.{fraction_of_frac};
ghost use Rattle.declared_box.specs.Calls.{tightened_by};
ghost use Rattle.declared_box.specs.Interval.{no_interval, is_as_tight, tighter, tightened, ended};
ghost use Rattle.declared_box.specs.Views.{side_of, end_of, interval_of};

use crate::table::Side;
use dyadic::{Frac, cmp_frac};

/// The ends of an axis, where it has them.
#[derive(Clone, Copy, Debug)]
pub struct Interval {
    pub low: Option<Frac>,
    pub high: Option<Frac>,
}

// Whether a bound on this side is as tight as another, or tighter.
fn is_as_tight(side: Side, value: Frac, other: Frac) -> bool
    ensures { result
        ≡ is_as_tight (side_of side) (fraction_of_frac value) (fraction_of_frac other) }
{
    match side {
        Side::Lower => cmp_frac(other, value).is_le(),
        Side::Upper => cmp_frac(value, other).is_le(),
    }
}

// The tighter of an end on this side, where there is one, and a bound.
fn tighter(side: Side, end: Option<Frac>, value: Frac) -> Frac
    ensures { fraction_of_frac result
        ≡ tighter (side_of side) (end_of end) (fraction_of_frac value) }
{
    match end {
        Some(end) => {
            if is_as_tight(side, end, value) {
                end
            } else {
                value
            }
        }
        None => value,
    }
}

/// The whole number as a fraction.
pub fn whole(number: u64) -> Frac
    ensures { fraction_of_frac result ≡ whole (pos number) }
{
    Frac {
        n: i128::from(number),
        d: 1,
    }
}

impl Interval {
    /// No end.
    pub fn none() -> Self
        ensures { interval_of result ≡ no_interval }
    {
        Interval {
            low: None,
            high: None,
        }
    }

    /// The ends with one more bound on this side.
    pub fn tightened(self, side: Side, value: Frac) -> Self
        ensures { interval_of result ≡ tightened_by side value self }
    {
        match side {
            Side::Lower => Interval {
                low: Some(tighter(side, self.low, value)),
                high: self.high,
            },
            Side::Upper => Interval {
                low: self.low,
                high: Some(tighter(side, self.high, value)),
            },
        }
    }

    /// The ends, and minus `bound` and `bound` where there is none.
    pub fn ended(self, bound: Option<u32>) -> Self
        ensures { interval_of result ≡ ended bound (interval_of self) }
    {
        let Some(bound) = bound else {
            return self;
        };
        let high = whole(u64::from(bound));
        Interval {
            low: Some(self.low.unwrap_or(high.neg())),
            high: Some(self.high.unwrap_or(high)),
        }
    }
}
