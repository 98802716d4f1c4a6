// Intervals, and the operations that need no product.
ghost use Rattle.std.specs.Prelude.{◌≡◌, ◌≢◌, MatchOption, IsTrue, if◌then◌else◌};
ghost use Rattle.dyadic.specs.Rounding.{Dyadic, finite, exact, down, up, ext_at_most};
ghost use Rattle.interval_model.specs.Interval.{between, nothing, everything, interval_sum, interval_negated, met, hull, within, holds_fraction, inverse_sum, is_nothing};
ghost use Rattle.dyadic.specs.End.{lesser_ext, greater_ext};
ghost use Rattle.dyadic.specs.Views.{ext_of, dyadic_of, fraction_of_frac};
ghost use Rattle.ival.specs.Views.{interval_of, ends_of, range_of, HasNoRange, span, around};
ghost use Rattle.ival.specs.Proper.{is_low, is_high};

use crate::domain::Range;
use crate::ends::{Ends, Ival};
use dyadic::{Dy, Ext, Frac, add_down, add_up, at_most, down_frac, up_frac};

/// The lesser of two ends.
pub fn lesser(a: Ext, b: Ext) -> Ext
    ensures { ext_of result ≡ lesser_ext (ext_of a) (ext_of b) }
{
    if at_most(a, b) { a } else { b }
}

/// The greater of two ends.
pub fn greater(a: Ext, b: Ext) -> Ext
    ensures { ext_of result ≡ greater_ext (ext_of a) (ext_of b) }
{
    if at_most(a, b) { b } else { a }
}

// The sum of two intervals that are not empty.
fn sum_of_ends(a: Ends, b: Ends) -> Ends
    ensures { ends_of result ≡ interval_sum (ends_of a) (ends_of b) }
{
    Ends {
        low: add_down(a.low, b.low),
        high: add_up(a.high, b.high),
    }
}

// The opposites of an interval that is not empty.
fn negated_ends(a: Ends) -> Ends
    ensures { ends_of result ≡ interval_negated (ends_of a) }
{
    Ends {
        low: a.high.neg(),
        high: a.low.neg(),
    }
}

// The hull of two intervals that are not empty.
fn hull_of_ends(a: Ends, b: Ends) -> Ends
    ensures { ends_of result ≡ hull (ends_of a) (ends_of b) }
{
    Ends {
        low: lesser(a.low, b.low),
        high: greater(a.high, b.high),
    }
}

impl Ival {
    /// All numbers.
    pub fn everything() -> Ival
        ensures { interval_of result ≡ everything }
    {
        Ival::Between(Ends {
            low: Ext::NegInf,
            high: Ext::PosInf,
        })
    }

    /// What lies between two ends: nothing where they cross.
    pub fn new(low: Ext, high: Ext) -> Ival
        requires low { IsTrue (is_low (ext_of low)) }
        requires high { IsTrue (is_high (ext_of high)) }
        ensures { interval_of result ≡ span (ext_of low) (ext_of high) }
    {
        if at_most(low, high) {
            Ival::Between(Ends { low, high })
        } else {
            Ival::Empty
        }
    }

    /// The least interval around a fraction.
    pub fn around(fraction: Frac) -> Ival
        ensures { interval_of result ≡ around (fraction_of_frac fraction) }
    {
        Ival::Between(Ends {
            low: down_frac(fraction),
            high: up_frac(fraction),
        })
    }

    /// Whether the interval is empty.
    pub fn is_empty(self) -> bool
        ensures { result ≡ is_nothing (interval_of self) }
    {
        match self {
            Ival::Empty => true,
            Ival::Between(_) => false,
        }
    }

    /// The sums of a number of each.
    pub fn add(self, other: Ival) -> Ival
        ensures { interval_of result ≡ interval_sum (interval_of self) (interval_of other) }
    {
        match (self, other) {
            (Ival::Between(a), Ival::Between(b)) => Ival::Between(sum_of_ends(a, b)),
            _ => Ival::Empty,
        }
    }

    /// The opposites of its numbers.
    pub fn neg(self) -> Ival
        ensures { interval_of result ≡ interval_negated (interval_of self) }
    {
        match self {
            Ival::Between(a) => Ival::Between(negated_ends(a)),
            Ival::Empty => Ival::Empty,
        }
    }

    /// From a number to a number; none where the interval is empty or unbounded.
    pub fn range(self) -> Option<Range>
        ensures { MatchOption result (HasNoRange (interval_of self)) (λ r.
            interval_of self ≡ range_of r) }
    {
        let Ival::Between(ends) = self else {
            return None;
        };
        match (ends.low, ends.high) {
            (Ext::Fin(low), Ext::Fin(high)) => Some(Range { low, high }),
            _ => None,
        }
    }

    /// The numbers of both.
    pub fn meet(self, other: Ival) -> Ival
        ensures { interval_of result ≡ met (interval_of self) (interval_of other) }
    {
        match (self, other) {
            (Ival::Between(a), Ival::Between(b)) => met_ends(a, b.low, b.high),
            _ => Ival::Empty,
        }
    }

    /// The least interval around both.
    pub fn hull(self, other: Ival) -> Ival
        ensures { interval_of result ≡ hull (interval_of self) (interval_of other) }
    {
        match (self, other) {
            (Ival::Between(a), Ival::Between(b)) => Ival::Between(hull_of_ends(a, b)),
            (Ival::Empty, b) => b,
            (a, Ival::Empty) => a,
        }
    }

    /// Whether the number lies in the interval.
    pub fn contains(self, value: Dy) -> bool
        ensures { result ≡ holds_fraction (interval_of self) (exact (dyadic_of value)) }
    {
        match self {
            Ival::Empty => false,
            Ival::Between(a) => {
                at_most(a.low, Ext::Fin(value)) && at_most(Ext::Fin(value), a.high)
            }
        }
    }

    /// Whether the interval lies within another.
    pub fn within(self, other: Ival) -> bool
        ensures { result ≡ within (interval_of self) (interval_of other) }
    {
        match (self, other) {
            (Ival::Empty, _) => true,
            (Ival::Between(_), Ival::Empty) => false,
            (Ival::Between(a), Ival::Between(b)) => {
                at_most(b.low, a.low) && at_most(a.high, b.high)
            }
        }
    }

    /// What a sum that lies in this interval leaves to an operand, where the other one lies in `other`.
    pub fn inv_add(self, other: Ival) -> Ival
        ensures { interval_of result ≡ inverse_sum (interval_of self) (interval_of other) }
    {
        self.add(other.neg())
    }
}

/// The numbers of an interval that lie between two ends, which may cross.
pub fn met_ends(a: Ends, low: Ext, high: Ext) -> Ival
    requires low { IsTrue (is_low (ext_of low)) }
    requires high { IsTrue (is_high (ext_of high)) }
    ensures { interval_of result ≡ met (ends_of a) (between (ext_of low) (ext_of high)) }
{
    let from = greater(a.low, low);
    let to = lesser(a.high, high);
    if at_most(from, to) {
        Ival::Between(Ends {
            low: from,
            high: to,
        })
    } else {
        Ival::Empty
    }
}
