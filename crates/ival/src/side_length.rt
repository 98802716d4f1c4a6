// Sides of Real axes, exactly, and the widest axis.
ghost use Rattle.std.specs.Prelude.{◌≡◌, ℕ, ◌-◌, ◌≤◌, pos, neg_ℤ, ◌+ℤ◌, None, Some};
ghost use Rattle.dyadic.specs.Fraction.{difference_of};
ghost use Rattle.dyadic.specs.Rounding.{exact};
ghost use Rattle.interval_model.specs.Space.{can_be_halved, real_domain, side, better};
ghost use Rattle.dyadic.specs.Views.{units_of, dyadic_of};
ghost use Rattle.ival.specs.SpaceViews.{domain_of};
ghost use Rattle.ival.specs.WideViews.{wide_value, side_of_units};
ghost use Rattle.ival.specs.BestViews.{best_of};

use crate::best::Best;
use crate::domain::{Domain, Range};
use crate::wide::{wide_at_most, wide_difference, wide_of, wide_sum};
use crate::wide_parts::Wide;
use dyadic::{Ext, at_most, mid};

// How many units there are between the ends of a range.
fn length_of(range: Range) -> Wide
    ensures { pos (wide_value result) ≡ (units_of range.high +ℤ neg_ℤ (units_of range.low)) }
{
    let lower = range.low.parts();
    let upper = range.high.parts();
    let low = wide_of(lower.size);
    let high = wide_of(upper.size);
    match (lower.negative, upper.negative) {
        (false, false) => wide_difference(high, low),
        (true, false) => wide_sum(low, high),
        (true, true) => wide_difference(low, high),
        (false, true) => unreachable!(),
    }
}

// Whether the middle of a range lies strictly between its ends.
fn can_be_halved(range: Range) -> bool
    ensures { result ≡ can_be_halved (real_domain (dyadic_of range.low) (dyadic_of range.high)) }
{
    let middle = mid(range.low, range.high);
    !at_most(Ext::Fin(middle), Ext::Fin(range.low))
        && !at_most(Ext::Fin(range.high), Ext::Fin(middle))
}

// The better of an axis found so far and one with this side.
fn better(best: Option<Best>, axis: usize, side: Wide) -> Option<Best>
    ensures { best_of result ≡ better (best_of best) axis (Some (side_of_units (wide_value side))) }
{
    match best {
        None => Some(Best { axis, side }),
        Some(old) => {
            if wide_at_most(side, old.side) {
                Some(old)
            } else {
                Some(Best { axis, side })
            }
        }
    }
}

/// The better of an axis found so far and this one.
pub fn with_axis(best: Option<Best>, axis: usize, domain: Domain) -> Option<Best>
    ensures { best_of result ≡ better (best_of best) axis (side (domain_of domain)) }
{
    match domain {
        Domain::Bool(_) => best,
        Domain::Real(range) => {
            if can_be_halved(range) {
                better(best, axis, length_of(range))
            } else {
                best
            }
        }
    }
}
