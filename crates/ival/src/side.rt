// On which side of 0 an interval lies.
ghost use Rattle.std.specs.Prelude.{◌≡◌};
ghost use Rattle.dyadic.specs.Rounding.{end_of};
ghost use Rattle.dyadic.specs.End.{end_sign};
ghost use Rattle.interval_model.specs.Interval.{is_below, is_above};
ghost use Rattle.dyadic.specs.Views.{ext_of};
ghost use Rattle.ival.specs.Sides.{LiesOn};

use crate::ends::Ends;
use dyadic::{Ext, Sign, sign_of};

/// Where an interval lies: nowhere below 0, nowhere above 0, or perhaps on both sides.
#[derive(Clone, Copy, PartialEq, Eq, Debug)]
pub enum Side {
    Above,
    Below,
    Across,
}

/// Whether an end is below 0.
pub fn is_below(end: Ext) -> bool
    ensures { result ≡ is_below (end_sign (end_of (ext_of end))) }
{
    match sign_of(end) {
        Sign::Below => true,
        Sign::Nought => false,
        Sign::Above => false,
    }
}

/// Whether an end is above 0.
pub fn is_above(end: Ext) -> bool
    ensures { result ≡ is_above (end_sign (end_of (ext_of end))) }
{
    match sign_of(end) {
        Sign::Below => false,
        Sign::Nought => false,
        Sign::Above => true,
    }
}

/// The side of 0 on which an interval lies.
pub fn side_of(ends: Ends) -> Side
    ensures { LiesOn result (end_of (ext_of ends.low)) (end_of (ext_of ends.high)) }
{
    if !is_below(ends.low) {
        Side::Above
    } else if !is_above(ends.high) {
        Side::Below
    } else {
        Side::Across
    }
}
