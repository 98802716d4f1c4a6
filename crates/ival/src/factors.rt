// The ends of two factors that make the least product and the greatest, by the sides of 0 on which the factors lie.
ghost use Rattle.std.specs.Prelude.{◌≡◌};
ghost use Rattle.dyadic.specs.Views.{ext_of};
ghost use Rattle.ival.specs.Sides.{first_of_least, second_of_least, first_of_greatest, second_of_greatest};

use crate::side::Side;
use dyadic::Ext;

/// The end of the first factor whose product is the least, for intervals on these sides that are not both across 0.
#[inline(always)]
pub fn first_of_least(first: Side, second: Side, low: Ext, high: Ext) -> Ext
    ensures { ext_of result ≡ first_of_least first second (ext_of low) (ext_of high) }
{
    match (first, second) {
        (Side::Above, Side::Above) => low,
        (Side::Above, Side::Below) => high,
        (Side::Above, Side::Across) => high,
        (Side::Below, Side::Above) => low,
        (Side::Below, Side::Below) => high,
        (Side::Below, Side::Across) => low,
        (Side::Across, Side::Above) => low,
        (Side::Across, Side::Below) => high,
        (Side::Across, Side::Across) => low,
    }
}

/// The end of the second factor whose product is the least, for intervals on these sides that are not both across 0.
#[inline(always)]
pub fn second_of_least(first: Side, second: Side, low: Ext, high: Ext) -> Ext
    ensures { ext_of result ≡ second_of_least first second (ext_of low) (ext_of high) }
{
    match (first, second) {
        (Side::Above, Side::Above) => low,
        (Side::Above, Side::Below) => low,
        (Side::Above, Side::Across) => low,
        (Side::Below, Side::Above) => high,
        (Side::Below, Side::Below) => high,
        (Side::Below, Side::Across) => high,
        (Side::Across, Side::Above) => high,
        (Side::Across, Side::Below) => low,
        (Side::Across, Side::Across) => high,
    }
}

/// The end of the first factor whose product is the greatest, for intervals on these sides that are not both across 0.
#[inline(always)]
pub fn first_of_greatest(first: Side, second: Side, low: Ext, high: Ext) -> Ext
    ensures { ext_of result ≡ first_of_greatest first second (ext_of low) (ext_of high) }
{
    match (first, second) {
        (Side::Above, Side::Above) => high,
        (Side::Above, Side::Below) => low,
        (Side::Above, Side::Across) => high,
        (Side::Below, Side::Above) => high,
        (Side::Below, Side::Below) => low,
        (Side::Below, Side::Across) => low,
        (Side::Across, Side::Above) => high,
        (Side::Across, Side::Below) => low,
        (Side::Across, Side::Across) => low,
    }
}

/// The end of the second factor whose product is the greatest, for intervals on these sides that are not both across 0.
#[inline(always)]
pub fn second_of_greatest(first: Side, second: Side, low: Ext, high: Ext) -> Ext
    ensures { ext_of result ≡ second_of_greatest first second (ext_of low) (ext_of high) }
{
    match (first, second) {
        (Side::Above, Side::Above) => high,
        (Side::Above, Side::Below) => high,
        (Side::Above, Side::Across) => high,
        (Side::Below, Side::Above) => low,
        (Side::Below, Side::Below) => low,
        (Side::Below, Side::Across) => low,
        (Side::Across, Side::Above) => high,
        (Side::Across, Side::Below) => low,
        (Side::Across, Side::Across) => low,
    }
}
