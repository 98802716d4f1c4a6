// Kept numbers in 2^20ths.
ghost use Rattle.std.specs.Prelude.{◌≡◌, ◌/◌, ◌^◌, ◌≤◌};
ghost use Rattle.dyadic.specs.Rounding.{ceiling};
ghost use Rattle.dyadic.specs.Size.{units};
ghost use Rattle.dyadic.specs.Views.{units_of};
ghost use Rattle.root_rewriting.specs.Parts.{IsAbove, IsBelow};
ghost use Rattle.root_rewriting.specs.Whole.{number_of};

use crate::whole::Whole;
use dyadic::{Dy, Size};

// How many bits stand between a 2^20th and a unit.
const PART_BITS: u32 = 100;

/// So many 2^20ths, or minus so many.
#[derive(Clone, Copy)]
pub(crate) struct Parts {
    pub(crate) negative: bool,
    pub(crate) count: Whole,
}

// The quotient by a power of 2, rounded down.
fn quotient_below(odd: u64, bits: u32) -> u64
    requires { bits ≤ 100 }
    ensures { result ≡ odd / 2 ^ bits }
{
    (u128::from(odd) >> bits) as u64
}

// The same rounded up.
fn quotient_above(odd: u64, bits: u32) -> u64
    requires few { odd ≤ 2 ^ 62 }
    requires bits { bits ≤ 100 }
    ensures { result ≡ ceiling odd (2 ^ bits) }
{
    ((u128::from(odd) + ((1u128 << bits) - 1)) >> bits) as u64
}

// How many 2^20ths a size has, rounded down.
fn size_below(size: Size) -> Whole
    ensures { number_of result ≡ units size / 2 ^ 100 }
{
    if size.shift >= PART_BITS {
        return Whole {
            factor: size.odd,
            power: size.shift - PART_BITS,
        };
    }
    Whole {
        factor: quotient_below(size.odd, PART_BITS - size.shift),
        power: 0,
    }
}

// The same rounded up.
fn size_above(size: Size) -> Whole
    ensures { number_of result ≡ ceiling (units size) (2 ^ 100) }
{
    if size.shift >= PART_BITS {
        return Whole {
            factor: size.odd,
            power: size.shift - PART_BITS,
        };
    }
    Whole {
        factor: quotient_above(size.odd, PART_BITS - size.shift),
        power: 0,
    }
}

/// A number rounded down.
pub(crate) fn parts_below(number: Dy) -> Parts
    ensures { IsBelow (units_of number) result }
{
    let parts = number.parts();
    let count = if parts.negative {
        size_above(parts.size)
    } else {
        size_below(parts.size)
    };
    Parts {
        negative: parts.negative,
        count,
    }
}

/// A number rounded up.
pub(crate) fn parts_above(number: Dy) -> Parts
    ensures { IsAbove (units_of number) result }
{
    let parts = number.parts();
    let count = if parts.negative {
        size_below(parts.size)
    } else {
        size_above(parts.size)
    };
    Parts {
        negative: parts.negative,
        count,
    }
}
