// Roots.
ghost use Rattle.std.specs.Prelude.{◌≡◌, ℕ, ◌+◌, ◌-◌, ◌*◌, ◌%◌, ◌^◌, ◌<◌, ◌≤◌, pos};
ghost use Rattle.std.specs.Int.{leading_zeros, w64};
ghost use Rattle.dyadic.specs.Rounding.{size_below, size_above, whole_root, root_above, root_down, root_up};
ghost use Rattle.dyadic.specs.Grid.{IsTightRoot};
ghost use Rattle.dyadic.specs.Size.{units};
ghost use Rattle.dyadic.specs.Views.{dyadic_of, ext_of};
ghost use Rattle.dyadic.specs.Calls.{HasRoot, root_ext};

use crate::bracket::Bracket;
use crate::dy::Ext;
use crate::exact_root::root_of;
use crate::number::signed;
use crate::product::UNIT_BITS;
use crate::rounding::{round_down, round_up};
use crate::size::Size;

// By how many bits the odd part is to be raised before the root, so that an even number of bits is left.
fn raised_by(a: Size) -> u32
    requires { 0 < a.odd }
    ensures within { result ≤ a.shift + 120 }
    ensures even { (a.shift + 120 - result) % 2 ≡ 0 }
    ensures few { result ≤ leading_zeros w64 a.odd + 62 }
    ensures many { result < a.shift + 120 → leading_zeros w64 a.odd + 61 ≤ result }
{
    let top = a.shift + UNIT_BITS;
    let room = a.odd.leading_zeros() + 62;
    if room >= top {
        top
    } else if (top - room) % 2 == 0 {
        room
    } else {
        room - 1
    }
}

// `square * 2^(2 * shift)`, with a square of many bits where there is a shift.
#[derive(Clone, Copy)]
struct Square {
    square: u128,
    shift: u32,
}

#[tactic(auto, using(crate::proofs::Roots::square_shift, crate::proofs::Roots::square_value, crate::proofs::Roots::square_large))]
fn square_of(a: Size) -> Square
    requires { 0 < a.odd }
    ensures short { result.shift ≤ 1000 }
    ensures value { result.square * 2 ^ (2 * result.shift) ≡ units a * 2 ^ 120 }
    ensures large { 0 < result.shift → 2 ^ 124 ≤ result.square }
{
    let by = raised_by(a);
    Square {
        square: u128::from(a.odd) << by,
        shift: (a.shift + UNIT_BITS - by) / 2,
    }
}

// Bounds of the root of a size.
fn root_bracket(a: Size) -> Bracket
    ensures short { result.shift ≤ 1000 }
    ensures tight { IsTightRoot (units a * 2 ^ 120) result.low result.high result.shift }
{
    if a.odd == 0 {
        return Bracket {
            low: 0,
            high: 0,
            shift: 0,
        };
    }
    let square = square_of(a);
    let low = root_of(square.square);
    Bracket {
        low,
        high: if low * low == square.square {
            low
        } else {
            low + 1
        },
        shift: square.shift,
    }
}

// The root of a size, rounded down.
fn size_down(a: Size) -> Size
    ensures { units result ≡ size_below (whole_root (units a * 2 ^ 120)) }
{
    let bracket = root_bracket(a);
    round_down(bracket.low, bracket.shift)
}

// The root of a size, rounded up.
fn size_up(a: Size) -> Size
    ensures { units result ≡
        size_above (root_above (units a * 2 ^ 120) (whole_root (units a * 2 ^ 120))) }
{
    let bracket = root_bracket(a);
    match round_up(bracket.high, bracket.shift) {
        Some(size) => size,
        None => unreachable!(),
    }
}

/// The square root, rounded down.
pub fn sqrt_down(a: Ext) -> Ext
    requires { HasRoot (ext_of a) }
    ensures { ext_of result ≡ root_ext root_down (ext_of a) }
{
    match a {
        Ext::Fin(a) => Ext::Fin(signed(false, size_down(a.parts().size))),
        end => end,
    }
}

/// The square root, rounded up.
pub fn sqrt_up(a: Ext) -> Ext
    requires { HasRoot (ext_of a) }
    ensures { ext_of result ≡ root_ext root_up (ext_of a) }
{
    match a {
        Ext::Fin(a) => Ext::Fin(signed(false, size_up(a.parts().size))),
        end => end,
    }
}
