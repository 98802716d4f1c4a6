// Sides of axes.
ghost use Rattle.std.specs.Prelude.{◌≡◌, ◌<◌, ◌≤◌, not, Some, None, IsTrue};
ghost use Rattle.dyadic.specs.Fraction.{at_most, difference_of};
ghost use Rattle.dyadic.specs.Rounding.{exact, two_to_minus, mid};
ghost use Rattle.interval_model.specs.Space.{real_domain, can_be_halved};
ghost use Rattle.dyadic.specs.Views.{dyadic_of};
ghost use Rattle.cover_model.specs.Honest.{is_small, is_small_domain};
ghost use Rattle.ival.specs.SpaceViews.{domain_of, space_of};

use dyadic::{Ext, add_down, at_most, mid, two_to_minus};
use ival::{Domain, Range, Space, Truths};

/// Whether the side is at most 2 to the power of minus `bits`. A sum that is rounded down is not below a number
/// exactly where the sum itself is not.
pub fn has_small_side(range: Range, bits: u32) -> bool
    requires { bits ≤ 120 }
    ensures { let side =
        difference_of (exact (dyadic_of range.high)) (exact (dyadic_of range.low)) in
        result ≡ at_most side (exact (two_to_minus bits)) }
{
    at_most(
        Ext::Fin(range.high),
        add_down(Ext::Fin(range.low), Ext::Fin(two_to_minus(bits))),
    )
}

/// Whether the middle lies strictly between the ends.
pub fn can_be_halved(range: Range) -> bool
    ensures { result ≡ can_be_halved (real_domain (dyadic_of range.low) (dyadic_of range.high)) }
{
    let middle = mid(range.low, range.high);
    !at_most(Ext::Fin(middle), Ext::Fin(range.low))
        && !at_most(Ext::Fin(range.high), Ext::Fin(middle))
}

// Whether a Real axis can't be halved or has a small side, or a Bool axis is decided.
fn is_small_domain(domain: Domain, bits: u32) -> bool
    requires { bits ≤ 120 }
    ensures { result ≡ is_small_domain bits (domain_of domain) }
{
    match domain {
        Domain::Real(range) => !can_be_halved(range) || has_small_side(range, bits),
        Domain::Bool(Truths::Either) => false,
        Domain::Bool(Truths::True) => true,
        Domain::Bool(Truths::False) => true,
    }
}

/// Whether each axis that can be halved has a side of at most 2 to the power of minus `bits`, and every Bool is
/// decided.
pub fn is_small(space: &Space, bits: u32) -> bool
    requires { bits ≤ 120 }
    ensures { result ≡ is_small bits (space_of space.now) }
{
    for axis in 0..space.len() {
        if !is_small_domain(space.get(axis), bits) {
            return false;
        }
    }
    true
}
