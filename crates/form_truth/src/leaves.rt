// The truth of Bool values over a space.
ghost use Rattle.std.specs.Prelude.{◌≡◌};
ghost use Rattle.cover_model.specs.State.{domain_allows, domain_is};
ghost use Rattle.interval_model.specs.Space.{allows};
ghost use Rattle.ival.specs.SpaceViews.{space_of, domain_of};

use ival::{Domain, Space, Truths};

// Whether the value is left to a Bool domain.
fn allows(domain: Domain, value: bool) -> bool
    ensures { result ≡ allows (domain_of domain) value }
{
    match domain {
        Domain::Real(_) => false,
        Domain::Bool(Truths::Either) => true,
        Domain::Bool(Truths::True) => value,
        Domain::Bool(Truths::False) => !value,
    }
}

/// Whether the value is left to the Bool axis.
pub fn domain_allows(space: &Space, axis: u32, value: bool) -> bool
    ensures { result ≡ domain_allows (space_of space.now) axis value }
{
    let axis = axis as usize;
    if axis < space.len() {
        allows(space.get(axis), value)
    } else {
        false
    }
}

/// Whether the value is the only one that is left to the Bool axis.
pub fn domain_is(space: &Space, axis: u32, value: bool) -> bool
    ensures { result ≡ domain_is (space_of space.now) axis value }
{
    domain_allows(space, axis, value) && !domain_allows(space, axis, !value)
}
