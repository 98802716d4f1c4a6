// Parts of a domain, its middle, and whether it lies within another.
ghost use Rattle.std.specs.Prelude.{◌≡◌, ◌↔◌, IsTrue};
ghost use Rattle.interval_model.specs.Space.{real_domain, domain_interval, lower_part, upper_part, keep, allows, holds_number, middle_domain, domain_within};
ghost use Rattle.dyadic.specs.Rounding.{mid};
ghost use Rattle.dyadic.specs.Views.{dyadic_of};
ghost use Rattle.ival.specs.Views.{interval_of};
ghost use Rattle.ival.specs.SpaceViews.{domain_of};

use crate::domain::{Domain, Range, Truths};
use crate::ends::{Ends, Ival};
use dyadic::{Dy, Ext, at_most, mid};

/// The numbers that are left to a Real axis, and nothing of a Bool axis.
pub fn domain_interval(domain: Domain) -> Ival
    ensures { interval_of result ≡ domain_interval (domain_of domain) }
{
    match domain {
        Domain::Real(range) => Ival::Between(Ends {
            low: Ext::Fin(range.low),
            high: Ext::Fin(range.high),
        }),
        Domain::Bool(_) => Ival::Empty,
    }
}

/// Whether this range is what is left to an axis.
pub fn is_range(domain: Domain, range: Range) -> bool
    ensures { IsTrue result ↔ (domain_of domain ≡ domain_of (Domain.Real range)) }
{
    match domain {
        Domain::Real(own) => own.low == range.low && own.high == range.high,
        Domain::Bool(_) => false,
    }
}

/// The numbers up to `cut`, which has to be one of them.
pub fn lower_part(domain: Domain, cut: Dy) -> Domain
    requires { IsTrue (holds_number (dyadic_of cut) (domain_of domain)) }
    ensures { domain_of result ≡ lower_part (dyadic_of cut) (domain_of domain) }
{
    match domain {
        Domain::Real(range) => Domain::Real(Range {
            low: range.low,
            high: cut,
        }),
        Domain::Bool(truths) => Domain::Bool(truths),
    }
}

/// The numbers from `cut` on, which has to be one of them.
pub fn upper_part(domain: Domain, cut: Dy) -> Domain
    requires { IsTrue (holds_number (dyadic_of cut) (domain_of domain)) }
    ensures { domain_of result ≡ upper_part (dyadic_of cut) (domain_of domain) }
{
    match domain {
        Domain::Real(range) => Domain::Real(Range {
            low: cut,
            high: range.high,
        }),
        Domain::Bool(truths) => Domain::Bool(truths),
    }
}

/// The one truth value, which has to be left.
pub fn kept(domain: Domain, value: bool) -> Domain
    requires { IsTrue (allows (domain_of domain) value) }
    ensures { domain_of result ≡ keep value (domain_of domain) }
{
    match domain {
        Domain::Real(range) => Domain::Real(range),
        Domain::Bool(_) => Domain::Bool(if value { Truths::True } else { Truths::False }),
    }
}

// The middle of a range alone.
fn middle_of(range: Range) -> Range
    ensures point { result.low ≡ result.high }
    ensures middle { dyadic_of result.low ≡ mid (dyadic_of range.low) (dyadic_of range.high) }
{
    let middle = mid(range.low, range.high);
    Range {
        low: middle,
        high: middle,
    }
}

/// The middle of a domain: its middle number, or false where that is left, else true.
pub fn middle_domain(domain: Domain) -> Domain
    ensures { domain_of result ≡ middle_domain (domain_of domain) }
{
    match domain {
        Domain::Real(range) => Domain::Real(middle_of(range)),
        Domain::Bool(Truths::True) => Domain::Bool(Truths::True),
        Domain::Bool(Truths::False) => Domain::Bool(Truths::False),
        Domain::Bool(Truths::Either) => Domain::Bool(Truths::False),
    }
}

/// Whether a domain lies within another.
pub fn domain_within(inner: Domain, outer: Domain) -> bool
    ensures { result ≡ domain_within (domain_of inner) (domain_of outer) }
{
    match (inner, outer) {
        (Domain::Real(a), Domain::Real(b)) => {
            at_most(Ext::Fin(b.low), Ext::Fin(a.low)) && at_most(Ext::Fin(a.high), Ext::Fin(b.high))
        }
        (Domain::Bool(_), Domain::Bool(Truths::Either)) => true,
        (Domain::Bool(Truths::False), Domain::Bool(Truths::False)) => true,
        (Domain::Bool(Truths::True), Domain::Bool(Truths::False)) => false,
        (Domain::Bool(Truths::Either), Domain::Bool(Truths::False)) => false,
        (Domain::Bool(Truths::False), Domain::Bool(Truths::True)) => false,
        (Domain::Bool(Truths::True), Domain::Bool(Truths::True)) => true,
        (Domain::Bool(Truths::Either), Domain::Bool(Truths::True)) => false,
        (Domain::Real(_), Domain::Bool(_)) => false,
        (Domain::Bool(_), Domain::Real(_)) => false,
    }
}
