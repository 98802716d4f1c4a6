// A point in floats as a space of one point within the box.
use crate::bounds::Bounds;
use crate::stand::Stand;
use dyadic::{Dy, Ext, at_most};
use floats::{at, number};
use ival::{Domain, Range, Space, Truths};
use std::alloc::{AllocError, Global};

// The number of the range that is nearest to this one.
fn held(range: Range, x: Dy) -> Dy {
    if at_most(Ext::Fin(x), Ext::Fin(range.low)) {
        range.low
    } else if at_most(Ext::Fin(range.high), Ext::Fin(x)) {
        range.high
    } else {
        x
    }
}

// The one number of a range that is nearest to the float; the range itself where the float is no number.
fn one_of(range: Range, x: f64) -> Domain {
    match number(x) {
        None => Domain::Real(range),
        Some(x) => {
            let x = held(range, x);
            match Range::between(x, x) {
                None => Domain::Real(range),
                Some(one) => Domain::Real(one),
            }
        }
    }
}

// What a domain is narrowed to: the number near to the float, or the truth value.
fn narrowed(domain: Domain, x: f64, value: Option<bool>) -> Domain {
    match (domain, value) {
        (Domain::Real(range), _) => one_of(range, x),
        (Domain::Bool(Truths::Either), Some(true)) => Domain::Bool(Truths::True),
        (Domain::Bool(Truths::Either), _) => Domain::Bool(Truths::False),
        (Domain::Bool(truths), _) => Domain::Bool(truths),
    }
}

// The value of a Bool axis.
fn value_of(bools: &[Option<bool>], axis: usize) -> Option<bool> {
    if axis < bools.len() {
        bools[axis]
    } else {
        None
    }
}

// What is left to an axis at the point where the search stands.
fn domain_at(stand: &Stand, axis: usize, domain: Domain) -> Domain {
    let value = value_of(&stand.aim.bools, axis);
    narrowed(domain, at(&stand.x, axis), value)
}

/// The space of one point where the search stands.
pub fn space_at(alloc: Global, bounds: &Bounds, stand: &Stand) -> Result<Space, AllocError> {
    let mut space = bounds.space.try_clone(alloc)?;
    for axis in 0..bounds.space.len() {
        if axis < space.len() {
            let domain = domain_at(stand, axis, space.get(axis));
            space.set(axis, domain);
        }
    }
    Ok(space)
}
