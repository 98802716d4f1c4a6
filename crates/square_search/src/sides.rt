// How far the axes reach from the middle of the box.
use crate::numbers::power_above;
use floats::{at, span_of_interval};
use ival::Space;
use std::alloc::{AllocError, Global};

/// An axis that reaches less far counts as one number.
const LEAST_HALF: f64 = 1.0 / 2147483648.0;

/// Half the side of each axis, 0 of a Bool one.
#[derive(Drop)]
pub struct Sides {
    halves: Vec<f64>,
}

// How far an axis reaches from the centre.
fn half_of(space: &Space, centre: &Space, axis: u32) -> f64 {
    let apart = space.interval(axis).add(centre.interval(axis).neg());
    let half = span_of_interval(apart).size();
    if half > 0.0 { half } else { 0.0 }
}

impl Sides {
    /// Those of a space about its centre.
    pub fn of(alloc: Global, space: &Space, centre: &Space) -> Result<Sides, AllocError> {
        let mut halves = Vec::new(alloc);
        for axis in 0..space.len() {
            if let Ok(axis) = u32::try_from(axis) {
                halves.push(half_of(space, centre, axis))?;
            }
        }
        Ok(Sides { halves })
    }

    /// Half the side of an axis.
    pub fn half(&self, axis: u32) -> f64 {
        at(&self.halves, axis as usize)
    }

    /// The greatest size of a monomial's values.
    pub fn greatest(&self, monomial: &[u32]) -> f64 {
        let mut product = 1.0;
        for axis in monomial {
            product *= self.half(*axis);
        }
        product
    }

    /// The least power of two above half the side, multiplied for all axes of a monomial.
    pub fn power(&self, monomial: &[u32]) -> f64 {
        let mut product = 1.0;
        for axis in monomial {
            product *= power_above(self.half(*axis));
        }
        product
    }

    /// Whether no axis of a monomial counts as one number.
    pub fn are_wide(&self, monomial: &[u32]) -> bool {
        for axis in monomial {
            if !(self.half(*axis) > LEAST_HALF) {
                return false;
            }
        }
        true
    }
}
