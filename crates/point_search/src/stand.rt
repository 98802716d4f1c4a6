// Where the search stands: a point, and by how much it misses what is aimed at.
use crate::aim::{Aim, aim_at, is_set};
use crate::bounds::Bounds;
use crate::costs::excess_of;
use floats::size;
use std::alloc::{AllocError, Global};

/// A point is taken where no atom misses by more than this part of delta.
const ENOUGH: f64 = 0.9;

/// An atom that is met is nearly missed where its term is off 0 by less than this part of what is missed most.
const NEAR: f64 = 0.5;

/// A point, what is aimed at from there, and the atoms that are missed, with by how much.
#[derive(Drop)]
pub struct Stand {
    pub x: Vec<f64, Global>,
    pub values: Vec<f64, Global>,
    pub aim: Aim,
    pub missed: Vec<(usize, f64), Global>,
    pub total: f64,
    greatest: f64,
}

// The atoms of the aim that are missed, with by how much.
fn missed(
    alloc: Global,
    bounds: &Bounds,
    values: &[f64],
    aim: &Aim,
) -> Result<Vec<(usize, f64), Global>, AllocError> {
    let mut missed = Vec::new(alloc);
    for j in 0..aim.atoms.len() {
        if is_set(&aim.atoms, j) {
            let excess = excess_of(bounds, values, j);
            if excess != 0.0 {
                missed.push((j, excess))?;
            }
        }
    }
    Ok(missed)
}

// The sum of the squares, and the greatest size.
fn measure(missed: &[(usize, f64)]) -> (f64, f64) {
    let mut total = 0.0;
    let mut greatest = 0.0;
    for (_, excess) in missed {
        total += *excess * *excess;
        if size(*excess) > greatest {
            greatest = size(*excess);
        }
    }
    (total, greatest)
}

impl Stand {
    /// Stands at a point.
    pub fn at(alloc: Global, bounds: &Bounds, x: Vec<f64, Global>) -> Result<Stand, AllocError> {
        let values = bounds.values(alloc, &x)?;
        let aim = aim_at(alloc, bounds, &values)?;
        let missed = missed(alloc, bounds, &values, &aim)?;
        let (total, greatest) = measure(&missed);
        Ok(Stand {
            x,
            values,
            aim,
            missed,
            total,
            greatest,
        })
    }

    /// Whether what is aimed at is met.
    pub fn is_met(&self, bounds: &Bounds) -> bool {
        self.is_of_numbers() && self.aim.clash.is_none() && self.greatest <= ENOUGH * bounds.delta
    }

    /// Whether the atom is aimed at and met, but nearly missed.
    pub fn is_near(&self, bounds: &Bounds, j: usize) -> bool {
        is_set(&self.aim.atoms, j)
            && excess_of(bounds, &self.values, j) == 0.0
            && size(bounds.term_value(&self.values, j)) < NEAR * self.greatest
    }

    /// Whether by how much it misses is a number that is not too great.
    pub fn is_of_numbers(&self) -> bool {
        self.total < 1e300
    }
}
