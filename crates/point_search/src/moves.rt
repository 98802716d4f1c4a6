// A step of Levenberg and Marquardt on what is missed.
use crate::bounds::Bounds;
use crate::matrix::{Matrix, add_entry, add_multiple, entry, solve, zeros};
use crate::stand::Stand;
use floats::{Adjoints, at, coefficients};
use std::alloc::{AllocError, Global};

// The normal equations of the linear least squares at a point.
#[derive(Drop)]
struct Equations {
    rows: Matrix,
    right: Vec<f64, Global>,
}

// Adds the coefficients of an atom's term at a point to a row of zeros.
fn put_gradient(
    bounds: &Bounds,
    values: &[f64],
    j: usize,
    adjoints: &mut Adjoints,
    row: &mut [f64],
) {
    let atoms = bounds.problem.atoms();
    if j < atoms.len() {
        coefficients(
            bounds.problem.graph(),
            atoms[j].term,
            values,
            &[],
            adjoints,
            row,
        );
    }
}

/// The coefficients of an atom's term at a point, one for each axis.
pub fn gradient(
    alloc: Global,
    bounds: &Bounds,
    values: &[f64],
    j: usize,
) -> Result<Vec<f64, Global>, AllocError> {
    let mut row = vec![in alloc; 0.0; bounds.sides.len()]?;
    let mut adjoints = Adjoints::of(alloc, bounds.problem.graph())?;
    put_gradient(bounds, values, j, &mut adjoints, &mut row);
    Ok(row)
}

// Takes out the axes that are at the end of their side to which a fall of the excess goes.
fn stay_within(bounds: &Bounds, x: &[f64], excess: f64, row: &mut [f64]) {
    for axis in 0..row.len() {
        let rises = row[axis] * excess < 0.0;
        if bounds.is_at_end(axis, at(x, axis), rises) {
            row[axis] = 0.0;
        }
    }
}

// Where entries are not 0.
fn places(alloc: Global, row: &[f64]) -> Result<Vec<usize, Global>, AllocError> {
    let mut places = Vec::new(alloc);
    for i in 0..row.len() {
        if row[i] != 0.0 {
            places.push(i)?;
        }
    }
    Ok(places)
}

impl Equations {
    // Adds the row of a missed atom.
    fn add(&mut self, alloc: Global, row: &[f64], excess: f64) -> Result<(), AllocError> {
        let places = places(alloc, row)?;
        for i in &places {
            for k in &places {
                add_entry(&mut self.rows, *i, *k, at(row, *i) * at(row, *k));
            }
        }
        add_multiple(&mut self.right, excess, row);
        Ok(())
    }

    // Makes the matrix positive definite.
    fn damp(&mut self, damping: f64) {
        for i in 0..self.right.len() {
            let own = entry(&self.rows, i, i);
            let more = if own == 0.0 {
                1.0
            } else {
                damping * own + 1e-12
            };
            add_entry(&mut self.rows, i, i, more);
        }
    }
}

// Adds the atoms that are met, but nearly missed: their terms are to stay as they are.
fn hold_near(
    alloc: Global,
    bounds: &Bounds,
    stand: &Stand,
    adjoints: &mut Adjoints,
    equations: &mut Equations,
) -> Result<(), AllocError> {
    for j in 0..stand.aim.atoms.len() {
        if stand.is_near(bounds, j) {
            let mut row = vec![in alloc; 0.0; bounds.sides.len()]?;
            put_gradient(bounds, &stand.values, j, adjoints, &mut row);
            equations.add(alloc, &row, 0.0)?;
        }
    }
    Ok(())
}

// The equations of what is missed, and where that is said of what nearly is.
fn equations_of(
    alloc: Global,
    bounds: &Bounds,
    stand: &Stand,
    holds_near: bool,
) -> Result<Equations, AllocError> {
    let count = bounds.sides.len();
    let mut equations = Equations {
        rows: zeros(alloc, count)?,
        right: vec![in alloc; 0.0; count]?,
    };
    let mut adjoints = Adjoints::of(alloc, bounds.problem.graph())?;
    for (j, excess) in &stand.missed {
        let mut row = vec![in alloc; 0.0; count]?;
        put_gradient(bounds, &stand.values, *j, &mut adjoints, &mut row);
        stay_within(bounds, &stand.x, *excess, &mut row);
        equations.add(alloc, &row, *excess)?;
    }
    if holds_near {
        hold_near(alloc, bounds, stand, &mut adjoints, &mut equations)?;
    }
    Ok(equations)
}

/// The point so many times the way from another one, held within the box.
pub fn moved(
    alloc: Global,
    bounds: &Bounds,
    x: &[f64],
    by: f64,
    way: &[f64],
) -> Result<Vec<f64, Global>, AllocError> {
    let mut to = Vec::new(alloc);
    for axis in 0..x.len() {
        to.push(bounds.hold(axis, x[axis] + by * at(way, axis)))?;
    }
    Ok(to)
}

/// Where a step leads; none where the equations have no solution. Where that is said, it leaves the terms of atoms that are
/// nearly missed as they are.
pub fn step(
    alloc: Global,
    bounds: &Bounds,
    stand: &Stand,
    damping: f64,
    holds_near: bool,
) -> Result<Option<Vec<f64, Global>>, AllocError> {
    let mut equations = equations_of(alloc, bounds, stand, holds_near)?;
    equations.damp(damping);
    if !solve(alloc, &mut equations.rows, &mut equations.right)? {
        return Ok(None);
    }
    let to = moved(alloc, bounds, &stand.x, -1.0, &equations.right)?;
    Ok(Some(to))
}
