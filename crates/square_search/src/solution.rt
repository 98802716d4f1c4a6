// What a programme found, in floats.
use crate::places::Place;
use crate::statement::Statement;
use semidefinite_program::{Matrix, SemidefiniteProgram, Variable};
use std::alloc::{AllocError, Global};

/// The multipliers of the columns, and for each block the upper triangular factor of its matrix.
#[derive(Drop)]
pub struct Solution {
    pub multipliers: Vec<f64>,
    pub factors: Vec<Matrix>,
}

// The matrix of one number.
fn single(alloc: Global, number: f64) -> Result<Matrix, AllocError> {
    let row = vec![in alloc; number; 1]?;
    let mut rows = Vec::new(alloc);
    rows.push(row)?;
    Ok(rows)
}

// The factor of a block; none where its matrix is not positive definite in floats.
fn factor(
    alloc: Global,
    programme: &SemidefiniteProgram,
    place: &Place,
) -> Result<Option<Matrix>, AllocError> {
    if place.is_scalar() {
        let value = programme.value(Variable::Scalar(place.number));
        let root = if value > 0.0 { value.sqrt() } else { 0.0 };
        return Ok(Some(single(alloc, root)?));
    }
    programme.factor(alloc, place.number)
}

impl Solution {
    /// The present values; none where a matrix is not positive definite in floats.
    pub fn of(alloc: Global, statement: &Statement) -> Result<Option<Solution>, AllocError> {
        let mut multipliers = Vec::new(alloc);
        for j in 0..statement.columns.len() {
            multipliers.push(statement.programme.value(Variable::Scalar(j)))?;
        }
        let mut factors = Vec::new(alloc);
        for place in &statement.places {
            match factor(alloc, &statement.programme, place)? {
                None => return Ok(None),
                Some(factor) => factors.push(factor)?,
            }
        }
        Ok(Some(Solution {
            multipliers,
            factors,
        }))
    }
}
