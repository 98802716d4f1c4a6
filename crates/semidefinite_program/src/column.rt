// Numbers of a programme: scalars, which are at least 0, and free ones.
use crate::lists::{add, at};
use crate::matrix::add_entry;
use std::alloc::{AllocError, Global};

// The coefficient of a number in a row.
#[derive(Clone, Copy)]
struct Term {
    row: usize,
    coefficient: f64,
}

/// The coefficients of a number in the rows, and its cost.
#[derive(Drop)]
pub struct Column {
    pub cost: f64,
    terms: Vec<Term, Global>,
}

impl Column {
    /// The column without terms.
    pub fn of(alloc: Global, cost: f64) -> Column {
        Column {
            cost,
            terms: Vec::new(alloc),
        }
    }

    /// Adds a term.
    pub fn add(&mut self, row: usize, coefficient: f64) -> Result<(), AllocError> {
        self.terms.push(Term { row, coefficient })?;
        Ok(())
    }

    /// The sum of the coefficients, each times its row's number.
    pub fn product(&self, rows: &[f64]) -> f64 {
        let mut total = 0.0;
        for term in &self.terms {
            total += term.coefficient * at(rows, term.row);
        }
        total
    }

    /// Adds so many times the column to the rows.
    pub fn add_to(&self, rows: &mut [f64], by: f64) {
        for term in &self.terms {
            add(rows, term.row, by * term.coefficient);
        }
    }

    /// Adds so many times the column's product with its transpose to a matrix.
    pub fn add_square_to(&self, rows: &mut [Vec<f64, Global>], by: f64) {
        for term in &self.terms {
            let by = by * term.coefficient;
            for other in &self.terms {
                add_entry(rows, term.row, other.row, by * other.coefficient);
            }
        }
    }
}

/// A number that is at least 0, and its dual, the slack of its cost; with what one turn finds of
/// both.
#[derive(Drop)]
pub struct Scalar {
    pub column: Column,
    pub primal: f64,
    pub dual: f64,
    pub residual: f64,
    pub corrector: f64,
    pub primal_step: f64,
    pub dual_step: f64,
}

impl Scalar {
    /// The scalar without terms, at its first value.
    pub fn of(alloc: Global, cost: f64) -> Scalar {
        Scalar {
            column: Column::of(alloc, cost),
            primal: 1.0,
            dual: 1.0,
            residual: 0.0,
            corrector: 0.0,
            primal_step: 0.0,
            dual_step: 0.0,
        }
    }

    /// The present value by the dual one.
    pub fn ratio(&self) -> f64 {
        self.primal / self.dual
    }
}

/// A free number.
#[derive(Drop)]
pub struct Free {
    pub column: Column,
    pub value: f64,
    pub residual: f64,
}

impl Free {
    /// The free number without terms, at its first value.
    pub fn of(alloc: Global, cost: f64) -> Free {
        Free {
            column: Column::of(alloc, cost),
            value: 0.0,
            residual: 0.0,
        }
    }
}
