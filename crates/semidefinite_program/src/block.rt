// Blocks: symmetric matrices that are positive semidefinite.
use crate::factor::{clear_below_diagonal, factor};
use crate::lists::{add, at};
use crate::matrix::{Matrix, add_entry, copy_all, diagonal, entry, zeros};
use std::alloc::{AllocError, Global};

/// The coefficient of an entry in a row, and its mirror's: one half at either place.
#[derive(Clone, Copy)]
pub struct Term {
    pub row: usize,
    pub first: usize,
    pub second: usize,
    pub half: f64,
}

/// A matrix of the programme and one of its dual: X, and the slack Z of its costs.
#[derive(Drop)]
pub struct Pair {
    pub primal: Matrix,
    pub dual: Matrix,
}

/// What one turn finds of a block, and room for it.
#[derive(Drop)]
pub struct Room {
    /// the inverse of Z
    pub inverse: Matrix,
    /// what the costs are more than Z and the rows' multipliers account for
    pub residual: Matrix,
    /// X times the residual times the inverse
    pub base: Matrix,
    /// what the step's second order takes from X
    pub corrector: Matrix,
    pub product: Matrix,
    pub half_product: Matrix,
    pub line: Vec<f64, Global>,
}

/// A block: its coefficients in the rows, its costs, where X and Z stand, and their step.
#[derive(Drop)]
pub struct Block {
    pub terms: Vec<Term, Global>,
    pub costs: Matrix,
    pub point: Pair,
    pub step: Pair,
    pub room: Room,
}

/// The term's part in the product with a matrix.
pub fn part(term: Term, rows: &[Vec<f64, Global>]) -> f64 {
    term.half * (entry(rows, term.first, term.second) + entry(rows, term.second, term.first))
}

/// Adds to a matrix so many times the sum of the terms, each times its row's number.
pub fn add_sums(terms: &[Term], rows: &[f64], by: f64, matrix: &mut [Vec<f64, Global>]) {
    for term in terms {
        let more = by * term.half * at(rows, term.row);
        add_entry(matrix, term.first, term.second, more);
        add_entry(matrix, term.second, term.first, more);
    }
}

/// Adds to each row so many times the product of its terms with a matrix.
pub fn add_products(terms: &[Term], matrix: &[Vec<f64, Global>], by: f64, rows: &mut [f64]) {
    for term in terms {
        add(rows, term.row, by * part(*term, matrix));
    }
}

impl Pair {
    // Two matrices of this size with this number on their diagonals.
    fn of(alloc: Global, size: usize, number: f64) -> Result<Pair, AllocError> {
        let primal = diagonal(alloc, size, number)?;
        let dual = diagonal(alloc, size, number)?;
        Ok(Pair { primal, dual })
    }
}

impl Room {
    // Room for a block of this size.
    fn of(alloc: Global, size: usize) -> Result<Room, AllocError> {
        let inverse = zeros(alloc, size)?;
        let residual = zeros(alloc, size)?;
        let base = zeros(alloc, size)?;
        let corrector = zeros(alloc, size)?;
        let product = zeros(alloc, size)?;
        let half_product = zeros(alloc, size)?;
        let line = vec![in alloc; 0.0; size]?;
        Ok(Room {
            inverse,
            residual,
            base,
            corrector,
            product,
            half_product,
            line,
        })
    }
}

impl Block {
    /// The block of this size without terms and costs, at its first point.
    pub fn of(alloc: Global, size: usize) -> Result<Block, AllocError> {
        let point = Pair::of(alloc, size, 1.0)?;
        let step = Pair::of(alloc, size, 0.0)?;
        let costs = zeros(alloc, size)?;
        let room = Room::of(alloc, size)?;
        Ok(Block {
            terms: Vec::new(alloc),
            costs,
            point,
            step,
            room,
        })
    }

    /// Puts the terms in the order of their rows.
    pub fn sort(&mut self) {
        self.terms.sort_unstable_by_key(|term| term.row);
    }

    /// Adds a coefficient of an entry to a row.
    pub fn add(
        &mut self,
        row: usize,
        first: usize,
        second: usize,
        coefficient: f64,
    ) -> Result<(), AllocError> {
        let half = 0.5 * coefficient;
        self.terms.push(Term {
            row,
            first,
            second,
            half,
        })?;
        Ok(())
    }

    /// Adds to the cost of an entry.
    pub fn add_cost(&mut self, first: usize, second: usize, cost: f64) {
        add_entry(&mut self.costs, first, second, 0.5 * cost);
        add_entry(&mut self.costs, second, first, 0.5 * cost);
    }

    /// The Cholesky factor of X, upper triangular; none where X is not positive definite in
    /// floats.
    pub fn factor(&self, alloc: Global) -> Result<Option<Matrix>, AllocError> {
        let size = self.costs.len();
        let mut rows = zeros(alloc, size)?;
        let mut line = vec![in alloc; 0.0; size]?;
        copy_all(&mut rows, &self.point.primal);
        if !factor(&mut rows, &mut line) {
            return Ok(None);
        }
        clear_below_diagonal(&mut rows);
        Ok(Some(rows))
    }
}
