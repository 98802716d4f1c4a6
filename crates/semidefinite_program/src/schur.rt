// The Schur complement: the symmetric matrix of the equations for the step of the rows'
// multipliers. Its entry of the rows k and l is, summed over the blocks, the product of A_k with
// X A_l W, for the rows' coefficients A, the matrix X and the inverse W of its dual (Fujisawa,
// Kojima and Nakata 1997 weigh the ways to compute it; this is the second one).
use crate::block::{Block, Term, part};
use crate::factor::{factor, invert_factor, square_of_triangle};
use crate::lists::{add, add_two_multiples, at, greater};
use crate::matrix::{add_entry, clear_all, copy_all, entry};
use crate::program::SemidefiniteProgram;
use std::alloc::Global;

/// What a free number counts for in the complement: it is held to its present value by the
/// inverse of this.
pub const FREE_WEIGHT: f64 = 1e4;

/// What is added to the diagonal, as a part of its greatest entry and at least.
const SHIFT_PART: f64 = 1e-14;

const LEAST_SHIFT: f64 = 1e-15;

// Adds to a matrix X A W for a term in A.
fn add_weighed(
    into: &mut [Vec<f64, Global>],
    term: Term,
    primal: &[Vec<f64, Global>],
    inverse: &[Vec<f64, Global>],
) {
    let first = term.first;
    let second = term.second;
    if first >= primal.len() || second >= primal.len() || primal.len() > inverse.len() {
        return;
    }
    for r in 0..into.len() {
        let by = term.half * at(&primal[second], r);
        let by_last = term.half * at(&primal[first], r);
        add_two_multiples(
            &mut into[r],
            0,
            by,
            &inverse[first],
            by_last,
            &inverse[second],
        );
    }
}

// Whether the term in this place is of another row than the one before it.
fn is_first(terms: &[Term], i: usize) -> bool {
    if i == 0 || i >= terms.len() {
        return true;
    }
    terms[i - 1].row != terms[i].row
}

// Makes a matrix X A W for the terms A of the row that begins in this place.
fn weigh(
    into: &mut [Vec<f64, Global>],
    terms: &[Term],
    from: usize,
    primal: &[Vec<f64, Global>],
    inverse: &[Vec<f64, Global>],
) {
    clear_all(into);
    for i in from..terms.len() {
        if i > from && is_first(terms, i) {
            return;
        }
        add_weighed(into, terms[i], primal, inverse);
    }
}

// Adds to a row of the complement the products of a matrix with the terms from this place on.
fn add_row(row: &mut [f64], terms: &[Term], from: usize, weighed: &[Vec<f64, Global>]) {
    for i in from..terms.len() {
        add(row, terms[i].row, part(terms[i], weighed));
    }
}

// Adds a block's part of the complement's upper half, over a matrix for what is weighed.
fn add_rows(
    schur: &mut [Vec<f64, Global>],
    terms: &[Term],
    primal: &[Vec<f64, Global>],
    inverse: &[Vec<f64, Global>],
    weighed: &mut [Vec<f64, Global>],
) {
    for i in 0..terms.len() {
        let row = terms[i].row;
        if is_first(terms, i) && row < schur.len() {
            weigh(weighed, terms, i, primal, inverse);
            add_row(&mut schur[row], terms, i, weighed);
        }
    }
}

impl Block {
    // Finds the inverse of Z; whether that is positive definite.
    fn invert_dual(&mut self) -> bool {
        let room = &mut self.room;
        copy_all(&mut room.product, &self.point.dual);
        if !factor(&mut room.product, &mut room.line) {
            return false;
        }
        invert_factor(&room.product, &mut room.half_product, &mut room.line);
        square_of_triangle(&mut room.inverse, &room.half_product);
        true
    }

    // Adds its part of the complement's upper half.
    fn add_schur(&mut self, schur: &mut [Vec<f64, Global>]) {
        let room = &mut self.room;
        let point = &self.point;
        add_rows(
            schur,
            &self.terms,
            &point.primal,
            &room.inverse,
            &mut room.product,
        );
    }
}

// Adds to the diagonal what keeps the pivots above 0 where rows depend on each other.
fn shift_diagonal(rows: &mut [Vec<f64, Global>]) {
    let mut greatest = 0.0;
    for k in 0..rows.len() {
        greatest = greater(greatest, entry(rows, k, k));
    }
    for k in 0..rows.len() {
        add_entry(rows, k, k, SHIFT_PART * greatest + LEAST_SHIFT);
    }
}

impl SemidefiniteProgram {
    /// Finds the inverses of all dual matrices; whether these are positive definite.
    pub(crate) fn invert_duals(&mut self) -> bool {
        for block in self.blocks.iter_mut() {
            if !block.invert_dual() {
                return false;
            }
        }
        true
    }

    /// Makes the upper half of the matrix that of the complement.
    pub(crate) fn find_schur(&mut self, schur: &mut [Vec<f64, Global>]) {
        clear_all(schur);
        for block in self.blocks.iter_mut() {
            block.add_schur(schur);
        }
        for scalar in &self.scalars {
            scalar.column.add_square_to(schur, scalar.ratio());
        }
        for free in &self.free {
            free.column.add_square_to(schur, FREE_WEIGHT);
        }
        shift_diagonal(schur);
    }
}
