// Cholesky factors: of a symmetric positive definite matrix A the upper triangular U with A = U'
// U (Golub and Van Loan 1996, 4.2). Of A and of U the lower half is never read.
use crate::lists::{add, add_multiple_from, add_two_multiples, at, clear, copy, product_from, set};
use crate::matrix::entry;
use std::alloc::Global;

/// The least pivot with which a matrix counts as positive definite.
const LEAST_PIVOT: f64 = 1e-300;

// Multiplies the entries from this place on.
fn scale_from(xs: &mut [f64], from: usize, by: f64) {
    for k in from..xs.len() {
        xs[k] *= by;
    }
}

// Takes from the line, a copy of row i of a matrix, what the rows of the factor above it account
// for, two by two.
fn reduce(factor: &[Vec<f64, Global>], i: usize, line: &mut [f64]) {
    if i > factor.len() {
        return;
    }
    for half in 0..i / 2 {
        let k = 2 * half;
        let by = -at(&factor[k], i);
        let by_last = -at(&factor[k + 1], i);
        if by != 0.0 || by_last != 0.0 {
            add_two_multiples(line, i, by, &factor[k], by_last, &factor[k + 1]);
        }
    }
    if i % 2 == 1 {
        add_multiple_from(line, i, -at(&factor[i - 1], i), &factor[i - 1]);
    }
}

/// Makes the upper half of a matrix that of its factor, over a line that is as long as a row;
/// whether each pivot was above 0. After an answer of no its entries mean nothing.
pub fn factor(rows: &mut [Vec<f64, Global>], line: &mut [f64]) -> bool {
    for i in 0..rows.len() {
        copy(line, &rows[i]);
        reduce(rows, i, line);
        let pivot = at(line, i);
        if !(pivot > LEAST_PIVOT) {
            return false;
        }
        scale_from(line, i, 1.0 / pivot.sqrt());
        copy(&mut rows[i], line);
    }
    true
}

/// Makes the entries below the diagonal 0.
pub fn clear_below_diagonal(rows: &mut [Vec<f64, Global>]) {
    for i in 0..rows.len() {
        for k in 0..i {
            set(&mut rows[i], k, 0.0);
        }
    }
}

// Makes the line row i of the inverse of the factor, from the rows of the inverse below it.
fn inverse_row(
    factor: &[Vec<f64, Global>],
    inverse: &[Vec<f64, Global>],
    i: usize,
    line: &mut [f64],
) {
    clear(line);
    set(line, i, 1.0);
    for k in i.saturating_add(1)..inverse.len() {
        let by = entry(factor, i, k);
        if by != 0.0 {
            add_multiple_from(line, k, -by, &inverse[k]);
        }
    }
    scale_from(line, i, 1.0 / entry(factor, i, i));
}

/// Makes the matrix the inverse of the factor, which is upper triangular, over a line that is as
/// long as a row.
pub fn invert_factor(
    factor: &[Vec<f64, Global>],
    inverse: &mut [Vec<f64, Global>],
    line: &mut [f64],
) {
    for above in 0..inverse.len() {
        let i = inverse.len() - 1 - above;
        inverse_row(factor, inverse, i, line);
        copy(&mut inverse[i], line);
    }
}

/// Makes the first matrix the second one, which is upper triangular, times its transpose.
pub fn square_of_triangle(into: &mut [Vec<f64, Global>], triangle: &[Vec<f64, Global>]) {
    if triangle.len() < into.len() {
        return;
    }
    for i in 0..into.len() {
        for k in 0..into.len() {
            let last = if i < k { k } else { i };
            let sum = product_from(&triangle[i], last, &triangle[k]);
            set(&mut into[i], k, sum);
        }
    }
}

// Solves U' y = b for the factor U, in the place of b.
fn substitute_forward(factor: &[Vec<f64, Global>], right: &mut [f64]) {
    for k in 0..factor.len() {
        let x = at(right, k) / at(&factor[k], k);
        set(right, k, x);
        add_multiple_from(right, k.saturating_add(1), -x, &factor[k]);
    }
}

// Solves U x = y for the factor U, in the place of y.
fn substitute_back(factor: &[Vec<f64, Global>], right: &mut [f64]) {
    for above in 0..factor.len() {
        let k = factor.len() - 1 - above;
        let rest = product_from(right, k.saturating_add(1), &factor[k]);
        add(right, k, -rest);
        let x = at(right, k) / at(&factor[k], k);
        set(right, k, x);
    }
}

/// Solves the equations of the factored matrix; the right side becomes the solution.
pub fn solve(factor: &[Vec<f64, Global>], right: &mut [f64]) {
    substitute_forward(factor, right);
    substitute_back(factor, right);
}
