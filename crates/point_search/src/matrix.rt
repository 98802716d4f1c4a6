// Square matrices as lists of rows, and linear equations.
use floats::{add, at, set};
use std::alloc::{AllocError, Global};

/// A matrix, by rows.
pub type Matrix = Vec<Vec<f64, Global>, Global>;

/// The matrix of zeros.
pub fn zeros(alloc: Global, count: usize) -> Result<Matrix, AllocError> {
    let mut rows = Vec::new(alloc);
    for _ in 0..count {
        rows.push(vec![in alloc; 0.0; count]?)?;
    }
    Ok(rows)
}

/// Adds to an entry, where there is one.
pub fn add_entry(rows: &mut [Vec<f64, Global>], i: usize, k: usize, x: f64) {
    if i < rows.len() {
        add(&mut rows[i], k, x);
    }
}

/// An entry, or 0 where there is none.
pub fn entry(rows: &[Vec<f64, Global>], i: usize, k: usize) -> f64 {
    if i < rows.len() { at(&rows[i], k) } else { 0.0 }
}

/// Adds so many times a list to a row.
pub fn add_multiple(row: &mut [f64], by: f64, other: &[f64]) {
    for k in 0..row.len() {
        row[k] += by * at(other, k);
    }
}

/// Adds so many times a list to row i, where there is one.
pub fn add_to_row(rows: &mut [Vec<f64, Global>], i: usize, by: f64, other: &[f64]) {
    if i < rows.len() {
        add_multiple(&mut rows[i], by, other);
    }
}

/// The sum of the products of entries.
pub fn product(xs: &[f64], ys: &[f64]) -> f64 {
    let mut total = 0.0;
    for i in 0..xs.len() {
        total += xs[i] * at(ys, i);
    }
    total
}

/// The products of the rows with a list.
pub fn image(
    alloc: Global,
    rows: &[Vec<f64, Global>],
    xs: &[f64],
) -> Result<Vec<f64, Global>, AllocError> {
    let mut products = Vec::new(alloc);
    for row in rows {
        products.push(product(row, xs))?;
    }
    Ok(products)
}

// Copies row i.
fn copy_row(rows: &[Vec<f64, Global>], i: usize, into: &mut [f64]) {
    for k in 0..into.len() {
        into[k] = entry(rows, i, k);
    }
}

// Adds so many times a list to a row, from a place on.
fn add_multiple_from(row: &mut [f64], from: usize, by: f64, other: &[f64]) {
    for k in from..row.len() {
        row[k] += by * at(other, k);
    }
}

// Clears column i in the rows below row i, whose copy is the line; the right side follows.
fn clear_below(rows: &mut [Vec<f64, Global>], right: &mut [f64], i: usize, line: &[f64]) {
    let own = at(right, i);
    let pivot = at(line, i);
    for r in i.saturating_add(1)..rows.len() {
        let by = -(at(&rows[r], i) / pivot);
        if by != 0.0 {
            add_multiple_from(&mut rows[r], i, by, line);
            add(right, r, by * own);
        }
    }
}

// Makes the matrix upper triangular; whether each pivot was above 0.
fn triangulate(rows: &mut [Vec<f64, Global>], right: &mut [f64], line: &mut [f64]) -> bool {
    for i in 0..rows.len() {
        copy_row(rows, i, line);
        if !(at(line, i) > 0.0) {
            return false;
        }
        clear_below(rows, right, i, line);
    }
    true
}

// The sum of the products of a row's entries after place i.
fn product_after(row: &[f64], xs: &[f64], i: usize) -> f64 {
    let mut total = 0.0;
    for k in i.saturating_add(1)..row.len() {
        total += row[k] * at(xs, k);
    }
    total
}

// Solves the triangular equations from the last one up.
fn substitute_back(rows: &[Vec<f64, Global>], right: &mut [f64]) {
    for above in 0..rows.len() {
        let i = rows.len() - 1 - above;
        let rest = product_after(&rows[i], right, i);
        let x = (at(right, i) - rest) / at(&rows[i], i);
        set(right, i, x);
    }
}

/// Solves the equations of a positive definite matrix, by elimination; the right side becomes the solution. Whether it
/// was found.
pub fn solve(
    alloc: Global,
    rows: &mut [Vec<f64, Global>],
    right: &mut [f64],
) -> Result<bool, AllocError> {
    let mut line = vec![in alloc; 0.0; rows.len()]?;
    if !triangulate(rows, right, &mut line) {
        return Ok(false);
    }
    substitute_back(rows, right);
    Ok(true)
}
