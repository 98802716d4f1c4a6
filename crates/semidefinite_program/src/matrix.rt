// Square matrices as lists of rows.
use crate::lists::{add, add_multiple, at, clear, copy, greater, product, size};
use std::alloc::{AllocError, Global};

/// A matrix, by rows.
pub type Matrix = Vec<Vec<f64, Global>, Global>;

/// The matrix of zeros.
pub fn zeros(alloc: Global, count: usize) -> Result<Matrix, AllocError> {
    let mut rows = Vec::new(alloc);
    for _ in 0..count {
        rows.push(vec![in alloc; 0.0; count]?)?;
    }
    Ok(rows)
}

/// The matrix with this number on its diagonal and zeros elsewhere.
pub fn diagonal(alloc: Global, count: usize, number: f64) -> Result<Matrix, AllocError> {
    let mut rows = zeros(alloc, count)?;
    for i in 0..count {
        add_entry(&mut rows, i, i, number);
    }
    Ok(rows)
}

/// An entry, or 0 where there is none.
pub fn entry(rows: &[Vec<f64, Global>], i: usize, k: usize) -> f64 {
    if i < rows.len() { at(&rows[i], k) } else { 0.0 }
}

/// Adds to an entry, where there is one.
pub fn add_entry(rows: &mut [Vec<f64, Global>], i: usize, k: usize, x: f64) {
    if i < rows.len() {
        add(&mut rows[i], k, x);
    }
}

/// Makes all entries 0.
pub fn clear_all(rows: &mut [Vec<f64, Global>]) {
    for i in 0..rows.len() {
        clear(&mut rows[i]);
    }
}

/// Copies a matrix into one that is no larger.
pub fn copy_all(into: &mut [Vec<f64, Global>], from: &[Vec<f64, Global>]) {
    if from.len() < into.len() {
        return;
    }
    for i in 0..into.len() {
        copy(&mut into[i], &from[i]);
    }
}

/// Adds so many times a matrix to one that is no larger.
pub fn add_all(into: &mut [Vec<f64, Global>], by: f64, from: &[Vec<f64, Global>]) {
    if from.len() < into.len() {
        return;
    }
    for i in 0..into.len() {
        add_multiple(&mut into[i], by, &from[i]);
    }
}

// Adds the product of a list with a matrix to a row.
fn add_image(row: &mut [f64], xs: &[f64], rows: &[Vec<f64, Global>]) {
    for k in 0..rows.len() {
        let by = at(xs, k);
        if by != 0.0 {
            add_multiple(row, by, &rows[k]);
        }
    }
}

/// Makes the first matrix the product of two others.
pub fn multiply(
    into: &mut [Vec<f64, Global>],
    left: &[Vec<f64, Global>],
    right: &[Vec<f64, Global>],
) {
    if left.len() < into.len() {
        return;
    }
    for i in 0..into.len() {
        clear(&mut into[i]);
        add_image(&mut into[i], &left[i], right);
    }
}

/// The sum of the products of entries.
pub fn inner(rows: &[Vec<f64, Global>], others: &[Vec<f64, Global>]) -> f64 {
    let mut total = 0.0;
    if others.len() < rows.len() {
        return total;
    }
    for i in 0..rows.len() {
        total += product(&rows[i], &others[i]);
    }
    total
}

/// The greatest size of an entry; one that is no number counts for nothing.
pub fn greatest_size(rows: &[Vec<f64, Global>]) -> f64 {
    let mut greatest = 0.0;
    for row in rows {
        for x in row {
            greatest = greater(greatest, size(*x));
        }
    }
    greatest
}
