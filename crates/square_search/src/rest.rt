// What is left of the programme's rows with rounded numbers.
use crate::places::{Base, Entry, Place};
use crate::rounding::Rounded;
use crate::statement::Statement;
use floats::{add, at, size};
use std::alloc::{AllocError, Global};

/// What is left has to be more than this part of all coefficients' sizes.
const LEAST_PART: f64 = 1e-12;

// A number of a row from the diagonal on, where its monomial is as great as it gets.
fn value(basis: &[Base], rows: &[Vec<f64>], k: usize, m: usize) -> f64 {
    if k < rows.len() && m < basis.len() && k <= m {
        at(&rows[k], m - k) * basis[m].size
    } else {
        0.0
    }
}

// An entry of the matrix whose factor has these rows.
fn entry_value(place: &Place, rows: &[Vec<f64>], entry: Entry) -> f64 {
    let mut sum = 0.0;
    for k in 0..rows.len() {
        if k <= entry.first && k <= entry.second {
            sum += value(&place.basis, rows, k, entry.first)
                * value(&place.basis, rows, k, entry.second);
        }
    }
    sum * entry.weight()
}

// Takes the squares of a block away.
fn take_place(place: &Place, rows: &[Vec<f64>], rest: &mut [f64]) {
    for entry in &place.entries {
        let more = entry_value(place, rows, *entry);
        add(rest, entry.product, -more);
        if let Some(raised) = entry.raised {
            add(rest, raised, more);
        }
    }
}

// The coefficients of the combination less the squares, by numbers of monomials.
fn rest_of(
    alloc: Global,
    statement: &Statement,
    rounded: &Rounded,
) -> Result<Vec<f64>, AllocError> {
    let mut rest = vec![in alloc; 0.0; statement.monomials.len()]?;
    for j in 0..statement.columns.len() {
        let column = &statement.columns[j];
        let by = at(&rounded.multipliers, j);
        add(&mut rest, 0, by * column.constant);
        for (monomial, coefficient) in &column.terms {
            add(&mut rest, *monomial, by * *coefficient);
        }
    }
    let count = statement.places.len().min(rounded.factors.len());
    for b in 0..count {
        take_place(&statement.places[b], &rounded.factors[b], &mut rest);
    }
    Ok(rest)
}

/// Whether what is left is above 0 all over the box, in floats.
pub fn is_settled(
    alloc: Global,
    statement: &Statement,
    rounded: &Rounded,
) -> Result<bool, AllocError> {
    let rest = rest_of(alloc, statement, rounded)?;
    let constant = at(&rest, 0);
    let mut lost = 0.0;
    let mut all = size(constant);
    for monomial in 1..rest.len() {
        let coefficient = rest[monomial];
        all += size(coefficient);
        if coefficient < 0.0 || !statement.monomials.is_square(monomial) {
            lost += size(coefficient);
        }
    }
    Ok(constant - lost > LEAST_PART * all)
}
