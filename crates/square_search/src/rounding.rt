// What was found with few bits, and as a line.
use crate::columns::Column;
use crate::numbers::{greater, power, power_above, rounded};
use crate::places::{Base, Place};
use crate::solution::Solution;
use crate::statement::Statement;
use cover_line::Block;
use dyadic::Dy;
use floats::{number, size};
use std::alloc::{AllocError, Global};

/// A line that may close the box.
#[derive(Drop)]
pub struct Proposal {
    /// atoms with their multipliers
    pub pairs: Vec<(u32, Dy)>,
    pub blocks: Vec<Block>,
}

/// The multipliers of the columns, and for each block its rows in differences of axes, of the diagonal on.
#[derive(Drop)]
pub struct Rounded {
    pub multipliers: Vec<f64>,
    pub factors: Vec<Vec<Vec<f64>>>,
}

// The greatest size of a factor's entries.
fn greatest(factor: &[Vec<f64>]) -> f64 {
    let mut most = 0.0;
    for row in factor {
        for x in row {
            most = greater(most, size(*x));
        }
    }
    most
}

// A row of a factor from place k on, in differences of axes, to a unit for each monomial.
fn rounded_row(
    alloc: Global,
    basis: &[Base],
    row: &[f64],
    k: usize,
    unit: f64,
) -> Result<Vec<f64>, AllocError> {
    let mut numbers = Vec::new(alloc);
    for m in k..basis.len() {
        let x = if m < row.len() { row[m] } else { 0.0 };
        let base = &basis[m];
        numbers.push(rounded(x / base.size, unit / base.power))?;
    }
    Ok(numbers)
}

// The rows of a block, with so many bits of its greatest number.
fn rounded_rows(
    alloc: Global,
    place: &Place,
    factor: &[Vec<f64>],
    bits: i32,
) -> Result<Vec<Vec<f64>>, AllocError> {
    let unit = power_above(greatest(factor)) * power(bits.saturating_neg());
    let mut rows = Vec::new(alloc);
    for k in 0..factor.len() {
        rows.push(rounded_row(alloc, &place.basis, &factor[k], k, unit)?)?;
    }
    Ok(rows)
}

impl Rounded {
    /// What was found, with so many bits.
    pub fn of(
        alloc: Global,
        statement: &Statement,
        solution: &Solution,
        bits: i32,
    ) -> Result<Rounded, AllocError> {
        let unit = power(bits.saturating_neg());
        let mut multipliers = Vec::new(alloc);
        for x in &solution.multipliers {
            multipliers.push(if *x > 0.0 { rounded(*x, unit) } else { 0.0 })?;
        }
        let mut factors = Vec::new(alloc);
        let count = statement.places.len().min(solution.factors.len());
        for b in 0..count {
            let place = &statement.places[b];
            factors.push(rounded_rows(alloc, place, &solution.factors[b], bits)?)?;
        }
        Ok(Rounded {
            multipliers,
            factors,
        })
    }
}

// ---- as a line

// The numbers of a row; none where one is too great.
fn numbers(alloc: Global, row: &[f64]) -> Result<Option<Vec<Dy>>, AllocError> {
    let mut numbers = Vec::new(alloc);
    for x in row {
        match number(*x) {
            None => return Ok(None),
            Some(number) => numbers.push(number)?,
        }
    }
    Ok(Some(numbers))
}

// A block of these rows; none where a number is too great.
fn block(alloc: Global, place: &Place, rows: &[Vec<f64>]) -> Result<Option<Block>, AllocError> {
    let mut monomials = Vec::new(alloc);
    for base in &place.basis {
        monomials.push(Vec::from_slice(alloc, &base.axes)?)?;
    }
    let mut all = Vec::new(alloc);
    for row in rows {
        match numbers(alloc, row)? {
            None => return Ok(None),
            Some(row) => all.push(row)?,
        }
    }
    Ok(Some(Block {
        factor: place.factor,
        monomials,
        rows: all,
    }))
}

// Atoms with multipliers, before they are numbers of the grid: where an atom has two columns their sum.
fn sums(
    alloc: Global,
    columns: &[Column],
    multipliers: &[f64],
) -> Result<Vec<(u32, f64)>, AllocError> {
    let mut sums: Vec<(u32, f64)> = Vec::new(alloc);
    let count = columns.len().min(multipliers.len());
    for j in 0..count {
        let by = multipliers[j] * columns[j].by;
        match sums.last_mut() {
            Some(last) if last.0 == columns[j].atom => last.1 += by,
            _ => sums.push((columns[j].atom, by))?,
        }
    }
    Ok(sums)
}

// The atoms with multipliers that are not 0; none where one is too great.
fn pairs(
    alloc: Global,
    columns: &[Column],
    multipliers: &[f64],
) -> Result<Option<Vec<(u32, Dy)>>, AllocError> {
    let mut pairs = Vec::new(alloc);
    for (atom, by) in &sums(alloc, columns, multipliers)? {
        match number(*by) {
            None => return Ok(None),
            Some(number) if number.is_zero() => {}
            Some(number) => pairs.push((*atom, number))?,
        }
    }
    Ok(Some(pairs))
}

impl Rounded {
    /// The line; none where a number is too great, or no atom is left.
    pub fn proposal(
        &self,
        alloc: Global,
        statement: &Statement,
    ) -> Result<Option<Proposal>, AllocError> {
        let Some(pairs) = pairs(alloc, &statement.columns, &self.multipliers)? else {
            return Ok(None);
        };
        if pairs.is_empty() {
            return Ok(None);
        }
        let mut blocks = Vec::new(alloc);
        let count = statement.places.len().min(self.factors.len());
        for b in 0..count {
            match block(alloc, &statement.places[b], &self.factors[b])? {
                None => return Ok(None),
                Some(block) => blocks.push(block)?,
            }
        }
        Ok(Some(Proposal { pairs, blocks }))
    }
}
