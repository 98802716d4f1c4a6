// Linear programmes: a degenerate one, ones whose rows miss their bounds by rounding alone, one of two hundred rows.
use linear_program::*;
use std::alloc::{AllocError, Global};
use std::test::Fail;

// A row of these coefficients.
fn row(alloc: Global, coefficients: &[f64]) -> Result<Vec<f64, Global>, AllocError> {
    Vec::from_slice(alloc, coefficients)
}

// At (1, 0) the bounds of all three rows meet, and that of the second column. The first row keeps no column from moving on.
fn degenerate(alloc: Global) -> Result<LinearProgram, AllocError> {
    let mut rows = Vec::new(alloc);
    rows.push(row(alloc, &[1.0, -1.0])?)?;
    rows.push(row(alloc, &[1.0, 1.0])?)?;
    rows.push(row(alloc, &[1.0, 2.0])?)?;
    let low = row(alloc, &[0.0, 0.0, -10.0, -10.0, -10.0])?;
    let high = row(alloc, &[10.0, 10.0, 1.0, 1.0, 1.0])?;
    LinearProgram::new(alloc, rows, 2, low, high)
}

#[test]
fn a_degenerate_programme_has_its_optimum(rt: HostRuntime) -> Result<(), Fail> {
    let alloc = rt.alloc();
    let mut programme = degenerate(alloc)?;
    assert_eq!(rt; programme.feasibility(alloc)?, Feasibility::Feasible);
    match programme.optimum(alloc, 0, Side::Greatest)? {
        None => assert!(rt; false),
        Some(found) => assert!(rt; found.value > 0.999_999 && found.value < 1.000_001),
    }
    Ok(())
}

// A tenth and two tenths, which are three tenths: in floats their sum is more.
fn rounded(alloc: Global) -> Result<LinearProgram, AllocError> {
    let mut rows = Vec::new(alloc);
    rows.push(row(alloc, &[0.1, 0.2])?)?;
    let low = row(alloc, &[1.0, 1.0, 0.3])?;
    let high = row(alloc, &[1.0, 1.0, 0.3])?;
    LinearProgram::new(alloc, rows, 2, low, high)
}

#[test]
fn rounding_alone_refutes_nothing(rt: HostRuntime) -> Result<(), Fail> {
    let alloc = rt.alloc();
    let mut programme = rounded(alloc)?;
    assert_eq!(rt; programme.feasibility(alloc)?, Feasibility::Feasible);
    Ok(())
}

// The second row less the first is a fifth of the first column, which would have to be below -7. A row that was repaired
// misses its bound by rounding alone.
fn repaired(alloc: Global) -> Result<LinearProgram, AllocError> {
    let mut rows = Vec::new(alloc);
    rows.push(row(alloc, &[0.1, 0.2, -0.5])?)?;
    rows.push(row(alloc, &[0.3, 0.2, -0.5])?)?;
    let low = row(alloc, &[-0.7, 0.0, -0.4, 0.599, -0.901])?;
    let high = row(alloc, &[0.4, 0.2, 1.0, 0.601, -0.899])?;
    LinearProgram::new(alloc, rows, 3, low, high)
}

#[test]
fn rounding_leaves_no_room_to_a_repaired_row(rt: HostRuntime) -> Result<(), Fail> {
    let alloc = rt.alloc();
    let mut programme = repaired(alloc)?;
    assert!(rt; matches!(programme.feasibility(alloc)?, Feasibility::Infeasible(_)));
    Ok(())
}

// Coefficients of a row that takes a column from the next one.
fn difference(alloc: Global, column: usize) -> Result<Vec<f64, Global>, AllocError> {
    let mut coefficients = vec![in alloc; 0.0; 21]?;
    for c in 0..coefficients.len() {
        if c == column {
            coefficients[c] = -1.0;
        } else if c > 0 && c - 1 == column {
            coefficients[c] = 1.0;
        }
    }
    Ok(coefficients)
}

// Bounds: those of 21 columns, then those of 200 rows.
fn bounds(alloc: Global, of_column: f64, of_row: f64) -> Result<Vec<f64, Global>, AllocError> {
    let mut bounds = Vec::new(alloc);
    for _ in 0..21 {
        bounds.push(of_column)?;
    }
    for _ in 0..200 {
        bounds.push(of_row)?;
    }
    Ok(bounds)
}

// Each of 21 numbers up to so many exceeds the one before by 1 or more, and that ten times over.
fn ladder(alloc: Global, greatest: f64) -> Result<LinearProgram, AllocError> {
    let mut rows = Vec::new(alloc);
    for r in 0..200 {
        rows.push(difference(alloc, r % 20)?)?;
    }
    let low = bounds(alloc, 0.0, 1.0)?;
    let high = bounds(alloc, greatest, 100.0)?;
    LinearProgram::new(alloc, rows, 21, low, high)
}

#[test]
fn two_hundred_rows_are_decided(rt: HostRuntime) -> Result<(), Fail> {
    let alloc = rt.alloc();
    let mut high_enough = ladder(alloc, 20.0)?;
    assert_eq!(rt; high_enough.feasibility(alloc)?, Feasibility::Feasible);
    let mut too_low = ladder(alloc, 19.0)?;
    assert!(rt; matches!(too_low.feasibility(alloc)?, Feasibility::Infeasible(_)));
    Ok(())
}
