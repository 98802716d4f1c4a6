// Programmes that are run towards bounds near their least values.
use crate::table::{ENDS, ROWS, Row};
use semidefinite_program::{MOST_ROWS, MOST_SIZE, Outcome, SemidefiniteProgram, Variable};
use std::alloc::{AllocError, Global};
use std::test::Fail;

// Adds the numbers of a programme.
fn add_numbers(
    alloc: Global,
    programme: &mut SemidefiniteProgram,
    row: &Row,
) -> Result<(), AllocError> {
    for size in row.sizes {
        programme.add_block(alloc, *size)?;
    }
    for cost in row.scalars {
        programme.add_scalar(alloc, *cost)?;
    }
    for cost in row.free {
        programme.add_free(alloc, *cost)?;
    }
    Ok(())
}

// Adds their coefficients and costs.
fn add_terms(programme: &mut SemidefiniteProgram, row: &Row) -> Result<(), AllocError> {
    for (k, variable, coefficient) in row.coefficients {
        programme.add_coefficient(*k, *variable, *coefficient)?;
    }
    for (block, first, second, cost) in row.costs {
        programme.add_cost(*block, *first, *second, *cost);
    }
    Ok(())
}

// The programme of a row; none where there are too many rows or too large blocks.
fn programme(alloc: Global, row: &Row) -> Result<Option<SemidefiniteProgram>, AllocError> {
    let Some(mut programme) = SemidefiniteProgram::new(alloc, row.rights)? else {
        return Ok(None);
    };
    add_numbers(alloc, &mut programme, row)?;
    add_terms(&mut programme, row)?;
    Ok(Some(programme))
}

// What a run towards this bound ends with.
fn outcome(alloc: Global, row: &Row, below: f64) -> Result<Option<Outcome>, AllocError> {
    match programme(alloc, row)? {
        None => Ok(None),
        Some(mut programme) => Ok(Some(programme.run(alloc, 100, below)?)),
    }
}

#[test]
fn the_least_values_are_met(rt: HostRuntime) -> Result<(), Fail> {
    for row in &ROWS {
        let above = outcome(rt.alloc(), row, row.least + 1e-4)?;
        assert_eq!(rt; above, Some(Outcome::Below), "{}", row.name);
    }
    Ok(())
}

#[test]
fn nothing_is_below_the_least_values(rt: HostRuntime) -> Result<(), Fail> {
    for row in &ROWS {
        let under = outcome(rt.alloc(), row, row.least - 1e-4)?;
        assert_eq!(rt; under, Some(Outcome::NotBelow), "{}", row.name);
    }
    Ok(())
}

#[test]
fn other_programmes_end_otherwise(rt: HostRuntime) -> Result<(), Fail> {
    for (row, below, wanted) in &ENDS {
        let found = outcome(rt.alloc(), row, *below)?;
        assert_eq!(rt; found, Some(*wanted), "{}", row.name);
    }
    Ok(())
}

// ---- values

// Whether two numbers are near to each other.
fn is_near(a: f64, b: f64) -> bool {
    a - b < 1e-3 && b - a < 1e-3
}

// Whether the quartic's bound and its square are as they have to be: 1 - 2 x^2 + x^4.
fn is_square(programme: &SemidefiniteProgram) -> bool {
    is_near(programme.value(Variable::Free(0)), -1.0)
        && is_near(programme.value(Variable::Entry(0, 0, 0)), 1.0)
        && is_near(programme.value(Variable::Entry(0, 2, 0)), -1.0)
        && is_near(programme.value(Variable::Entry(0, 2, 2)), 1.0)
        && is_near(programme.objective(), 1.0)
}

// Whether the first factor is that of the square, 1 - x^2.
fn is_factored(alloc: Global, programme: &SemidefiniteProgram) -> Result<bool, AllocError> {
    match programme.factor(alloc, 0)? {
        Some(factor) if factor.len() == 3 && factor[0].len() == 3 => {
            Ok(is_near(factor[0][0], 1.0) && is_near(factor[0][2], -1.0))
        }
        _ => Ok(false),
    }
}

// Whether runs go on from one another, to the square.
fn goes_on(alloc: Global, programme: &mut SemidefiniteProgram) -> Result<bool, AllocError> {
    let first = programme.run(alloc, 100, 1.5)?;
    let turns = programme.turns();
    let last = programme.run(alloc, 100, 1.00001)?;
    Ok(
        first == Outcome::Below
            && last == Outcome::Below
            && programme.turns() > turns
            && is_square(programme)
            && is_factored(alloc, programme)?,
    )
}

#[test]
fn runs_go_on(rt: HostRuntime) -> Result<(), Fail> {
    match programme(rt.alloc(), &ROWS[6])? {
        None => assert!(rt; false),
        Some(mut programme) => {
            let is_right = goes_on(rt.alloc(), &mut programme)?;
            assert!(rt; is_right);
        }
    }
    Ok(())
}

// ---- limits

#[test]
fn large_programmes_are_refused(rt: HostRuntime) -> Result<(), Fail> {
    let rights = vec![in rt.alloc(); 0.0; MOST_ROWS + 1]?;
    assert!(rt; SemidefiniteProgram::new(rt.alloc(), &rights)?.is_none());
    match SemidefiniteProgram::new(rt.alloc(), &[1.0])? {
        None => assert!(rt; false),
        Some(mut programme) => {
            assert_eq!(rt; programme.add_block(rt.alloc(), MOST_SIZE + 1)?, None);
            assert_eq!(rt; programme.add_block(rt.alloc(), 2)?, Some(0));
        }
    }
    Ok(())
}
