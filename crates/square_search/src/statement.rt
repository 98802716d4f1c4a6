// A set of atoms as a semidefinite programme: with u the axes' differences to the centre, each divided by half its side, and
// F_j the columns, the sum of l_j F_j(u) is to be g, and m(u)' G m(u) of each clique with its basis m, and (1 - u_i^2) m(u)' H
// m(u) of each axis; the l_j are at least 0 and come to 1, the matrices are positive semidefinite, and g is to become great.
// Each monomial but 1 is a row, where both sides have equal coefficients; the last row is the sum of the l_j.
use crate::axes::axes_of;
use crate::bases::Limits;
use crate::blocks::places_within;
use crate::cliques::cliques_of;
use crate::columns::{Column, columns_of};
use crate::expansion::Expanded;
use crate::monomials::Monomials;
use crate::places::{Entry, Place};
use crate::sides::Sides;
use semidefinite_program::{SemidefiniteProgram, Variable};
use std::alloc::{AllocError, Global};

/// A line has at most so many numbers.
const MOST_NUMBERS: usize = 8000;

/// A programme, and what its numbers stand for: scalar j is the multiplier of column j.
#[derive(Drop)]
pub struct Statement {
    pub programme: SemidefiniteProgram,
    pub columns: Vec<Column>,
    pub places: Vec<Place>,
    pub monomials: Monomials,
    /// what a turn costs
    pub steps: u64,
}

// What the line has, and monomials.
#[derive(Drop)]
struct Parts {
    columns: Vec<Column>,
    places: Vec<Place>,
    monomials: Monomials,
}

// The parts of a set of atoms; none where there are too many monomials.
fn parts_of(
    alloc: Global,
    atoms: &[Expanded],
    set: &[usize],
    sides: &Sides,
) -> Result<Option<Parts>, AllocError> {
    let mut monomials = Monomials::new(alloc)?;
    let axes = axes_of(alloc, atoms, set)?;
    let cliques = cliques_of(alloc, &axes, atoms, set)?;
    let limits = Limits::of(alloc, axes, atoms, set)?;
    let Some(places) = places_within(alloc, cliques, &limits, sides, &mut monomials)? else {
        return Ok(None);
    };
    let columns = columns_of(alloc, atoms, set, &mut monomials)?;
    Ok(Some(Parts {
        columns,
        places,
        monomials,
    }))
}

impl Parts {
    // How many numbers the line has at most.
    fn numbers(&self) -> usize {
        let mut count = self.columns.len().saturating_mul(2).saturating_add(1);
        for place in &self.places {
            count = count.saturating_add(place.numbers());
        }
        count
    }

    // What a turn costs: with so many rows a factor and a complement, by sizes of blocks.
    fn steps(&self) -> u64 {
        let rows = self.monomials.len() as u64;
        let mut steps = rows.saturating_mul(rows).saturating_mul(rows) / 6;
        for place in &self.places {
            let size = place.basis.len() as u64;
            let square = size.saturating_mul(size);
            steps = steps.saturating_add(square.saturating_mul(square) / 2);
        }
        steps
    }

    // The programme's rows, without numbers; none where there are too many.
    fn rows(&self, alloc: Global) -> Result<Option<SemidefiniteProgram>, AllocError> {
        let count = self.monomials.len();
        let mut rights = vec![in alloc; 0.0; count]?;
        if let Some(last) = rights.last_mut() {
            *last = 1.0;
        }
        SemidefiniteProgram::new(alloc, &rights)
    }
}

// Adds a multiplier.
fn add_column(
    alloc: Global,
    programme: &mut SemidefiniteProgram,
    column: &Column,
    last: usize,
) -> Result<(), AllocError> {
    let number = programme.add_scalar(alloc, -column.constant)?;
    let variable = Variable::Scalar(number);
    for (monomial, coefficient) in &column.terms {
        programme.add_coefficient(monomial.saturating_sub(1), variable, *coefficient)?;
    }
    programme.add_coefficient(last, variable, 1.0)
}

// Adds the coefficients of an entry of a block.
fn add_entry(
    programme: &mut SemidefiniteProgram,
    number: usize,
    entry: Entry,
) -> Result<(), AllocError> {
    let weight = entry.weight();
    let variable = Variable::Entry(number, entry.first, entry.second);
    if entry.product == 0 {
        programme.add_cost(number, entry.first, entry.second, weight);
    } else {
        programme.add_coefficient(entry.product - 1, variable, -weight)?;
    }
    if let Some(raised) = entry.raised {
        programme.add_coefficient(raised.saturating_sub(1), variable, weight)?;
    }
    Ok(())
}

// Adds a block that is one number, by its entry.
fn add_scalar(
    alloc: Global,
    programme: &mut SemidefiniteProgram,
    entry: Entry,
) -> Result<usize, AllocError> {
    let cost = if entry.product == 0 { 1.0 } else { 0.0 };
    let number = programme.add_scalar(alloc, cost)?;
    if entry.product > 0 {
        programme.add_coefficient(entry.product - 1, Variable::Scalar(number), -1.0)?;
    }
    if let Some(raised) = entry.raised {
        programme.add_coefficient(raised.saturating_sub(1), Variable::Scalar(number), 1.0)?;
    }
    Ok(number)
}

// Adds a block, and notes its number; whether there was one.
fn add_place(
    alloc: Global,
    programme: &mut SemidefiniteProgram,
    place: &mut Place,
) -> Result<bool, AllocError> {
    if place.is_scalar() && place.entries.len() == 1 {
        place.number = add_scalar(alloc, programme, place.entries[0])?;
        return Ok(true);
    }
    let Some(number) = programme.add_block(alloc, place.basis.len())? else {
        return Ok(false);
    };
    place.number = number;
    for entry in &place.entries {
        add_entry(programme, number, *entry)?;
    }
    Ok(true)
}

// The programme of the parts; none where it is too large.
fn programme_of(
    alloc: Global,
    parts: &mut Parts,
) -> Result<Option<SemidefiniteProgram>, AllocError> {
    let Some(mut programme) = parts.rows(alloc)? else {
        return Ok(None);
    };
    let last = parts.monomials.len().saturating_sub(1);
    for column in &parts.columns {
        add_column(alloc, &mut programme, column, last)?;
    }
    for place in parts.places.iter_mut() {
        if !add_place(alloc, &mut programme, place)? {
            return Ok(None);
        }
    }
    Ok(Some(programme))
}

impl Statement {
    /// That of a set of atoms; none where it is too large.
    pub fn of(
        alloc: Global,
        atoms: &[Expanded],
        set: &[usize],
        sides: &Sides,
    ) -> Result<Option<Statement>, AllocError> {
        let Some(mut parts) = parts_of(alloc, atoms, set, sides)? else {
            return Ok(None);
        };
        if parts.numbers() > MOST_NUMBERS {
            return Ok(None);
        }
        let Some(programme) = programme_of(alloc, &mut parts)? else {
            return Ok(None);
        };
        let steps = parts.steps();
        Ok(Some(Statement {
            programme,
            columns: parts.columns,
            places: parts.places,
            monomials: parts.monomials,
            steps,
        }))
    }
}
