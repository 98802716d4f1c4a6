// Blocks of squares in a programme.
use crate::monomials::{Monomials, product};
use crate::sides::Sides;
use cover_line::Factor;
use std::alloc::{AllocError, Global};

/// A programme has at most so many monomials by its bases.
const MOST_MONOMIALS: usize = 500;

/// An entry of a block: the numbers of its monomials' product, and of that times the square of the axis that is bounded.
#[derive(Clone, Copy)]
pub struct Entry {
    pub first: usize,
    pub second: usize,
    pub product: usize,
    pub raised: Option<usize>,
}

/// A monomial of a basis, with what it is at most, times the root of the factor, and with the power of two above it.
#[derive(Drop)]
pub struct Base {
    pub axes: Vec<u32>,
    pub size: f64,
    pub power: f64,
}

/// A block: its factor, its basis and its entries, and its number in the programme.
#[derive(Drop)]
pub struct Place {
    pub factor: Factor,
    pub basis: Vec<Base>,
    pub entries: Vec<Entry>,
    pub number: usize,
}

impl Entry {
    /// How often the entry stands in its matrix.
    pub fn weight(self) -> f64 {
        if self.first == self.second { 1.0 } else { 2.0 }
    }
}

// The monomials of a basis, with their sizes.
fn bases(
    alloc: Global,
    factor: Factor,
    basis: &[Vec<u32>],
    sides: &Sides,
) -> Result<Vec<Base>, AllocError> {
    let mut bases = Vec::new(alloc);
    for axes in basis {
        let mut size = sides.greatest(axes);
        let mut power = sides.power(axes);
        if let Factor::BoundOf(axis) = factor {
            size *= sides.half(axis);
            power *= sides.power(&[axis]);
        }
        let axes = Vec::from_slice(alloc, axes)?;
        bases.push(Base { axes, size, power })?;
    }
    Ok(bases)
}

// The entry of two monomials.
fn entry_of(
    alloc: Global,
    factor: Factor,
    basis: &[Base],
    first: usize,
    second: usize,
    monomials: &mut Monomials,
) -> Result<Option<Entry>, AllocError> {
    if first >= basis.len() || second >= basis.len() {
        return Ok(None);
    }
    let axes = product(alloc, &basis[first].axes, &basis[second].axes)?;
    let raised = match factor {
        Factor::One => None,
        Factor::BoundOf(axis) => Some(monomials.number(product(alloc, &axes, &[axis, axis])?)?),
    };
    let product = monomials.number(axes)?;
    Ok(Some(Entry {
        first,
        second,
        product,
        raised,
    }))
}

impl Place {
    // Adds the entries of a row.
    fn add_row(
        &mut self,
        alloc: Global,
        first: usize,
        monomials: &mut Monomials,
    ) -> Result<(), AllocError> {
        for second in first..self.basis.len() {
            if let Some(entry) = entry_of(
                alloc,
                self.factor,
                &self.basis,
                first,
                second,
                monomials,
            )? {
                self.entries.push(entry)?;
            }
        }
        Ok(())
    }

    /// The block of this basis; none where there are too many monomials.
    pub fn of(
        alloc: Global,
        factor: Factor,
        basis: &[Vec<u32>],
        sides: &Sides,
        monomials: &mut Monomials,
    ) -> Result<Option<Place>, AllocError> {
        let mut place = Place {
            factor,
            basis: bases(alloc, factor, basis, sides)?,
            entries: Vec::new(alloc),
            number: 0,
        };
        for first in 0..place.basis.len() {
            place.add_row(alloc, first, monomials)?;
            if monomials.len() > MOST_MONOMIALS {
                return Ok(None);
            }
        }
        Ok(Some(place))
    }

    /// Whether it is one number, which is at least 0.
    pub fn is_scalar(&self) -> bool {
        self.basis.len() == 1
    }

    /// How many numbers it has in a line.
    pub fn numbers(&self) -> usize {
        let mut count = self.entries.len().saturating_add(3);
        for base in &self.basis {
            count = count.saturating_add(base.axes.len()).saturating_add(1);
        }
        count
    }
}
