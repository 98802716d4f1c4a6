// Bases: the monomials of which squares are made.
use crate::axes::place_of;
use crate::expansion::Expanded;
use crate::monomials::exponent_of;
use std::alloc::{AllocError, Global};

/// A basis has at most so many monomials.
const MOST_MONOMIALS: usize = 90;

/// What the monomials of bases are bounded by.
#[derive(Drop)]
pub struct Limits {
    pub axes: Vec<u32>,
    /// the greatest exponent of each axis
    caps: Vec<usize>,
    /// the greatest degree
    pub half: usize,
}

// Half of a number, rounded up.
fn half_of(n: usize) -> usize {
    n / 2 + n % 2
}

impl Limits {
    /// Half of what stands in a set of atoms, rounded up.
    pub fn of(
        alloc: Global,
        axes: Vec<u32>,
        atoms: &[Expanded],
        set: &[usize],
    ) -> Result<Limits, AllocError> {
        let caps = vec![in alloc; 1; axes.len()]?;
        let mut limits = Limits {
            axes,
            caps,
            half: 1,
        };
        for j in set {
            if *j < atoms.len() {
                limits.raise(&atoms[*j]);
            }
        }
        Ok(limits)
    }

    // Raises the limits to half of what stands in an atom.
    fn raise(&mut self, atom: &Expanded) {
        for term in &atom.terms {
            self.half = self.half.max(half_of(term.axes.len()));
            for axis in &term.axes {
                self.raise_cap(*axis, half_of(exponent_of(&term.axes, *axis)));
            }
        }
    }

    // Raises the greatest exponent of an axis.
    fn raise_cap(&mut self, axis: u32, cap: usize) {
        if let Some(place) = place_of(&self.axes, axis) {
            if place < self.caps.len() && self.caps[place] < cap {
                self.caps[place] = cap;
            }
        }
    }

    /// The greatest exponent of an axis.
    pub fn cap(&self, axis: u32) -> usize {
        match place_of(&self.axes, axis) {
            Some(place) if place < self.caps.len() => self.caps[place],
            _ => 0,
        }
    }
}

// Adds the products of a monomial with powers of an axis that comes after its own.
fn add_powers(
    alloc: Global,
    monomial: &[u32],
    axis: u32,
    most: usize,
    basis: &mut Vec<Vec<u32>>,
) -> Result<(), AllocError> {
    for count in 0..=most {
        let mut product = Vec::from_slice(alloc, monomial)?;
        for _ in 0..count {
            product.push(axis)?;
        }
        basis.push(product)?;
    }
    Ok(())
}

/// The monomials of a clique within the limits; none where there are too many.
pub fn basis_of(
    alloc: Global,
    clique: &[u32],
    limits: &Limits,
) -> Result<Option<Vec<Vec<u32>>>, AllocError> {
    let mut basis = Vec::new(alloc);
    basis.push(Vec::new(alloc))?;
    for axis in clique {
        let mut longer = Vec::new(alloc);
        for monomial in &basis {
            let left = limits.half.saturating_sub(monomial.len());
            let most = limits.cap(*axis).min(left);
            add_powers(alloc, monomial, *axis, most, &mut longer)?;
        }
        if longer.len() > MOST_MONOMIALS {
            return Ok(None);
        }
        basis = longer;
    }
    Ok(Some(basis))
}

/// The monomials of a basis that, times the axis, are within the limits.
pub fn lower_basis(
    alloc: Global,
    basis: &[Vec<u32>],
    axis: u32,
    limits: &Limits,
) -> Result<Vec<Vec<u32>>, AllocError> {
    let mut lower = Vec::new(alloc);
    for monomial in basis {
        if monomial.len() < limits.half && exponent_of(monomial, axis) < limits.cap(axis) {
            lower.push(Vec::from_slice(alloc, monomial)?)?;
        }
    }
    Ok(lower)
}
