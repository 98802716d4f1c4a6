// Atoms in a programme.
use crate::expansion::Expanded;
use crate::monomials::Monomials;
use std::alloc::{AllocError, Global};

/// What fails where it is above 0: the term of an atom, or its opposite, less what it is allowed.
#[derive(Drop)]
pub struct Column {
    pub atom: u32,
    /// what the atom's term is multiplied by
    pub by: f64,
    pub constant: f64,
    /// numbers of monomials with their coefficients, without 1
    pub terms: Vec<(usize, f64)>,
}

// That of the term times the sign.
fn signed_column(
    alloc: Global,
    atom: &Expanded,
    sign: f64,
    monomials: &mut Monomials,
) -> Result<Column, AllocError> {
    let mut terms = Vec::new(alloc);
    for term in &atom.terms {
        let number = monomials.number(Vec::from_slice(alloc, &term.axes)?)?;
        terms.push((number, sign * term.coefficient))?;
    }
    Ok(Column {
        atom: atom.candidate.atom,
        by: sign * atom.candidate.sign / atom.scale,
        constant: sign * atom.constant - atom.limit,
        terms,
    })
}

/// The columns of a set of atoms, two for an equation.
pub fn columns_of(
    alloc: Global,
    atoms: &[Expanded],
    set: &[usize],
    monomials: &mut Monomials,
) -> Result<Vec<Column>, AllocError> {
    let mut columns = Vec::new(alloc);
    for j in set {
        if *j < atoms.len() {
            columns.push(signed_column(alloc, &atoms[*j], 1.0, monomials)?)?;
            if atoms[*j].candidate.is_equation {
                columns.push(signed_column(alloc, &atoms[*j], -1.0, monomials)?)?;
            }
        }
    }
    Ok(columns)
}
