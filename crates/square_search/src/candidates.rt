// The atoms that are marked, and are not yet known to lie where the mark asks for.
use ival::{Rows, Space};
use poly_graph::{Kind, Lits, Mark, Problem};
use relaxation::{is_asking, margin_of};
use std::alloc::{AllocError, Global};

/// A line has at most so many atoms.
const MOST_ATOMS: usize = 64;

/// A box, what is marked there, and what is known of it.
#[derive(Clone, Copy)]
pub struct Boxed<'a> {
    pub problem: &'a Problem,
    /// the margin is 2 to the power of minus these
    pub margin_bits: u32,
    pub lits: &'a Lits,
    pub space: &'a Space,
    /// enclosures of all nodes over the space
    pub rows: &'a Rows,
    /// the middle of the space
    pub centre: &'a Space,
    /// at most about so many steps are made
    pub most_steps: u64,
}

/// An atom that fails where its term, times the sign, is above the limit; an equation also where the opposite is.
#[derive(Clone, Copy)]
pub struct Candidate {
    pub atom: u32,
    pub root: u32,
    pub sign: f64,
    pub limit: f64,
    pub is_equation: bool,
}

// The sign of an atom, by its kind and its mark.
fn sign_of(kind: Kind, mark: Mark) -> f64 {
    match (kind, mark) {
        (Kind::Ge, Mark::Yes) | (Kind::Le, Mark::No) => -1.0,
        _ => 1.0,
    }
}

// Atom j, if it is a candidate.
fn candidate_at(boxed: &Boxed, j: usize) -> Option<Candidate> {
    let atoms = boxed.problem.atoms();
    let marks = boxed.lits.marks();
    if j >= atoms.len() || j >= marks.len() {
        return None;
    }
    if !is_asking(boxed.problem, boxed.margin_bits, boxed.lits, boxed.rows, j) {
        return None;
    }
    let Ok(atom) = u32::try_from(j) else {
        return None;
    };
    let margin = margin_of(boxed.margin_bits);
    let kind = atoms[j].kind;
    Some(Candidate {
        atom,
        root: atoms[j].term,
        sign: sign_of(kind, marks[j]),
        limit: if marks[j] == Mark::No {
            -margin
        } else {
            margin
        },
        is_equation: kind == Kind::Eq,
    })
}

/// The first candidates, by number.
pub fn candidates_of(alloc: Global, boxed: &Boxed) -> Result<Vec<Candidate>, AllocError> {
    let mut candidates = Vec::new(alloc);
    for j in 0..boxed.problem.atoms().len() {
        if candidates.len() < MOST_ATOMS {
            if let Some(candidate) = candidate_at(boxed, j) {
                candidates.push(candidate)?;
            }
        }
    }
    Ok(candidates)
}
