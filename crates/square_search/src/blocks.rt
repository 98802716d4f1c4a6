// The blocks of a programme: of the squares of each clique, and of those that are times the bound of an axis.
use crate::axes::place_of;
use crate::bases::{Limits, basis_of, lower_basis};
use crate::monomials::Monomials;
use crate::places::Place;
use crate::sides::Sides;
use cover_line::Factor;
use std::alloc::{AllocError, Global};

/// A clique with its basis.
#[derive(Drop)]
struct Clique {
    axes: Vec<u32>,
    basis: Vec<Vec<u32>>,
}

// The cliques with their bases; none where one is too large.
fn with_bases(
    alloc: Global,
    cliques: Vec<Vec<u32>>,
    limits: &Limits,
) -> Result<Option<Vec<Clique>>, AllocError> {
    let mut all = Vec::new(alloc);
    for axes in cliques {
        match basis_of(alloc, &axes, limits)? {
            None => return Ok(None),
            Some(basis) => all.push(Clique { axes, basis })?,
        }
    }
    Ok(Some(all))
}

// The largest clique that has the axis.
fn home(cliques: &[Clique], axis: u32) -> Option<usize> {
    let mut most = 0;
    let mut best = None;
    for k in 0..cliques.len() {
        let count = cliques[k].axes.len();
        if count > most && place_of(&cliques[k].axes, axis).is_some() {
            most = count;
            best = Some(k);
        }
    }
    best
}

// The block of a clique's squares that are times the bound of an axis; none where there are no such squares.
fn bound_place(
    alloc: Global,
    axis: u32,
    cliques: &[Clique],
    limits: &Limits,
    sides: &Sides,
    monomials: &mut Monomials,
) -> Result<Option<Place>, AllocError> {
    match home(cliques, axis) {
        Some(k) if k < cliques.len() => {
            let lower = lower_basis(alloc, &cliques[k].basis, axis, limits)?;
            if lower.is_empty() {
                return Ok(None);
            }
            Place::of(alloc, Factor::BoundOf(axis), &lower, sides, monomials)
        }
        _ => Ok(None),
    }
}

// The blocks of the cliques; none where there are too many monomials.
fn clique_places(
    alloc: Global,
    cliques: &[Clique],
    sides: &Sides,
    monomials: &mut Monomials,
) -> Result<Option<Vec<Place>>, AllocError> {
    let mut places = Vec::new(alloc);
    for clique in cliques {
        match Place::of(alloc, Factor::One, &clique.basis, sides, monomials)? {
            None => return Ok(None),
            Some(place) => places.push(place)?,
        }
    }
    Ok(Some(places))
}

/// All blocks; none where there are too many monomials.
pub fn places_within(
    alloc: Global,
    cliques: Vec<Vec<u32>>,
    limits: &Limits,
    sides: &Sides,
    monomials: &mut Monomials,
) -> Result<Option<Vec<Place>>, AllocError> {
    let Some(cliques) = with_bases(alloc, cliques, limits)? else {
        return Ok(None);
    };
    let Some(mut places) = clique_places(alloc, &cliques, sides, monomials)? else {
        return Ok(None);
    };
    for axis in &limits.axes {
        if let Some(place) = bound_place(alloc, *axis, &cliques, limits, sides, monomials)? {
            places.push(place)?;
        }
    }
    Ok(Some(places))
}
