// Cliques of axes: those that stand together in a monomial are neighbours, and where an axis is taken away all its neighbours
// become each other's; always the one with the fewest is next. The axis with its neighbours is a clique.
use crate::axes::{bit, places_of};
use crate::expansion::Expanded;
use std::alloc::{AllocError, Global};

// The neighbours of each axis' place.
#[derive(Drop)]
struct Neighbours {
    of_place: Vec<u64>,
}

impl Neighbours {
    // Makes these all neighbours of one another.
    fn join(&mut self, places: u64) {
        for place in 0..self.of_place.len() {
            if places & bit(place) != 0 {
                self.of_place[place] |= places;
            }
        }
    }

    // The place and its neighbours among these.
    fn clique(&self, place: usize, left: u64) -> u64 {
        if place < self.of_place.len() {
            (self.of_place[place] & left) | bit(place)
        } else {
            0
        }
    }

    // The first of these places that has the fewest neighbours among them.
    fn fewest(&self, left: u64) -> Option<usize> {
        let mut least = 64;
        let mut best = None;
        for place in 0..self.of_place.len() {
            if left & bit(place) != 0 {
                let count = self.clique(place, left).count_ones();
                if best.is_none() || count < least {
                    least = count;
                    best = Some(place);
                }
            }
        }
        best
    }
}

// Whether one of these sets has all of the places.
fn is_within_one(sets: &[u64], places: u64) -> bool {
    for set in sets {
        if places & !*set == 0 {
            return true;
        }
    }
    false
}

// The neighbours by the monomials of a set of atoms.
fn neighbours_of(
    alloc: Global,
    axes: &[u32],
    atoms: &[Expanded],
    set: &[usize],
) -> Result<Neighbours, AllocError> {
    let mut neighbours = Neighbours {
        of_place: vec![in alloc; 0; axes.len()]?,
    };
    for j in set {
        if *j < atoms.len() {
            for term in &atoms[*j].terms {
                neighbours.join(places_of(axes, &term.axes));
            }
        }
    }
    Ok(neighbours)
}

// The cliques, as sets of places.
fn sets_of_places(alloc: Global, neighbours: &mut Neighbours) -> Result<Vec<u64>, AllocError> {
    let mut sets = Vec::new(alloc);
    let count = neighbours.of_place.len();
    let mut left = u64::MAX;
    for _ in 0..count {
        if let Some(place) = neighbours.fewest(left) {
            let clique = neighbours.clique(place, left);
            neighbours.join(clique);
            left &= !bit(place);
            if !is_within_one(&sets, clique) {
                sets.push(clique)?;
            }
        }
    }
    Ok(sets)
}

// The axes in these places.
fn axes_in(alloc: Global, axes: &[u32], places: u64) -> Result<Vec<u32>, AllocError> {
    let mut clique = Vec::new(alloc);
    for place in 0..axes.len() {
        if places & bit(place) != 0 {
            clique.push(axes[place])?;
        }
    }
    Ok(clique)
}

/// The cliques of the axes of a set of atoms; none is within another one.
pub fn cliques_of(
    alloc: Global,
    axes: &[u32],
    atoms: &[Expanded],
    set: &[usize],
) -> Result<Vec<Vec<u32>>, AllocError> {
    let mut neighbours = neighbours_of(alloc, axes, atoms, set)?;
    let sets = sets_of_places(alloc, &mut neighbours)?;
    let mut cliques = Vec::new(alloc);
    for places in &sets {
        cliques.push(axes_in(alloc, axes, *places)?)?;
    }
    Ok(cliques)
}
