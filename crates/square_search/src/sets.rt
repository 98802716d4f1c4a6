// Sets of atoms that are tried together: all, or for each atom with a product those on its axes.
use crate::axes::{MOST_AXES, are_among, axes_of};
use crate::expansion::Expanded;
use std::alloc::{AllocError, Global};

/// At most so many sets around one atom are tried.
const MOST_SETS: usize = 4;

/// A set of atoms, ascending, and on how many axes they stand.
#[derive(Drop)]
pub struct Set {
    pub atoms: Vec<usize>,
    axes: usize,
}

// The set of all atoms.
fn everything(alloc: Global, atoms: &[Expanded]) -> Result<Set, AllocError> {
    let mut all = Vec::new(alloc);
    for j in 0..atoms.len() {
        all.push(j)?;
    }
    let axes = axes_of(alloc, atoms, &all)?.len();
    Ok(Set { atoms: all, axes })
}

// The set of the atoms whose axes are all among those of atom j.
fn around(alloc: Global, atoms: &[Expanded], j: usize) -> Result<Set, AllocError> {
    let axes = axes_of(alloc, atoms, &[j])?;
    let mut set = Vec::new(alloc);
    for k in 0..atoms.len() {
        if are_among(&axes, &atoms[k]) {
            set.push(k)?;
        }
    }
    Ok(Set {
        atoms: set,
        axes: axes.len(),
    })
}

// Whether one of the sets has the same atoms.
fn is_there(sets: &[Set], set: &Set) -> bool {
    for other in sets {
        if other.atoms == set.atoms {
            return true;
        }
    }
    false
}

// Puts a set before the first one on fewer axes.
fn insert(sets: &mut Vec<Set>, set: Set) -> Result<(), AllocError> {
    let mut place = 0;
    for other in sets.iter() {
        if other.axes >= set.axes && place < usize::MAX {
            place += 1;
        }
    }
    if place <= sets.len() {
        sets.insert(place, set)?;
    }
    Ok(())
}

/// The set of all atoms; none where they stand on too many axes.
pub fn whole_set(alloc: Global, atoms: &[Expanded]) -> Result<Option<Set>, AllocError> {
    let set = everything(alloc, atoms)?;
    if set.axes > MOST_AXES || set.atoms.is_empty() {
        return Ok(None);
    }
    Ok(Some(set))
}

/// The sets around atoms, those on the most axes first.
pub fn small_sets(alloc: Global, atoms: &[Expanded]) -> Result<Vec<Set>, AllocError> {
    let mut sets = Vec::new(alloc);
    for j in 0..atoms.len() {
        if atoms[j].degree() > 1 {
            let set = around(alloc, atoms, j)?;
            if set.axes <= MOST_AXES && !is_there(&sets, &set) {
                insert(&mut sets, set)?;
            }
        }
    }
    sets.truncate(MOST_SETS);
    Ok(sets)
}
