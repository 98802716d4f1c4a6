// Axes of atoms: lists that ascend, and sets of their places as bits.
use crate::expansion::Expanded;
use std::alloc::{AllocError, Global};

/// A set of atoms stands on at most so many axes.
pub const MOST_AXES: usize = 30;

/// The place of an axis.
pub fn place_of(axes: &[u32], axis: u32) -> Option<usize> {
    for place in 0..axes.len() {
        if axes[place] == axis {
            return Some(place);
        }
    }
    None
}

// Adds an axis to a list that ascends, unless it is there.
fn insert(axes: &mut Vec<u32>, axis: u32) -> Result<(), AllocError> {
    let mut place = 0;
    for other in axes.iter() {
        if *other < axis && place < usize::MAX {
            place += 1;
        }
    }
    if place_of(axes, axis).is_none() && place <= axes.len() {
        axes.insert(place, axis)?;
    }
    Ok(())
}

/// Adds the axes of an atom's term.
pub fn insert_axes(axes: &mut Vec<u32>, atom: &Expanded) -> Result<(), AllocError> {
    for term in &atom.terms {
        for axis in &term.axes {
            insert(axes, *axis)?;
        }
    }
    Ok(())
}

/// The axes of a set of atoms.
pub fn axes_of(alloc: Global, atoms: &[Expanded], set: &[usize]) -> Result<Vec<u32>, AllocError> {
    let mut axes = Vec::new(alloc);
    for j in set {
        if *j < atoms.len() {
            insert_axes(&mut axes, &atoms[*j])?;
        }
    }
    Ok(axes)
}

/// The place's bit, if there is one.
pub fn bit(place: usize) -> u64 {
    if place < 64 { 1 << place } else { 0 }
}

/// The places of a monomial's axes.
pub fn places_of(axes: &[u32], monomial: &[u32]) -> u64 {
    let mut places = 0;
    for axis in monomial {
        if let Some(place) = place_of(axes, *axis) {
            places |= bit(place);
        }
    }
    places
}

/// Whether all axes of an atom's term are among these.
pub fn are_among(axes: &[u32], atom: &Expanded) -> bool {
    for term in &atom.terms {
        for axis in &term.axes {
            if place_of(axes, *axis).is_none() {
                return false;
            }
        }
    }
    true
}
