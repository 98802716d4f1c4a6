// Monomials: axes in ascending order, one for each factor.
ghost use Rattle.std.specs.Prelude.{◌≡◌, ℕ, ◌<◌, ◌≤◌, length, slice_index, IfOk, OnOk};
ghost use Rattle.square_model.specs.Polynomial.{with_axis, together};

use std::alloc::{AllocError, Global};

// The first place with an axis that is not less.
fn place_of(axes: &[u32], axis: u32) -> usize
    ensures within { result ≤ length axes.now }
    ensures before { (k : ℕ) → k < result → slice_index axes.now k < axis }
    ensures at { result < length axes.now → axis ≤ slice_index axes.now result }
{
    for place in 0..axes.len() {
        if axis <= axes[place] {
            return place;
        }
    }
    axes.len()
}

// Puts the axis into its place.
fn insert_axis(axes: &mut Vec<u32>, axis: u32) -> Result<(), AllocError>
    ensures { OnOk result (axes.new.items ≡ with_axis axis axes.old.items) }
{
    let place = place_of(axes, axis);
    axes.insert(place, axis)?;
    Ok(())
}

/// The axes of both.
pub fn together(alloc: Global, first: &[u32], second: &[u32]) -> Result<Vec<u32>, AllocError>
    ensures { IfOk result (λ axes. axes.items ≡ together first.now second.now) }
{
    let mut axes = Vec::from_slice(alloc, second)?;
    let mut left = first.len();
    while left > 0 {
        left -= 1;
        insert_axis(&mut axes, first[left])?;
    }
    Ok(axes)
}
