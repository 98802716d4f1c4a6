// The answers of a plan.
ghost use Rattle.std.specs.Prelude.{◌≡◌, IfOk};
ghost use Rattle.check_run.specs.Plans.{least_bits_text, no_atom_text, no_axis_text};

use std::alloc::{AllocError, Global};

/// Boxes whose sides are at most two to the minus `bits` leave no atom undecided.
pub fn plan_least_bits(alloc: Global, bits: u32) -> Result<Vec<u8>, AllocError>
    ensures { IfOk result (λ text. text.items ≡ least_bits_text bits) }
{
    let text = format!(in alloc; "plan least-bits {bits}\n")?;
    Ok(text.into_bytes())
}

/// No width is sure to decide the atom of this number.
pub fn plan_no_atom(alloc: Global, atom: usize) -> Result<Vec<u8>, AllocError>
    ensures { IfOk result (λ text. text.items ≡ no_atom_text atom) }
{
    let text = format!(in alloc; "plan none atom {atom}\n")?;
    Ok(text.into_bytes())
}

/// The axis of this number reaches too far for the width that the atoms need.
pub fn plan_no_axis(alloc: Global, axis: usize) -> Result<Vec<u8>, AllocError>
    ensures { IfOk result (λ text. text.items ≡ no_axis_text axis) }
{
    let text = format!(in alloc; "plan none axis {axis}\n")?;
    Ok(text.into_bytes())
}
