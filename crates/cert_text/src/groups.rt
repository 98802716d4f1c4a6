// The words of two groups of atoms, each after a space.
ghost use Rattle.std.specs.Prelude.{OnOk};
ghost use Rattle.cover_line.specs.Words.{of_groups};
ghost use Rattle.cert_text.specs.Ruled.{HasOperands};

use crate::squares::{append_each, append_size};
use std::alloc::AllocError;

/// Appends how many atoms the first group has, its atoms, and those of the second.
pub(crate) fn append_groups(
    text: &mut Vec<u8>,
    first: &[u32],
    second: &[u32],
) -> Result<(), AllocError>
    ensures { OnOk result (HasOperands text.old.items (of_groups first.now second.now)
        text.new.items) }
{
    append_size(text, first.len())?;
    append_each(text, first)?;
    append_each(text, second)
}
