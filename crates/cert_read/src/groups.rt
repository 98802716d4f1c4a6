// The operands of a line of two groups of atoms, read from the left.
ghost use Rattle.std.specs.Prelude.{option_copied};
ghost use Rattle.cert_read.specs.Taking.{AreGroupsIn};
ghost use Rattle.cert_read.specs.Words.{words_behind};

use crate::LineFault;
use crate::number::list;
use crate::squares::Ahead;
use std::alloc::Global;

/// The two groups of what stands behind a space, where there is one: the number of the first, its atoms, and the others.
pub(crate) fn groups(alloc: Global, rest: Option<&[u8]>) -> Result<(Vec<u32>, Vec<u32>), LineFault>
    ensures { AreGroupsIn result (words_behind (option_copied rest.entry)) }
{
    let mut ahead = Ahead { rest };
    let many = ahead.count()?;
    let first = ahead.counts(alloc, many)?;
    let second = list(alloc, ahead.rest)?;
    Ok((first, second))
}
