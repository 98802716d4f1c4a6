// The names of the constants that stand for roots and quotients.
ghost use Rattle.std.specs.Prelude.{◌≡◌, IfOk, map};
ghost use Rattle.root_rewriting.specs.Names.{word_of};
ghost use Rattle.root_rewriting.specs.Spelling.{fresh_name};

use crate::constants::{Fresh, Kind};
use itoa::Buffer;
use script_fault::Name;
use std::alloc::{AllocError, Global};

// The word of a kind, with what stands before the number.
fn word(kind: Kind) -> &'static [u8]
    ensures { result.now ≡ word_of kind }
{
    match kind {
        Kind::Root => b"|sqrt(",
        Kind::Quotient => b"|quotient(",
    }
}

/// The name of a constant.
pub(crate) fn name(alloc: Global, fresh: Fresh) -> Result<Name, AllocError>
    ensures { IfOk result (λ name. name ≡ fresh_name fresh) }
{
    let mut buffer = Buffer::new();
    let mut name = Vec::from_slice(alloc, word(fresh.kind))?;
    name.extend_from_slice(buffer.format(fresh.number).as_bytes())?;
    name.extend_from_slice(b")")?;
    Ok(Name::new(name))
}

/// The names of constants, in order.
pub(crate) fn names(alloc: Global, table: &[Fresh]) -> Result<Vec<Name>, AllocError>
    ensures { IfOk result (λ names. names.items ≡ map fresh_name table.now) }
{
    let mut names = Vec::with_capacity(alloc, table.len())?;
    for fresh in table {
        names.push(name(alloc, *fresh)?)?;
    }
    Ok(names)
}
