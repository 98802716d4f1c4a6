// What is asserted of the constants that stand for roots and quotients, as it is written.
ghost use Rattle.std.specs.Prelude.{◌≡◌, ◌∷◌, [], OnOk};
ghost use Rattle.script_roots.specs.Rewritten.{negative_parts_at, number_at, parts_at, two_of};
ghost use Rattle.smt_sexp.specs.Views.{place_of};
ghost use Rattle.smt_sexp.specs.Writing.{Writes};
ghost use Rattle.root_rewriting.specs.Limits.{limit_at};
ghost use Rattle.root_rewriting.specs.Opened.{CanWrite, IsOpened, negative_at, symbol_at};
ghost use Rattle.root_rewriting.specs.Parts.{written_parts};
ghost use Rattle.root_rewriting.specs.Whole.{number_of};

use crate::digits::digits;
use crate::parts::{Parts, parts_above, parts_below};
use crate::spelling::{head, symbol};
use crate::whole::Whole;
use dyadic::Ext;
use script_fault::{Name, Place};
use smt_sexp::{Leaf, Writer};
use std::alloc::{AllocError, Global};

// How many parts an end is rounded to: 2^20.
const PARTS: u64 = 1_048_576;

// What stands in place of an end that there is none: 2^62 + 1.
const TOO_WIDE: u64 = 4_611_686_018_427_387_905;

/// What bounds a constant.
#[derive(Clone, Copy)]
pub(crate) enum Limit {
    /// A whole number, or 2^62 + 1 where there is none.
    Whole(Option<u64>),
    /// An end rounded down, or -2^62 - 1 where it is infinite.
    Low(Ext),
    /// An end rounded up, or 2^62 + 1 where it is infinite.
    High(Ext),
}

// A number of 64 bits.
fn whole(number: u64) -> Whole
    ensures { number_of result ≡ number }
{
    Whole {
        factor: number,
        power: 0,
    }
}

// Writes a number.
fn write_number(
    alloc: Global,
    writer: &mut Writer,
    at: Place,
    number: Whole,
) -> Result<(), AllocError>
    ensures { OnOk result
        (Writes writer.old writer.new (number_at (place_of at) (number_of number))) }
{
    let digits = digits(alloc, number)?;
    writer.leaf(at, Leaf::Numeral(Name::new(digits)))
}

// Writes so many 2^20ths.
fn write_parts(
    alloc: Global,
    writer: &mut Writer,
    at: Place,
    count: Whole,
) -> Result<(), AllocError>
    requires { CanWrite writer.old 16 }
    ensures { OnOk result
        (Writes writer.old writer.new (parts_at (place_of at) (number_of count))) }
{
    head(alloc, writer, at, b"/")?;
    write_number(alloc, writer, at, count)?;
    write_number(alloc, writer, at, whole(PARTS))?;
    writer.close()
}

// Writes minus so many.
fn write_negative_parts(
    alloc: Global,
    writer: &mut Writer,
    at: Place,
    count: Whole,
) -> Result<(), AllocError>
    requires { CanWrite writer.old 8 }
    ensures { OnOk result
        (Writes writer.old writer.new (negative_parts_at (place_of at) (number_of count))) }
{
    head(alloc, writer, at, b"-")?;
    write_parts(alloc, writer, at, count)?;
    writer.close()
}

// Writes so many 2^20ths, or minus so many.
fn write_signed_parts(
    alloc: Global,
    writer: &mut Writer,
    at: Place,
    number: Parts,
) -> Result<(), AllocError>
    requires { CanWrite writer.old 8 }
    ensures { OnOk result
        (Writes writer.old writer.new (written_parts (place_of at) number)) }
{
    if number.negative {
        write_negative_parts(alloc, writer, at, number.count)
    } else {
        write_parts(alloc, writer, at, number.count)
    }
}

// Writes minus a number.
fn write_negative(
    alloc: Global,
    writer: &mut Writer,
    at: Place,
    size: u64,
) -> Result<(), AllocError>
    requires { CanWrite writer.old 8 }
    ensures { OnOk result (Writes writer.old writer.new
        (negative_at (place_of at) (number_at (place_of at) size))) }
{
    head(alloc, writer, at, b"-")?;
    write_number(alloc, writer, at, whole(size))?;
    writer.close()
}

// Writes what bounds a constant.
fn write_limit(
    alloc: Global,
    writer: &mut Writer,
    at: Place,
    limit: Limit,
) -> Result<(), AllocError>
    requires { CanWrite writer.old 8 }
    ensures { OnOk result (Writes writer.old writer.new (limit_at (place_of at) limit)) }
{
    match limit {
        Limit::Whole(bound) => write_number(alloc, writer, at, whole(bound.unwrap_or(TOO_WIDE))),
        Limit::Low(Ext::Fin(end)) => write_signed_parts(alloc, writer, at, parts_below(end)),
        Limit::Low(_) => write_negative(alloc, writer, at, TOO_WIDE),
        Limit::High(Ext::Fin(end)) => write_signed_parts(alloc, writer, at, parts_above(end)),
        Limit::High(_) => write_number(alloc, writer, at, whole(TOO_WIDE)),
    }
}

/// Writes that a constant is in a relation to what bounds it.
pub(crate) fn write_bound(
    alloc: Global,
    writer: &mut Writer,
    at: Place,
    relation: &[u8],
    name: &[u8],
    end: Limit,
) -> Result<(), AllocError>
    requires { CanWrite writer.old 0 }
    ensures { OnOk result (Writes writer.old writer.new (two_of (place_of at) relation.now
        (symbol_at (place_of at) name.now) (limit_at (place_of at) end))) }
{
    head(alloc, writer, at, relation)?;
    symbol(alloc, writer, at, name)?;
    write_limit(alloc, writer, at, end)?;
    writer.close()
}
