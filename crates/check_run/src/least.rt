// The answer of a check of a least value.
ghost use Rattle.std.specs.Prelude.{◌≡◌, ◌++◌, IfOk, OnOk, option_map};
ghost use Rattle.dyadic.specs.Views.{dyadic_of, ext_of};
ghost use Rattle.cert_read.specs.LineText.{lower_text};
ghost use Rattle.cert_model.specs.AnswerText.{end_text};
ghost use Rattle.check_run.specs.Goals.{bounds_text, told_upper};

use crate::axes::append_number;
use cert_least::Least;
use dyadic::{Dy, Ext};
use std::alloc::{AllocError, Global};

/// Appends a lower bound, or `none` for minus infinity.
pub(crate) fn append_lower(text: &mut Vec<u8>, lower: Option<Dy>) -> Result<(), AllocError>
    ensures { OnOk result (text.new.items
        ≡ text.old.items ++ lower_text (option_map dyadic_of lower)) }
{
    match lower {
        Some(number) => append_number(text, number),
        None => text.extend_from_slice(b"none"),
    }
}

fn append_end(text: &mut Vec<u8>, end: Ext) -> Result<(), AllocError>
    ensures { OnOk result (text.new.items ≡ text.old.items ++ end_text (ext_of end)) }
{
    match end {
        Ext::Fin(number) => append_number(text, number),
        Ext::NegInf | Ext::PosInf => text.extend_from_slice(b"none"),
    }
}

/// Appends a line of an upper end, where there is one.
pub(crate) fn append_upper(text: &mut Vec<u8>, upper: Option<Ext>) -> Result<(), AllocError>
    ensures { OnOk result (text.new.items
        ≡ text.old.items ++ told_upper (option_map ext_of upper)) }
{
    let Some(end) = upper else {
        return Ok(());
    };
    text.extend_from_slice(b"upper ")?;
    append_end(text, end)?;
    text.extend_from_slice(b"\n")
}

/// The certificate shows a lower bound of the goal, and with a point an upper one.
pub fn confirmed_least(alloc: Global, least: Least) -> Result<Vec<u8>, AllocError>
    ensures { IfOk result (λ text. text.items ≡ bounds_text least) }
{
    let mut text = Vec::new(alloc);
    text.extend_from_slice(b"confirmed lower ")?;
    append_lower(&mut text, least.lower)?;
    text.extend_from_slice(b"\n")?;
    append_upper(&mut text, least.upper)?;
    Ok(text)
}
