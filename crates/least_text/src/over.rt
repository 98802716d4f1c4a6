// The certificate whose cover is the root alone.
ghost use Rattle.std.specs.Prelude.{IfOk};
ghost use Rattle.least_text.specs.Calls.{IsOverText};

use crate::facts::fits_certificate;
use crate::header::append_least_header;
use cert_text::keyword::{Counted, Plain};
use cert_text::{append_counted, append_plain, append_whole_point};
use cover_data::Options;
use dyadic::Dy;
use ival::Space;
use std::alloc::{AllocError, Global};

/// The certificate of a least value whose cover is the root alone, where the goal is not below `lower`, and of a point, as
/// text, at the margin, the delta and the bound of the options. It is accepted where the declared box is not empty, the
/// goal's enclosure over the root is not below `lower`, none being no bound, and the point is shown. Out of memory is its
/// one error.
pub fn write_over(
    alloc: Global,
    options: &Options,
    lower: Option<Dy>,
    point: &Space,
) -> Result<Vec<u8>, AllocError>
    ensures { IfOk result (IsOverText options.now lower point.now) }
{
    let mut text = Vec::new(alloc);
    append_least_header(&mut text, options, lower)?;
    append_counted(&mut text, Counted::Cover, 0)?;
    append_plain(&mut text, Plain::Tree)?;
    append_plain(&mut text, Plain::Over)?;
    append_plain(&mut text, Plain::End)?;
    append_whole_point(&mut text, point)?;
    fits_certificate(&text);
    Ok(text)
}
