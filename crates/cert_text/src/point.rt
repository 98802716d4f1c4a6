// The certificate of a point.
ghost use Rattle.std.specs.Prelude.{◌≡◌, IfOk};
ghost use Rattle.ival.specs.SpaceViews.{space_of};
ghost use Rattle.cert_text.specs.Calls.{Appends, IsTextOfPoint, text_of_point};
ghost use Rattle.cert_text.specs.Parts.{whole_point};

use crate::append::append_plain;
use crate::facts::fits_certificate;
use crate::keyword::Plain;
use crate::parts::{append_header, append_point};
use cover_data::{Options, Point};
use ival::Space;
use poly_graph::Problem;
use std::alloc::{AllocError, Global};

/// Appends a point from its first line to its end. Out of memory is its one error.
pub fn append_whole_point(text: &mut Vec<u8>, space: &Space) -> Result<(), AllocError>
    ensures { Appends text.old text.new (whole_point (space_of space.now)) result }
{
    append_plain(text, Plain::Point)?;
    append_point(text, space)?;
    append_plain(text, Plain::End)
}

/// The certificate of a point, as text, in the version, at the margin, the delta and the bound of the options. It is accepted for the
/// problem where the point is shown for it. Out of memory is its one error.
pub fn write_point(
    alloc: Global,
    problem: &Problem,
    options: &Options,
    point: &Point,
) -> Result<Vec<u8>, AllocError>
    ensures text { IfOk result (λ text. text.items ≡ text_of_point options.now point.now) }
    ensures accepted { IfOk result (IsTextOfPoint problem.now options.now point.now) }
{
    let mut text = Vec::new(alloc);
    append_header(&mut text, options.version, options)?;
    append_whole_point(&mut text, point.space())?;
    fits_certificate(&text);
    Ok(text)
}
