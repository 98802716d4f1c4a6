// The first lines of a certificate of a least value.
ghost use Rattle.std.specs.Prelude.{◌≡◌};
ghost use Rattle.cert_text.specs.Calls.{Appends};
ghost use Rattle.least_text.specs.Calls.{header_of};
ghost use Rattle.least_text.specs.Lines.{least_version};

use cert_text::{append_header, append_lower_bound};
use cover_data::Options;
use dyadic::Dy;
use std::alloc::AllocError;

// The version of a certificate of a least value that has the lines of this version.
fn least_version(version: u32) -> u32
    ensures { result ≡ least_version version }
{
    if version == 2 { 4 } else { version }
}

/// Appends the version, of the options the margin, the delta and the bound, and the lower bound of the goal.
pub(crate) fn append_least_header(
    text: &mut Vec<u8>,
    options: &Options,
    lower: Option<Dy>,
) -> Result<(), AllocError>
    ensures { Appends text.old text.new (header_of options.now lower) result }
{
    append_header(text, least_version(options.version), options)?;
    append_lower_bound(text, lower)
}
