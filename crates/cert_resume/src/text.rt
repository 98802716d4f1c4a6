// The text of a cover that goes on.
ghost use Rattle.std.specs.Prelude.{◌≡◌, ◌≤◌, ◌++◌, IfOk, OnOk, length, map};
ghost use Rattle.cert_read.specs.Views.{line_of};
ghost use Rattle.cert_model.specs.Accepted.{certificate_text, most_bytes, most_lemmas};
ghost use Rattle.cert_resume.specs.Text.{header_lines, whole_text};

use crate::going::Going;
use cert_read::Line;
use cert_text::append_line;
use cover_data::Options;
use std::alloc::{AllocError, Global};

// The lines before the lemmas, of which there are so many.
fn append_header(text: &mut Vec<u8>, options: &Options, count: u32) -> Result<(), AllocError>
    ensures { OnOk result (text.new.items
        ≡ text.old.items ++ certificate_text (header_lines options.now count)) }
{
    append_line(text, &Line::Version(options.version))?;
    append_line(text, &Line::Margin(options.margin_bits))?;
    append_line(text, &Line::Delta(options.delta_bits))?;
    append_line(text, &Line::Bound(options.bound))?;
    append_line(text, &Line::Cover(count))
}

// Lines as they were read.
fn append_lines(text: &mut Vec<u8>, lines: &[Line]) -> Result<(), AllocError>
    ensures { OnOk result (text.new.items
        ≡ text.old.items ++ certificate_text (map line_of lines.now)) }
{
    for line in lines {
        append_line(text, line)?;
    }
    Ok(())
}

/// The certificate: the lines of the lemmas that were read, those of the lemmas that were learned, and the main tree.
pub fn written(
    alloc: Global,
    options: &Options,
    lemma_lines: &[Line],
    going: &Going,
) -> Result<Vec<u8>, AllocError>
    requires { length going.now.lemmas.items ≤ most_lemmas }
    ensures text { IfOk result (λ text.
        text.items ≡ whole_text options.now (map line_of lemma_lines.now) going.now) }
    ensures fits { IfOk result (λ text. length text.items ≤ most_bytes) }
{
    let mut text = Vec::new(alloc);
    let options = options.in_version(going.version);
    append_header(&mut text, &options, going.lemmas.len() as u32)?;
    append_lines(&mut text, lemma_lines)?;
    text.extend_from_slice(&going.learned)?;
    append_line(&mut text, &Line::Tree)?;
    text.extend_from_slice(&going.main)?;
    append_line(&mut text, &Line::End)?;
    Ok(text)
}
