// The bits of margin and delta in the header of a certificate.
ghost use Rattle.std.specs.Prelude.{◌≡◌, IfOk};
ghost use Rattle.cert_read.specs.Lines.{lines_of};
ghost use Rattle.cert_read.specs.Reading.{lines_ahead};
ghost use Rattle.cert_read.specs.Views.{line_of};
ghost use Rattle.cert_parting.specs.Calls.{SaysNext};
ghost use Rattle.cert_parting.specs.Parting.{bits_of, bits_of_lines};

use cert_read::{Line, LineFault, LineReader};
use std::alloc::{AllocError, Global};

// What the next line says; none where it is no line of a certificate, and where there is none.
fn next_said(reader: &mut LineReader) -> Result<Option<Line>, AllocError>
    ensures { IfOk result (SaysNext (lines_ahead reader.old) reader.new) }
{
    match reader.next_line() {
        Ok(said) => Ok(said),
        Err(LineFault::Memory) => Err(AllocError),
        Err(_) => Ok(None),
    }
}

// The bits that the two lines say.
fn bits_of(margin: &Line, delta: &Line) -> Option<(u32, u32)>
    ensures { result ≡ bits_of (line_of margin.now) (line_of delta.now) }
{
    match margin {
        Line::Margin(margin) => match delta {
            Line::Delta(delta) => Some((*margin, *delta)),
            _ => None,
        },
        _ => None,
    }
}

// The bits that the next two lines say, behind the first.
fn bits_ahead(reader: &mut LineReader) -> Result<Option<(u32, u32)>, AllocError>
    ensures { IfOk result (λ bits. bits ≡ bits_of_lines (lines_ahead reader.old)) }
{
    match next_said(reader) {
        Ok(Some(_)) => {}
        Ok(None) => return Ok(None),
        Err(error) => return Err(error),
    }
    let margin = match next_said(reader) {
        Ok(Some(line)) => line,
        Ok(None) => return Ok(None),
        Err(error) => return Err(error),
    };
    match next_said(reader) {
        Ok(Some(delta)) => Ok(bits_of(&margin, &delta)),
        Ok(None) => Ok(None),
        Err(error) => Err(error),
    }
}

/// The bits of margin and delta in the second and the third line of a text; none where others stand there.
pub fn bits_of_text(alloc: Global, text: &[u8]) -> Result<Option<(u32, u32)>, AllocError>
    ensures { IfOk result (λ bits. bits ≡ bits_of_lines (lines_of text.now)) }
{
    let mut reader = LineReader::new(alloc);
    match reader.feed(text) {
        Ok(()) => {}
        Err(error) => return Err(error),
    }
    reader.end();
    bits_ahead(&mut reader)
}
