// A number from its text.
ghost use Rattle.std.specs.Prelude.{◌≡◌};
ghost use Rattle.dyadic.specs.NumberText.{number_text};
ghost use Rattle.dyadic.specs.TextAnswer.{text_answer};

use crate::dy::Dy;
use crate::dy_text::DyText;
use crate::reading::{is_canonical, is_nought, number_of, parts_of};

/// The number that the text spells, or why it spells none.
pub fn read_dy(text: &[u8]) -> Result<Dy, DyText>
    ensures { text_answer result ≡ number_text text.now }
{
    if is_nought(text) {
        return Ok(Dy::ZERO);
    }
    let Some(parts) = parts_of(text) else {
        return Err(DyText::NotANumber);
    };
    if !is_canonical(parts.digits, parts.below, parts.exponent) {
        return Err(DyText::NotCanonical);
    }
    match number_of(parts.negative, parts.digits, parts.below, parts.exponent) {
        Some(v) => Ok(v),
        None => Err(DyText::NotRepresentable),
    }
}
