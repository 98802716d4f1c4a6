// The answers of a check.
ghost use Rattle.std.specs.Prelude.{◌≡◌, [], ◌∷◌, IfOk, List, length};
ghost use Rattle.interval_model.specs.Space.{Space};
ghost use Rattle.cover_model.specs.State.{Loosenings};
ghost use Rattle.cert_model.specs.Due.{Standing, at_point, left_open};
ghost use Rattle.cert_model.specs.AnswerText.{check_text};
ghost use Rattle.check_run.specs.Loosened.{AtDelta, AtMargin};

use std::alloc::{AllocError, Global};

/// The certificate shows that no point satisfies the script, even loosened by two to the minus `margin_bits`.
pub fn confirmed_unsat(alloc: Global, margin_bits: u32) -> Result<Vec<u8>, AllocError>
    ensures { IfOk result (λ text. AtMargin margin_bits (λ s.
        text.items ≡ check_text s (left_open []))) }
{
    let text = format!(in alloc; "confirmed unsat\nmargin 1b-{margin_bits}\n")?;
    Ok(text.into_bytes())
}

/// The certificate's point satisfies the script, loosened by two to the minus `delta_bits`.
pub fn confirmed_delta_sat(alloc: Global, delta_bits: u32) -> Result<Vec<u8>, AllocError>
    ensures { IfOk result (λ text. AtDelta delta_bits (λ s. (point : Space) →
        text.items ≡ check_text s (at_point point))) }
{
    let text = format!(in alloc; "confirmed delta-sat\ndelta 1b-{delta_bits}\n")?;
    Ok(text.into_bytes())
}

/// The certificate leaves so many boxes, at least one.
pub fn left_open(alloc: Global, boxes: u64) -> Result<Vec<u8>, AllocError>
    ensures { IfOk result (λ text. (s : Loosenings) (first : Standing) (rest : List Standing) →
        length (first ∷ rest) ≡ boxes → text.items ≡ check_text s (left_open (first ∷ rest))) }
{
    let text = format!(in alloc; "open {boxes}\n")?;
    Ok(text.into_bytes())
}
