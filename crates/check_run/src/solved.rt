// The answers of a search.
ghost use Rattle.std.specs.Prelude.{◌≡◌, IfOk, List};
ghost use Rattle.poly_graph.specs.ProblemViews.{problem_of};
ghost use Rattle.poly_graph.specs.Marks.{Mark};
ghost use Rattle.ival.specs.SpaceViews.{space_of};
ghost use Rattle.cert_model.specs.AnswerText.{budget_text, delta_sat_text, unsat_text, width_text};
ghost use Rattle.check_run.specs.Answer.{demo_text, first_line as line_of};
ghost use Rattle.check_run.specs.Resumed.{part_text};
ghost use Rattle.check_run.specs.Loosened.{AtDelta, AtMargin};

use crate::axes::{Shown, append_axes};
use ival::Space;
use poly_graph::Problem;
use std::alloc::{AllocError, Global};

/// No point satisfies the script, even loosened by two to the minus `margin_bits`.
pub fn unsat(alloc: Global, margin_bits: u32) -> Result<Vec<u8>, AllocError>
    ensures { IfOk result (λ text. AtMargin margin_bits (λ s. text.items ≡ unsat_text s)) }
{
    let text = format!(in alloc; "unsat\nmargin 1b-{margin_bits}\n")?;
    Ok(text.into_bytes())
}

/// The point satisfies the script, loosened by two to the minus `delta_bits`.
pub fn delta_sat(
    alloc: Global,
    problem: &Problem,
    delta_bits: u32,
    point: &Space,
) -> Result<Vec<u8>, AllocError>
    ensures { IfOk result (λ text. AtDelta delta_bits (λ s.
        text.items ≡ delta_sat_text (problem_of problem.now) s (space_of point.now))) }
{
    let head = format!(in alloc; "delta-sat\ndelta 1b-{delta_bits}\n")?;
    let mut text = head.into_bytes();
    append_axes(&mut text, problem.axes(), point, Shown::Value)?;
    Ok(text)
}

/// Nothing is left in the share `number` of `count`, and `others` states are open in others.
pub fn part(
    alloc: Global,
    number: u32,
    count: u32,
    others: u64,
    margin_bits: u32,
) -> Result<Vec<u8>, AllocError>
    ensures { IfOk result (λ text. AtMargin margin_bits (λ s.
        text.items ≡ part_text (record { number = number; count = count }) others s)) }
{
    let text = format!(in alloc;
        "part {number}/{count}\nopen {others}\nmargin 1b-{margin_bits}\n"
    )?;
    Ok(text.into_bytes())
}

/// The budget of branches was spent before an answer was found.
pub fn budget(alloc: Global, budget: u64) -> Result<Vec<u8>, AllocError>
    ensures { IfOk result (λ text. text.items ≡ budget_text budget) }
{
    let text = format!(in alloc; "unknown budget {budget}\n")?;
    Ok(text.into_bytes())
}

/// A box of the least width is left, at which the atom of this number is not decided.
pub fn width(
    alloc: Global,
    problem: &Problem,
    space: &Space,
    atom: u32,
) -> Result<Vec<u8>, AllocError>
    ensures { IfOk result (λ text. (marks : List Mark) →
        text.items ≡ width_text (problem_of problem.now)
        (record { space = space_of space.now; marks = marks }) atom) }
{
    let head = format!(in alloc; "unknown width\natom {atom}\n")?;
    let mut text = head.into_bytes();
    append_axes(&mut text, problem.axes(), space, Shown::Ends)?;
    Ok(text)
}

// The bytes of a text before its first line feed.
fn first_line(text: &[u8]) -> &[u8]
    ensures { result.now ≡ line_of text.now }
{
    let mut end = 0;
    while end < text.len() && text[end] != b'\n' {
        end += 1;
    }
    &text[..end]
}

/// A script of so many bytes and atoms was made, of which `solve` answers this.
pub fn demo(alloc: Global, bytes: u64, atoms: u64, answer: &[u8]) -> Result<Vec<u8>, AllocError>
    ensures { IfOk result (λ text. text.items ≡ demo_text bytes atoms answer.now) }
{
    let head = format!(in alloc; "script {bytes} atoms {atoms} answer ")?;
    let mut text = head.into_bytes();
    text.extend_from_slice(first_line(answer))?;
    text.push(b'\n')?;
    Ok(text)
}
