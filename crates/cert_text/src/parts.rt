// The parts of a certificate.
ghost use Rattle.std.specs.Prelude.{◌≡◌, ◌≤◌, ◌+◌, ◌∷◌, [], length, map};
ghost use Rattle.std.specs.List.{AllByRecursion};
ghost use Rattle.ival.specs.SpaceViews.{domain_of, space_of};
ghost use Rattle.cover_line.specs.Line.{end_by};
ghost use Rattle.cover_data.specs.Views.{closing_of, end_line, step_line};
ghost use Rattle.cover_book.specs.Steps.{most_lemmas};
ghost use Rattle.cover_book.specs.Tree.{lemma_tree};
ghost use Rattle.cover_book.specs.Views.{learned_of};
ghost use Rattle.cert_read.specs.CertLine.{rule_line};
ghost use Rattle.cert_model.specs.Written.{domain_line, lemma_lines, point_line, rule_lines};
ghost use Rattle.cert_text.specs.Calls.{Appends, header_of};
ghost use Rattle.cert_text.specs.Parts.{HasShortLines, kept_lines, learned_lines};
ghost use Rattle.cert_text.specs.Ruled.{HasFewGroups};

use crate::append::{
    append_counted, append_interval, append_marks, append_plain, append_ruled, append_value,
};
use crate::keyword::{Counted, Plain};
use crate::line::append_short_rule;
use crate::operands::{branch_word, kind_of, of_branching, of_kept, of_kept_squares};
use cover_book::{Learned, Lines};
use cover_data::{Closing, End, Options, State, Step};
use cover_line::{Ending, Rule, Staying, Word};
use ival::{Domain, Space, Truths};
use std::alloc::AllocError;

/// Appends this version, and of the options the margin, the delta and the bound. Out of memory is its one error.
pub fn append_header(text: &mut Vec<u8>, version: u32, options: &Options) -> Result<(), AllocError>
    ensures { Appends text.old text.new (header_of version options.now) result }
{
    append_counted(text, Counted::Version, version)?;
    append_counted(text, Counted::Margin, options.margin_bits)?;
    append_counted(text, Counted::Delta, options.delta_bits)?;
    match options.bound {
        Some(bound) => append_counted(text, Counted::Bound, bound),
        None => append_plain(text, Plain::BoundNone),
    }
}

// What is left to an axis.
fn append_domain(text: &mut Vec<u8>, domain: Domain) -> Result<(), AllocError>
    ensures { Appends text.old text.new (domain_line (domain_of domain) ∷ []) result }
{
    match domain {
        Domain::Real(range) => append_interval(text, range.low, range.high),
        Domain::Bool(Truths::False) => append_plain(text, Plain::BoolFalse),
        Domain::Bool(Truths::True) => append_plain(text, Plain::BoolTrue),
        Domain::Bool(Truths::Either) => append_plain(text, Plain::BoolBoth),
    }
}

// The one value that is left to an axis.
fn append_coordinate(text: &mut Vec<u8>, domain: Domain) -> Result<(), AllocError>
    ensures { Appends text.old text.new (point_line (domain_of domain) ∷ []) result }
{
    match domain {
        Domain::Real(range) => append_value(text, range.low),
        Domain::Bool(Truths::False) => append_plain(text, Plain::BoolFalse),
        Domain::Bool(Truths::True | Truths::Either) => append_plain(text, Plain::BoolTrue),
    }
}

/// Appends a line for each axis of a lemma's space.
pub(crate) fn append_space(text: &mut Vec<u8>, space: &Space) -> Result<(), AllocError>
    ensures { Appends text.old text.new (map domain_line (space_of space.now)) result }
{
    for domain in &space.axes {
        append_domain(text, *domain)?;
    }
    Ok(())
}

/// Appends a line for each coordinate of a point.
pub(crate) fn append_point(text: &mut Vec<u8>, point: &Space) -> Result<(), AllocError>
    ensures { Appends text.old text.new (map point_line (space_of point.now)) result }
{
    for domain in &point.axes {
        append_coordinate(text, *domain)?;
    }
    Ok(())
}

fn append_step(text: &mut Vec<u8>, step: &Step) -> Result<(), AllocError>
    ensures { Appends text.old text.new (rule_line (step_line step.now) ∷ []) result }
{
    match step {
        Step::Narrow(narrowing) => append_ruled(
            text,
            Word::Narrow(kind_of(narrowing)),
            &of_kept(narrowing),
        ),
        Step::Mark(marking) => append_short_rule(text, &Rule::Mark(*marking)),
    }
}

fn append_closing(text: &mut Vec<u8>, closing: &Closing) -> Result<(), AllocError>
    ensures { Appends text.old text.new (rule_line (end_by (closing_of closing.now)) ∷ []) result }
{
    match closing {
        Closing::Void(narrowing) => append_ruled(
            text,
            Word::Void(kind_of(narrowing)),
            &of_kept(narrowing),
        ),
        Closing::Squares(squares) => {
            append_ruled(text, Word::Squares, &of_kept_squares(squares))
        }
        Closing::False => append_short_rule(text, &Rule::End(Ending::False)),
        Closing::By(lemma) => append_short_rule(text, &Rule::End(Ending::By(*lemma))),
    }
}

fn append_end(text: &mut Vec<u8>, end: &End) -> Result<(), AllocError>
    requires { HasFewGroups (end_line end.now) }
    ensures { Appends text.old text.new (rule_line (end_line end.now) ∷ []) result }
{
    match end {
        End::Close(closing) => append_closing(text, closing),
        End::Part(branching) => {
            append_ruled(text, branch_word(branching), &of_branching(branching))
        }
        End::Stuck(atom) => append_short_rule(text, &Rule::Stay(Staying::Stuck(*atom))),
    }
}

/// Appends the steps and the end of a patch.
pub(crate) fn append_lines(text: &mut Vec<u8>, lines: &Lines) -> Result<(), AllocError>
    requires { HasFewGroups (end_line lines.now.end) }
    ensures { Appends text.old text.new (rule_lines (kept_lines lines.now)) result }
{
    for step in &lines.steps {
        append_step(text, step)?;
    }
    append_end(text, &lines.end)
}

// A lemma: its number, its state, which is given, and its tree.
fn append_lemma_at(
    text: &mut Vec<u8>,
    id: u32,
    lemma: &Learned,
    state: &State,
) -> Result<(), AllocError>
    requires short { HasShortLines lemma.now }
    requires state { state.now ≡ lemma.now.state }
    ensures { Appends text.old text.new
        (lemma_lines id (lemma_tree (learned_of lemma.now))) result }
{
    let marks = state.lits().marks();
    append_counted(text, Counted::Lemma, id)?;
    append_space(text, state.space())?;
    append_marks(text, marks, true)?;
    append_marks(text, marks, false)?;
    append_lines(text, &lemma.lines)
}

// A lemma: its number, its state and its tree.
fn append_lemma(text: &mut Vec<u8>, id: u32, lemma: &Learned) -> Result<(), AllocError>
    requires { HasShortLines lemma.now }
    ensures { Appends text.old text.new
        (lemma_lines id (lemma_tree (learned_of lemma.now))) result }
{
    let state = lemma.state.state(*text.allocator())?;
    append_lemma_at(text, id, lemma, &state)
}

/// Appends the lemmas, in the order of their numbers, of which the first has this one.
pub(crate) fn append_lemmas(
    text: &mut Vec<u8>,
    first: usize,
    lemmas: &[Learned],
) -> Result<(), AllocError>
    requires few { first + length lemmas.now ≤ most_lemmas }
    requires short { AllByRecursion HasShortLines lemmas.now }
    ensures { Appends text.old text.new (learned_lines first lemmas.now) result }
{
    for i in 0..lemmas.len() {
        append_lemma(text, (first + i) as u32, &lemmas[i])?;
    }
    Ok(())
}
