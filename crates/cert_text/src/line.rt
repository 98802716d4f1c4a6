// A line as it was read.
ghost use Rattle.std.specs.Prelude.{◌≡◌, ◌++◌, ◌∷◌, [], OnOk, option_map};
ghost use Rattle.dyadic.specs.Views.{dyadic_of};
ghost use Rattle.cover_line.specs.Views as rules;
ghost use Rattle.cover_line.specs.Words.{operands_of};
ghost use Rattle.cert_read.specs.CertLine.{bool_value, bound, lower, real_interval, real_value, rule_line};
ghost use Rattle.cert_read.specs.Views.{bool_word_of, line_of};
ghost use Rattle.cert_text.specs.Calls.{Appends, AppendsList, AppendsText};
ghost use Rattle.cert_text.specs.Lines.{listed};
ghost use Rattle.cert_text.specs.Ruled.{HasFewPairs};

use crate::append::{
    append_break, append_counted, append_interval, append_lower, append_plain, append_ruled,
    append_value, append_word_and_count,
};
use crate::keyword::{Counted, Plain};
use crate::operands::of_rule;
use cert_read::{BoolSet, Line};
use cover_line::Rule;
use dyadic::Dy;
use std::alloc::AllocError;

fn append_bound(text: &mut Vec<u8>, limit: Option<u32>) -> Result<(), AllocError>
    ensures { Appends text.old text.new (bound limit ∷ []) result }
{
    match limit {
        Some(limit) => append_counted(text, Counted::Bound, limit),
        None => append_plain(text, Plain::BoundNone),
    }
}

/// Appends the line of a lower bound of the goal, with its break; none where it has none. Out of memory is its one error.
pub fn append_lower_bound(text: &mut Vec<u8>, bound: Option<Dy>) -> Result<(), AllocError>
    ensures { Appends text.old text.new (lower (option_map dyadic_of bound) ∷ []) result }
{
    match bound {
        Some(bound) => append_lower(text, bound),
        None => append_plain(text, Plain::LowerNone),
    }
}

fn append_bool(text: &mut Vec<u8>, set: BoolSet) -> Result<(), AllocError>
    ensures { Appends text.old text.new (bool_value (bool_word_of set) ∷ []) result }
{
    match set {
        BoolSet::False => append_plain(text, Plain::BoolFalse),
        BoolSet::True => append_plain(text, Plain::BoolTrue),
        BoolSet::Both => append_plain(text, Plain::BoolBoth),
    }
}

// Numbers, each after a space.
fn append_counts(text: &mut Vec<u8>, numbers: &[u32]) -> Result<(), AllocError>
    ensures { OnOk result (text.new.items ≡ text.old.items ++ listed numbers.now) }
{
    for number in numbers {
        append_word_and_count(text, "", *number)?;
    }
    Ok(())
}

// A word and numbers.
fn append_list(text: &mut Vec<u8>, word: &str, numbers: &[u32]) -> Result<(), AllocError>
    ensures { AppendsList text.old text.new word.now numbers.now result }
{
    text.extend_from_slice(word.as_bytes())?;
    append_counts(text, numbers)?;
    append_break(text)
}

/// Appends a line of a tree as the reader answers it, with its break. Out of memory is its one error.
pub fn append_rule(text: &mut Vec<u8>, rule: &Rule) -> Result<(), AllocError>
    ensures { AppendsText text.old text.new (rule_line (rules.line_of rule.now) ∷ []) result }
{
    append_ruled(text, rule.word(), &of_rule(rule))
}

/// The same of a rule that has no more pairs than a line may have.
pub(crate) fn append_short_rule(text: &mut Vec<u8>, rule: &Rule) -> Result<(), AllocError>
    requires { HasFewPairs (operands_of (rules.line_of rule.now)) }
    ensures { Appends text.old text.new (rule_line (rules.line_of rule.now) ∷ []) result }
{
    append_ruled(text, rule.word(), &of_rule(rule))
}

#[tactic(auto, using(crate::proofs::ReadLines::appended_text, crate::proofs::ReadLines::yes_text, crate::proofs::ReadLines::no_text))]
/// Appends a line as the reader answers it, with its break. Out of memory is its one error.
pub fn append_line(text: &mut Vec<u8>, line: &Line) -> Result<(), AllocError>
    ensures { AppendsText text.old text.new (line_of line.now ∷ []) result }
{
    match line {
        Line::Version(n) => append_counted(text, Counted::Version, *n),
        Line::Margin(n) => append_counted(text, Counted::Margin, *n),
        Line::Delta(n) => append_counted(text, Counted::Delta, *n),
        Line::Bound(limit) => append_bound(text, *limit),
        Line::Lower(bound) => append_lower_bound(text, *bound),
        Line::Goal(bits) => append_counted(text, Counted::Goal, *bits),
        Line::Checks(n) => append_counted(text, Counted::Checks, *n),
        Line::Cover(n) => append_counted(text, Counted::Cover, *n),
        Line::Keep(n) => append_counted(text, Counted::Keep, *n),
        Line::Point => append_plain(text, Plain::Point),
        Line::Tree => append_plain(text, Plain::Tree),
        Line::End => append_plain(text, Plain::End),
        Line::Lemma(id) => append_counted(text, Counted::Lemma, *id),
        Line::RealInterval(low, high) => append_interval(text, *low, *high),
        Line::RealValue(value) => append_value(text, *value),
        Line::Bool(set) => append_bool(text, *set),
        Line::Yes(atoms) => append_list(text, "yes", atoms),
        Line::No(atoms) => append_list(text, "no", atoms),
        Line::Rule(rule) => append_rule(text, rule),
        Line::Over => append_plain(text, Plain::Over),
        Line::Empty(axis) => append_counted(text, Counted::Empty, *axis),
    }
}
