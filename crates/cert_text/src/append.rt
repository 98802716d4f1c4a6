// Lines that are appended to a text.
ghost use Rattle.std.specs.Prelude.{◌≡◌, ◌<◌, ◌≤◌, ◌++◌, ◌∷◌, [], OnOk, Some, decimal, length, map};
ghost use Rattle.dyadic.specs.NumberText.{number_spelling};
ghost use Rattle.dyadic.specs.Views.{dyadic_of};
ghost use Rattle.poly_graph.specs.MarkViews.{mark_of};
ghost use Rattle.cert_read.specs.CertLine.{lower, real_interval, real_value};
ghost use Rattle.cert_read.specs.LineText.{IsCount, IsSpelledNumber};
ghost use Rattle.cover_line.specs.Views.{multipliers_of};
ghost use Rattle.cert_text.specs.Calls.{Appends, AppendsRuled, marked_numbers};
ghost use Rattle.cert_text.specs.Lines.{HasPairs, counted_line, is_marked, marks_line, marks_word, most_atoms, plain_line};
ghost use Rattle.cert_text.specs.Ruled.{HasOperands, operands_in};

use crate::groups::append_groups;
use crate::keyword::{Counted, Plain, counted_bytes, plain_bytes};
use crate::operands::Operands;
use crate::squares::append_squares;
use cover_line::Word;
use dyadic::{Dy, write_dy};
use itoa::Buffer;
use poly_graph::Mark;
use std::alloc::AllocError;

fn append_count(text: &mut Vec<u8>, n: u32) -> Result<(), AllocError>
    ensures text { OnOk result (text.new.items ≡ text.old.items ++ decimal n) }
    ensures count { IsCount n }
{
    let mut buffer = Buffer::new();
    text.extend_from_slice(buffer.format(n).as_bytes())
}

/// Appends a number of the grid.
pub(crate) fn append_number(text: &mut Vec<u8>, number: Dy) -> Result<(), AllocError>
    ensures text { OnOk result (text.new.items
        ≡ text.old.items ++ number_spelling (dyadic_of number)) }
    ensures spelled { IsSpelledNumber (dyadic_of number) }
    ensures short { length (number_spelling (dyadic_of number)) ≤ 64 }
{
    let mut buffer = [0; 64];
    let end = write_dy(&number, &mut buffer);
    text.extend_from_slice(&buffer[..end])
}

/// Appends the end of a line.
pub(crate) fn append_break(text: &mut Vec<u8>) -> Result<(), AllocError>
    ensures { OnOk result (text.new.items ≡ text.old.items ++ 10 ∷ []) }
{
    text.extend_from_slice(b"\n")
}

/// Appends a line without a number, with its break. Out of memory is its one error.
pub fn append_plain(text: &mut Vec<u8>, line: Plain) -> Result<(), AllocError>
    ensures { Appends text.old text.new (plain_line line ∷ []) result }
{
    text.extend_from_slice(plain_bytes(line).as_bytes())?;
    append_break(text)
}

/// Appends a word and a number.
pub(crate) fn append_word_and_count(
    text: &mut Vec<u8>,
    word: &str,
    n: u32,
) -> Result<(), AllocError>
    ensures text { OnOk result (text.new.items ≡ text.old.items ++ (word.now ++ 32 ∷ decimal n)) }
    ensures count { IsCount n }
{
    text.extend_from_slice(word.as_bytes())?;
    text.extend_from_slice(b" ")?;
    append_count(text, n)
}

/// Appends a line with one plain number, with its break. Out of memory is its one error.
pub fn append_counted(text: &mut Vec<u8>, word: Counted, n: u32) -> Result<(), AllocError>
    ensures { Appends text.old text.new (counted_line word n ∷ []) result }
{
    append_word_and_count(text, counted_bytes(word), n)?;
    append_break(text)
}

/// Appends the line of a lower bound of the goal.
pub(crate) fn append_lower(text: &mut Vec<u8>, bound: Dy) -> Result<(), AllocError>
    ensures { Appends text.old text.new (lower (Some (dyadic_of bound)) ∷ []) result }
{
    text.extend_from_slice(b"lower ")?;
    append_number(text, bound)?;
    append_break(text)
}

/// Appends the line of a Real value.
pub(crate) fn append_value(text: &mut Vec<u8>, value: Dy) -> Result<(), AllocError>
    ensures { Appends text.old text.new (real_value (dyadic_of value) ∷ []) result }
{
    text.extend_from_slice(b"real ")?;
    append_number(text, value)?;
    append_break(text)
}

/// Appends the line of an interval.
pub(crate) fn append_interval(text: &mut Vec<u8>, low: Dy, high: Dy) -> Result<(), AllocError>
    ensures { Appends text.old text.new
        (real_interval (dyadic_of low) (dyadic_of high) ∷ []) result }
{
    text.extend_from_slice(b"real ")?;
    append_number(text, low)?;
    text.extend_from_slice(b" ")?;
    append_number(text, high)?;
    append_break(text)
}

// An atom and its multiplier, each after a space.
fn append_pair(text: &mut Vec<u8>, atom: u32, by: Dy) -> Result<(), AllocError>
    ensures { OnOk result (HasPairs text.old.items ((atom, dyadic_of by) ∷ []) text.new.items) }
{
    append_word_and_count(text, "", atom)?;
    text.extend_from_slice(b" ")?;
    append_number(text, by)
}

/// Appends atoms, each with its multiplier.
pub(crate) fn append_pairs(text: &mut Vec<u8>, pairs: &[(u32, Dy)]) -> Result<(), AllocError>
    ensures { OnOk result (HasPairs text.old.items (multipliers_of pairs.now) text.new.items) }
{
    for pair in pairs {
        append_pair(text, pair.0, pair.1)?;
    }
    Ok(())
}

// What stands behind the first word of a tree's line.
fn append_operands(text: &mut Vec<u8>, operands: &Operands<'_>) -> Result<(), AllocError>
    ensures { OnOk result (HasOperands text.old.items (operands_in operands.now) text.new.items) }
{
    match operands {
        Operands::Nothing => Ok(()),
        Operands::Atom(atom) => append_word_and_count(text, "", *atom),
        Operands::Lemma(lemma) => append_word_and_count(text, "", *lemma),
        Operands::AtomLemma(atom, lemma) => {
            append_word_and_count(text, "", *atom)?;
            append_word_and_count(text, "", *lemma)
        }
        Operands::Axis(axis) => append_word_and_count(text, "", *axis),
        Operands::AxisPlace(axis, at) => append_pair(text, *axis, *at),
        Operands::Multipliers(pairs) => append_pairs(text, pairs),
        Operands::Squares(pairs, blocks) => append_squares(text, pairs, blocks),
        Operands::Groups(first, second) => append_groups(text, first, second),
    }
}

/// Appends a line of a tree.
pub(crate) fn append_ruled(
    text: &mut Vec<u8>,
    word: Word,
    operands: &Operands<'_>,
) -> Result<(), AllocError>
    ensures { AppendsRuled text.old text.new word (operands_in operands.now) result }
{
    text.extend_from_slice(word.text().as_bytes())?;
    append_operands(text, operands)?;
    append_break(text)
}

// Whether the atom is marked yes, or no.
fn is_marked(mark: Mark, yes: bool) -> bool
    ensures { result ≡ is_marked yes (mark_of mark) }
{
    match mark {
        Mark::Yes => yes,
        Mark::No => !yes,
        Mark::Neither => false,
    }
}

fn marks_bytes(yes: bool) -> &'static str
    ensures { result.now ≡ marks_word yes }
{
    if yes { "yes" } else { "no" }
}

// The numbers of the atoms that are marked so.
fn append_numbers(text: &mut Vec<u8>, marks: &[Mark], yes: bool) -> Result<(), AllocError>
    requires { length marks.now ≤ most_atoms }
    ensures { OnOk result (text.new.items ≡ text.old.items ++ marked_numbers yes marks.now) }
{
    for j in 0..marks.len() {
        if is_marked(marks[j], yes) {
            append_word_and_count(text, "", j as u32)?;
        }
    }
    Ok(())
}

/// Appends the line of the atoms that are marked yes, or of those marked no.
pub(crate) fn append_marks(text: &mut Vec<u8>, marks: &[Mark], yes: bool) -> Result<(), AllocError>
    requires { length marks.now ≤ most_atoms }
    ensures { Appends text.old text.new (marks_line yes (map mark_of marks.now) ∷ []) result }
{
    text.extend_from_slice(marks_bytes(yes).as_bytes())?;
    append_numbers(text, marks, yes)?;
    append_break(text)
}
