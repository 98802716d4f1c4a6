// What the bytes of a line say.
ghost use Rattle.std.specs.Prelude.{◌≡◌, ◌∷◌, option_copied};
ghost use Rattle.cover_line.specs.Line.{end_by, narrow_by, void_by};
ghost use Rattle.cover_line.specs.Views.{narrowing_of, rule_word};
ghost use Rattle.cover_line.specs.Words.{word_text};
ghost use Rattle.cert_read.specs.CertLine.{alone, bool_in, bound_in, by_first, lower_in, parsed, real_in, rule_line};
ghost use Rattle.cert_read.specs.Keywords.{keyword_text};
ghost use Rattle.cert_read.specs.Lines.{are_words, words_of};
ghost use Rattle.cert_read.specs.Numbers.{ArePairs};
ghost use Rattle.cert_read.specs.LineAnswers.{AreTwoIn, IsParse, IsBoolParse, IsOneIn, IsPlaceIn};
ghost use Rattle.cert_read.specs.Views.{line_of};
ghost use Rattle.cert_read.specs.Words.{words_behind};

use crate::groups::groups;
use crate::keyword::{Keyword, keyword_in};
use crate::number::{are_paired, count, dyadic, list, pairs};
use crate::place::cut;
use crate::squares::squares;
use crate::words::{Words, words_behind};
use crate::{BoolSet, Line, LineFault};
use cover_line::{Branching, Ending, Marking, Narrowing, NarrowingKind, Rule, Staying, Word};
use dyadic::Dy;
use std::alloc::Global;

/// A line has at most so many bytes.
pub(crate) const LONGEST: usize = 524_288;

/// What a line says, of which these are the bytes without the line feed.
pub(crate) fn parse(alloc: Global, bytes: &[u8]) -> Result<Line, LineFault>
    ensures { IsParse result (parsed bytes.now) }
{
    if bytes.len() > LONGEST {
        return Err(LineFault::LineTooLong);
    }
    if !are_words(bytes) {
        return Err(LineFault::BadLine);
    }
    let (first, rest) = cut(bytes);
    match keyword_in(first) {
        Some(word) => after_keyword(alloc, word, rest),
        None => Err(LineFault::BadLine),
    }
}

// Whether single spaces part words of ASCII bytes.
fn are_words(bytes: &[u8]) -> bool
    ensures { result ≡ are_words (words_of bytes.now) }
{
    let mut in_word = false;
    for b in bytes {
        if *b == b' ' {
            if !in_word {
                return false;
            }
            in_word = false;
        } else {
            if *b >= 128 {
                return false;
            }
            in_word = true;
        }
    }
    in_word
}

// What a line says that begins with this word.
fn after_keyword(alloc: Global, word: Keyword, rest: Option<&[u8]>) -> Result<Line, LineFault>
    ensures { IsParse result
        (by_first (keyword_text word ∷ words_behind (option_copied rest.entry))) }
{
    match word {
        Keyword::Version => Ok(Line::Version(number(rest)?)),
        Keyword::Margin => Ok(Line::Margin(number(rest)?)),
        Keyword::Delta => Ok(Line::Delta(number(rest)?)),
        Keyword::Bound => bound(rest),
        Keyword::Lower => lower(rest),
        Keyword::Goal => Ok(Line::Goal(number(rest)?)),
        Keyword::Checks => Ok(Line::Checks(number(rest)?)),
        Keyword::Cover => Ok(Line::Cover(number(rest)?)),
        Keyword::Keep => Ok(Line::Keep(number(rest)?)),
        Keyword::Point => alone(rest, Line::Point),
        Keyword::Tree => alone(rest, Line::Tree),
        Keyword::End => alone(rest, Line::End),
        Keyword::Lemma => Ok(Line::Lemma(number(rest)?)),
        Keyword::Real => real(rest),
        Keyword::Bool => Ok(Line::Bool(bool_set(rest)?)),
        Keyword::Yes => Ok(Line::Yes(list(alloc, rest)?)),
        Keyword::No => Ok(Line::No(list(alloc, rest)?)),
        Keyword::Over => alone(rest, Line::Over),
        Keyword::Rule(word) => after_rule_word(alloc, word, rest),
    }
}

fn narrow(narrowing: Narrowing) -> Line
    ensures { line_of result ≡ rule_line (narrow_by (narrowing_of narrowing)) }
{
    Line::Rule(Rule::Narrow(narrowing))
}

fn void(narrowing: Narrowing) -> Line
    ensures { line_of result ≡ rule_line (end_by (void_by (narrowing_of narrowing))) }
{
    Line::Rule(Rule::End(Ending::Void(narrowing)))
}

// What a line of a tree says that begins with this word.
fn after_rule_word(alloc: Global, word: Word, rest: Option<&[u8]>) -> Result<Line, LineFault>
    ensures { IsParse result
        (by_first (word_text (rule_word word) ∷ words_behind (option_copied rest.entry))) }
{
    match word {
        Word::Narrow(NarrowingKind::Pull) => Ok(narrow(Narrowing::Pull(number(rest)?))),
        Word::Narrow(NarrowingKind::Push) => Ok(narrow(Narrowing::Push(number(rest)?))),
        Word::Narrow(NarrowingKind::Combine) => {
            Ok(narrow(Narrowing::Combine(multipliers(alloc, rest)?)))
        }
        Word::Void(NarrowingKind::Pull) => Ok(void(Narrowing::Pull(number(rest)?))),
        Word::Void(NarrowingKind::Push) => Ok(void(Narrowing::Push(number(rest)?))),
        Word::Void(NarrowingKind::Combine) => {
            Ok(void(Narrowing::Combine(multipliers(alloc, rest)?)))
        }
        Word::Squares => {
            let (pairs, blocks) = squares(alloc, rest)?;
            Ok(Line::Rule(Rule::End(Ending::Squares(pairs, blocks))))
        }
        Word::False => alone(rest, Line::Rule(Rule::End(Ending::False))),
        Word::By => Ok(Line::Rule(Rule::End(Ending::By(number(rest)?)))),
        Word::Unit => Ok(Line::Rule(Rule::Mark(Marking::Unit(number(rest)?)))),
        Word::Ban => {
            let (atom, lemma) = two_numbers(rest)?;
            Ok(Line::Rule(Rule::Mark(Marking::Ban(atom, lemma))))
        }
        Word::Cut => {
            let (axis, place) = place(rest)?;
            Ok(Line::Rule(Rule::Branch(Branching::Cut(axis, place))))
        }
        Word::Flip => Ok(Line::Rule(Rule::Branch(Branching::Flip(number(rest)?)))),
        Word::Case => Ok(Line::Rule(Rule::Branch(Branching::Case(number(rest)?)))),
        Word::Either => {
            let (first, second) = groups(alloc, rest)?;
            Ok(Line::Rule(Rule::Branch(Branching::Either(first, second))))
        }
        Word::Open => alone(rest, Line::Rule(Rule::Stay(Staying::Open))),
        Word::Stuck => Ok(Line::Rule(Rule::Stay(Staying::Stuck(number(rest)?)))),
        Word::Empty => Ok(Line::Empty(number(rest)?)),
    }
}

// The line, which has no more words.
fn alone(rest: Option<&[u8]>, line: Line) -> Result<Line, LineFault>
    ensures { IsParse result (alone (line_of line) (words_behind (option_copied rest.entry))) }
{
    match words_behind(rest) {
        Words::Nothing => Ok(line),
        Words::One(_) | Words::Two(_, _) | Words::More => Err(LineFault::BadLine),
    }
}

// The one plain number.
fn number(rest: Option<&[u8]>) -> Result<u32, LineFault>
    ensures { IsOneIn result (words_behind (option_copied rest.entry)) }
{
    match words_behind(rest) {
        Words::One(word) => count(word),
        Words::Nothing | Words::Two(_, _) | Words::More => Err(LineFault::BadLine),
    }
}

// The two plain numbers.
fn two_numbers(rest: Option<&[u8]>) -> Result<(u32, u32), LineFault>
    ensures { AreTwoIn result (words_behind (option_copied rest.entry)) }
{
    match words_behind(rest) {
        Words::Two(first, second) => Ok((count(first)?, count(second)?)),
        Words::Nothing | Words::One(_) | Words::More => Err(LineFault::BadLine),
    }
}

// The plain number and the number of the grid.
fn place(rest: Option<&[u8]>) -> Result<(u32, Dy), LineFault>
    ensures { IsPlaceIn result (words_behind (option_copied rest.entry)) }
{
    match words_behind(rest) {
        Words::Two(first, second) => Ok((count(first)?, dyadic(second)?)),
        Words::Nothing | Words::One(_) | Words::More => Err(LineFault::BadLine),
    }
}

// The atoms of a combination with their multipliers, which are some.
fn multipliers(alloc: Global, rest: Option<&[u8]>) -> Result<Vec<(u32, Dy)>, LineFault>
    ensures { ArePairs result (words_behind (option_copied rest.entry)) }
{
    let Some(text) = rest else {
        return Err(LineFault::BadLine);
    };
    if !are_paired(text) {
        return Err(LineFault::BadLine);
    }
    pairs(alloc, text)
}

// What a line for a Real axis says.
fn real(rest: Option<&[u8]>) -> Result<Line, LineFault>
    ensures { IsParse result (real_in (words_behind (option_copied rest.entry))) }
{
    match words_behind(rest) {
        Words::One(word) => Ok(Line::RealValue(dyadic(word)?)),
        Words::Two(low, high) => Ok(Line::RealInterval(dyadic(low)?, dyadic(high)?)),
        Words::Nothing | Words::More => Err(LineFault::BadLine),
    }
}

// The bound of a line.
fn bound(rest: Option<&[u8]>) -> Result<Line, LineFault>
    ensures { IsParse result (bound_in (words_behind (option_copied rest.entry))) }
{
    let Words::One(text) = words_behind(rest) else {
        return Err(LineFault::BadLine);
    };
    if text == b"none".as_slice() {
        return Ok(Line::Bound(None));
    }
    Ok(Line::Bound(Some(count(text)?)))
}

// The lower bound of a line.
fn lower(rest: Option<&[u8]>) -> Result<Line, LineFault>
    ensures { IsParse result (lower_in (words_behind (option_copied rest.entry))) }
{
    let Words::One(text) = words_behind(rest) else {
        return Err(LineFault::BadLine);
    };
    if text == b"none".as_slice() {
        return Ok(Line::Lower(None));
    }
    Ok(Line::Lower(Some(dyadic(text)?)))
}

// The values of a line.
fn bool_set(rest: Option<&[u8]>) -> Result<BoolSet, LineFault>
    ensures { IsBoolParse result (bool_in (words_behind (option_copied rest.entry))) }
{
    let Words::One(text) = words_behind(rest) else {
        return Err(LineFault::BadLine);
    };
    if text == b"false".as_slice() {
        return Ok(BoolSet::False);
    }
    if text == b"true".as_slice() {
        return Ok(BoolSet::True);
    }
    if text == b"both".as_slice() {
        return Ok(BoolSet::Both);
    }
    Err(LineFault::BadLine)
}
