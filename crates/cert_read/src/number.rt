// The numbers of lines.
ghost use Rattle.std.specs.Prelude.{◌≡◌, ◌^◌, ◌<◌, ◌≤◌, ◌↔◌, IsTrue, MatchOption, MatchResult, Some, option_copied};
ghost use Rattle.std.specs.Str.Parse.{digits_value};
ghost use Rattle.cert_read.specs.CertLine.{are_paired, count_of, dyadic_of, pairs_of};
ghost use Rattle.cert_read.specs.Lines.{words_of};
ghost use Rattle.cert_read.specs.Words.{words_behind};
ghost use Rattle.cert_read.specs.Numbers.{AreCounted, AreDigits, IsMeasured, IsPlain, IsUncounted};
ghost use Rattle.cert_read.specs.LineAnswers.{IsCounted};
ghost use Rattle.cover_line.specs.Views.{multipliers_of};

use crate::LineFault;
use crate::place::{cut, place_of};
use dyadic::{Dy, read_dy};
use std::alloc::Global;

// The greatest plain number.
const LARGEST: u64 = 4_294_967_295;

fn are_digits(word: &[u8]) -> bool
    ensures { IsTrue result ↔ AreDigits word.now }
{
    word.iter().all(|b| *b >= b'0' && *b <= b'9')
}

// Whether there are digits, without a leading zero.
fn is_plain(word: &[u8]) -> bool
    ensures { IsTrue result ↔ IsPlain word.now }
{
    !word.is_empty() && are_digits(word) && (word.len() == 1 || word[0] != b'0')
}

// The number that digits write, below 2^32.
fn value(digits: &[u8]) -> Option<u32>
    requires { AreDigits digits.now }
    ensures { MatchOption result
        (2 ^ 32 ≤ digits_value 10 digits.now)
        (λ n. (n ≡ digits_value 10 digits.now) × (n < 2 ^ 32)) }
{
    let mut value = 0;
    for digit in digits {
        value = 10 * value + u64::from(*digit - b'0');
        if value > LARGEST {
            return None;
        }
    }
    Some(value as u32)
}

/// The plain number below 2^32 that a word spells.
pub(crate) fn count(word: &[u8]) -> Result<u32, LineFault>
    ensures { IsCounted result (count_of word.now) }
{
    if !is_plain(word) {
        return Err(LineFault::BadNumber);
    }
    match value(word) {
        Some(n) => Ok(n),
        None => Err(LineFault::BadNumber),
    }
}

/// The number of the grid that a word spells.
pub(crate) fn dyadic(word: &[u8]) -> Result<Dy, LineFault>
    ensures { IsMeasured result (dyadic_of word.now) }
{
    match read_dy(word) {
        Ok(v) => Ok(v),
        Err(_) => Err(LineFault::BadNumber),
    }
}

/// The plain numbers that words spell.
pub(crate) fn counts(alloc: Global, text: &[u8]) -> Result<Vec<u32>, LineFault>
    ensures { AreCounted result (words_of text.now) }
{
    let mut numbers = Vec::new(alloc);
    let mut at = 0;
    loop {
        let (_, rest) = text.split_at(at);
        let size = place_of(b' ', 0, rest);
        let (word, _) = rest.split_at(size);
        let number = match count(word) {
            Ok(number) => number,
            Err(_) => return Err(LineFault::BadNumber),
        };
        numbers.push(number)?;
        if size == rest.len() {
            return Ok(numbers);
        }
        at += size + 1;
    }
}

/// The numbers of a list, which may be none.
pub(crate) fn list(alloc: Global, rest: Option<&[u8]>) -> Result<Vec<u32>, LineFault>
    ensures { AreCounted result (words_behind (option_copied rest.entry)) }
{
    match rest {
        None => Ok(Vec::new(alloc)),
        Some(text) => counts(alloc, text),
    }
}

/// Whether the number of words is even.
pub(crate) fn are_paired(text: &[u8]) -> bool
    ensures { result ≡ are_paired (words_of text.now) }
{
    let mut even = false;
    for b in text {
        if *b == b' ' {
            even = !even;
        }
    }
    even
}

/// The pairs of a plain number and a number of the grid that words spell, without a word that is left over.
pub(crate) fn pairs(alloc: Global, text: &[u8]) -> Result<Vec<(u32, Dy)>, LineFault>
    ensures { MatchResult result
        (λ v. pairs_of (words_of text.now) ≡ Some (multipliers_of v.items))
        (λ f. IsUncounted f (pairs_of (words_of text.now))) }
{
    let mut pairs = Vec::new(alloc);
    let mut rest = text;
    loop {
        let (first, behind) = cut(rest);
        let Some(behind) = behind else {
            return Ok(pairs);
        };
        let (second, behind) = cut(behind);
        pairs.push((count(first)?, dyadic(second)?))?;
        let Some(behind) = behind else {
            return Ok(pairs);
        };
        rest = behind;
    }
}
