// What tokens are made of: reserved words, numbers that are not too wide, texts of strings.
ghost use Rattle.std.specs.Prelude.{◌≡◌, ℕ, ◌+◌, ◌^◌, ◌<◌, ◌≤◌, All, IfOk, IfSome, Option, length, min, option_map};
ghost use Rattle.std.specs.Str.Parse.{digits_value_after};
ghost use Rattle.script_model.specs.Reading.{found};
ghost use Rattle.smt_sexp.specs.Classes.{IsDigit, begins_point, begins_symbol, is_wide, leads_zero};
ghost use Rattle.smt_sexp.specs.Lexicon.{reserved_words, string_text};
ghost use Rattle.smt_sexp.specs.Views.{reserved_of};

use crate::Reserved;
use crate::bytes::Class;
use script_fault::Name;
use std::alloc::{AllocError, Global};

// Digits without their point, and a power of ten, are a number's up to here.
const WIDEST: u128 = 1_000_000_000_000_000_000_000_000_000_000_000_000;

const WIDEST_POWER: usize = 36;

/// The reserved word of this name.
pub(crate) fn reserved(name: &[u8]) -> Option<Reserved>
    ensures { option_map reserved_of result ≡ found name.now reserved_words }
{
    if name == b"!".as_slice() {
        return Some(Reserved::Bang);
    }
    if name == b"_".as_slice() {
        return Some(Reserved::Underscore);
    }
    if name == b"as".as_slice() {
        return Some(Reserved::As);
    }
    if name == b"let".as_slice() {
        return Some(Reserved::Let);
    }
    if name == b"exists".as_slice() {
        return Some(Reserved::Exists);
    }
    if name == b"forall".as_slice() {
        return Some(Reserved::Forall);
    }
    if name == b"match".as_slice() {
        return Some(Reserved::Match);
    }
    if name == b"par".as_slice() {
        return Some(Reserved::Par);
    }
    None
}

/// Whether digits, of which the second ones stand behind the point, are no number of the language.
pub(crate) fn is_wide(digits: &[u8], decimals: &[u8]) -> bool
    requires digits { All IsDigit digits.now }
    requires decimals { All IsDigit decimals.now }
    ensures { result ≡ is_wide digits.now decimals.now }
{
    if decimals.len() > WIDEST_POWER {
        return true;
    }
    value_after(value_after(0, digits), decimals) > WIDEST
}

// The number that digits write behind those of another, or the first one that is too wide.
fn value_after(start: u128, digits: &[u8]) -> u128
    requires start { start ≤ 10 ^ 36 + 1 }
    requires digits { All IsDigit digits.now }
    ensures { result ≡ min (digits_value_after 10 start digits.now) (10 ^ 36 + 1) }
{
    let mut value = start;
    for digit in digits {
        value = (value * 10 + u128::from(*digit - b'0')).min(WIDEST + 1);
    }
    value
}

/// Whether a byte of a symbol stands first.
pub(crate) fn begins_symbol(bytes: &[u8]) -> bool
    ensures { result ≡ begins_symbol bytes.now }
{
    match bytes {
        [] => false,
        [first, ..] => Class::Symbol.has(*first),
    }
}

/// Whether digits begin with a zero and go on.
pub(crate) fn leads_zero(digits: &[u8]) -> bool
    ensures { result ≡ leads_zero digits.now }
{
    match digits {
        [first, _, ..] => *first == b'0',
        _ => false,
    }
}

/// Whether a point stands first.
pub(crate) fn begins_point(bytes: &[u8]) -> bool
    ensures { result ≡ begins_point bytes.now }
{
    match bytes {
        [] => false,
        [first, ..] => *first == b'.',
    }
}

/// The text of a string and how many bytes it takes with its last quote, where it has one.
pub(crate) fn string_text(alloc: Global, bytes: &[u8]) -> Result<Option<(Name, usize)>, AllocError>
    ensures text { IfOk result (λ o. o ≡ string_text bytes.now) }
    ensures within { IfOk result (λ o. IfSome o (λ found. found.1 ≤ length bytes.now)) }
{
    let mut text = Vec::new(alloc);
    let mut at = 0;
    while at < bytes.len() {
        if bytes[at] != b'"' {
            text.push(bytes[at])?;
            at += 1;
        } else if at + 1 < bytes.len() && bytes[at + 1] == b'"' {
            text.push(b'"')?;
            at += 2;
        } else {
            return Ok(Some((Name::new(text), at + 1)));
        }
    }
    Ok(None)
}
