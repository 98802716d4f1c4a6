// What stands at the front of a text: a token, nothing, or a fault (SMT-LIB 2.6, section 3.1).
ghost use Rattle.std.specs.Prelude.{◌≡◌, ◌+◌, ◌<◌, ℕ, IfOk, IsTrue, drop, length, slice_index, take};
ghost use Rattle.smt_sexp.specs.FrontOf.{IsFrontOf, decimal_at, front_of, keyword_at, number_at, quoted_at, string_at, symbol_at};
ghost use Rattle.smt_sexp.specs.Lexicon.{is_digit, is_symbol_byte, numeral_front, run};

use crate::Leaf;
use crate::bytes::{Class, run_len};
use crate::words::{begins_point, begins_symbol, is_wide, leads_zero, reserved, string_text};
use script_fault::Name;
use std::alloc::{AllocError, Global};

/// What a front of a text is.
#[derive(Debug, Drop)]
pub(crate) enum Piece {
    Blank,
    Opening,
    Closing,
    Word(Leaf),
    /// A byte that no token takes, at this distance.
    BadByte(usize),
    TooWide,
    /// A string or a quoted symbol without its end.
    Unended,
}

/// A front of a text, and how many bytes it takes.
#[derive(Debug, Drop)]
pub(crate) struct Lexeme {
    pub(crate) size: usize,
    pub(crate) piece: Piece,
}

impl Lexeme {
    fn new(size: usize, piece: Piece) -> Lexeme
        ensures { result ≡ record { size = size; piece = piece } }
    {
        Lexeme { size, piece }
    }

    fn word(size: usize, leaf: Leaf) -> Lexeme
        ensures { result ≡ record { size = size; piece = Piece.Word leaf } }
    {
        Lexeme::new(size, Piece::Word(leaf))
    }
}

/// What stands at the front of a text that is not empty.
pub(crate) fn front(alloc: Global, bytes: &[u8]) -> Result<Lexeme, AllocError>
    requires { 0 < length bytes.now }
    ensures { IfOk result (IsFrontOf bytes.now (front_of bytes.now)) }
{
    let first = bytes[0];
    if Class::White.has(first) {
        return Ok(Lexeme::new(1, Piece::Blank));
    }
    if first == b';' {
        return Ok(Lexeme::new(run_len(Class::Comment, bytes), Piece::Blank));
    }
    if first == b'(' {
        return Ok(Lexeme::new(1, Piece::Opening));
    }
    if first == b')' {
        return Ok(Lexeme::new(1, Piece::Closing));
    }
    if Class::Digit.has(first) {
        return number(alloc, bytes);
    }
    if Class::Symbol.has(first) {
        return symbol(alloc, bytes);
    }
    if first == b'|' {
        return quoted(alloc, bytes);
    }
    if first == b'"' {
        return string(alloc, bytes);
    }
    if first == b':' {
        return keyword(alloc, bytes);
    }
    Ok(Lexeme::new(1, Piece::BadByte(0)))
}

// A run of digits, and what a point makes of it.
fn number(alloc: Global, bytes: &[u8]) -> Result<Lexeme, AllocError>
    requires some { 0 < length bytes.now }
    requires digit { IsTrue (is_digit (slice_index bytes.now 0)) }
    ensures { IfOk result (IsFrontOf bytes.now (number_at bytes.now)) }
{
    let n = run_len(Class::Digit, bytes);
    let (digits, rest) = bytes.split_at(n);
    if leads_zero(digits) {
        return Ok(Lexeme::new(n, Piece::BadByte(1)));
    }
    if begins_point(rest) {
        return decimal(alloc, bytes, n);
    }
    numeral(alloc, bytes, n)
}

// A whole number of n digits.
fn numeral(alloc: Global, bytes: &[u8], n: usize) -> Result<Lexeme, AllocError>
    requires some { 0 < n }
    requires digits { n ≡ length (run is_digit bytes.now) }
    ensures { IfOk result
        (IsFrontOf bytes.now (numeral_front (take n bytes.now) (drop n bytes.now))) }
{
    let (digits, rest) = bytes.split_at(n);
    if is_wide(digits, &[]) {
        return Ok(Lexeme::new(n, Piece::TooWide));
    }
    if begins_symbol(rest) {
        return Ok(Lexeme::new(n, Piece::BadByte(n)));
    }
    let digits = Name::from_slice(alloc, digits)?;
    Ok(Lexeme::word(n, Leaf::Numeral(digits)))
}

// A number of n digits before its point.
fn decimal(alloc: Global, bytes: &[u8], n: usize) -> Result<Lexeme, AllocError>
    requires some { n < length bytes.now }
    requires digits { n ≡ length (run is_digit bytes.now) }
    ensures { IfOk result (IsFrontOf bytes.now (decimal_at n bytes.now)) }
{
    let digits = &bytes[..n];
    let rest = &bytes[n + 1..];
    let k = run_len(Class::Digit, rest);
    let (decimals, rest) = rest.split_at(k);
    let size = n + 1 + k;
    if is_wide(digits, decimals) {
        return Ok(Lexeme::new(size, Piece::TooWide));
    }
    if begins_symbol(rest) {
        return Ok(Lexeme::new(size, Piece::BadByte(size)));
    }
    let digits = Name::from_slice(alloc, digits)?;
    let decimals = Name::from_slice(alloc, decimals)?;
    Ok(Lexeme::word(size, Leaf::Decimal(digits, decimals)))
}

// A simple symbol or a reserved word.
fn symbol(alloc: Global, bytes: &[u8]) -> Result<Lexeme, AllocError>
    requires some { 0 < length bytes.now }
    requires symbol { IsTrue (is_symbol_byte (slice_index bytes.now 0)) }
    ensures { IfOk result (IsFrontOf bytes.now (symbol_at bytes.now)) }
{
    let n = run_len(Class::Symbol, bytes);
    let name = &bytes[..n];
    match reserved(name) {
        Some(word) => Ok(Lexeme::word(n, Leaf::Reserved(word))),
        None => {
            let name = Name::from_slice(alloc, name)?;
            Ok(Lexeme::word(n, Leaf::Symbol(name)))
        }
    }
}

// A symbol between bars.
fn quoted(alloc: Global, bytes: &[u8]) -> Result<Lexeme, AllocError>
    requires { 0 < length bytes.now }
    ensures { IfOk result (IsFrontOf bytes.now (quoted_at bytes.now)) }
{
    let inside = &bytes[1..];
    let n = run_len(Class::Quoted, inside);
    if n == inside.len() {
        return Ok(Lexeme::new(bytes.len(), Piece::Unended));
    }
    if inside[n] == b'\\' {
        return Ok(Lexeme::new(bytes.len(), Piece::BadByte(n + 1)));
    }
    let name = Name::from_slice(alloc, &inside[..n])?;
    Ok(Lexeme::word(n + 2, Leaf::Symbol(name)))
}

// A string between quotes.
fn string(alloc: Global, bytes: &[u8]) -> Result<Lexeme, AllocError>
    requires { 0 < length bytes.now }
    ensures { IfOk result (IsFrontOf bytes.now (string_at bytes.now)) }
{
    match string_text(alloc, &bytes[1..])? {
        Some((text, size)) => Ok(Lexeme::word(size + 1, Leaf::String(text))),
        None => Ok(Lexeme::new(bytes.len(), Piece::Unended)),
    }
}

// A keyword, for which a colon alone is not enough.
fn keyword(alloc: Global, bytes: &[u8]) -> Result<Lexeme, AllocError>
    requires { 0 < length bytes.now }
    ensures { IfOk result (IsFrontOf bytes.now (keyword_at bytes.now)) }
{
    let rest = &bytes[1..];
    let n = run_len(Class::Symbol, rest);
    if n == 0 {
        return Ok(Lexeme::new(1, Piece::BadByte(0)));
    }
    let name = Name::from_slice(alloc, &rest[..n])?;
    Ok(Lexeme::word(n + 1, Leaf::Keyword(name)))
}
