// The lines of a tree as bytes: what each leaves, and the lemma that it names.
ghost use Rattle.std.specs.Prelude.{◌≡◌, ◌<◌, ◌^◌, ◌++◌, ◌∷◌, [], ℕ, List, decimal, nat_eq, not, IsTrue, OnOk, IfSome, IsSome};
ghost use Rattle.cover_line.specs.Views.{rule_word};
ghost use Rattle.cover_model.specs.Rules.{Line};
ghost use Rattle.cert_read.specs.CertLine.{CertLine, rule_line};
ghost use Rattle.cert_read.specs.LineText.{line_text, IsSpelled};
ghost use Rattle.cert_read.specs.Lines.{all_bytes, words_of};
ghost use Rattle.cert_joined.specs.Covers.{numbered};
ghost use Rattle.cert_join.specs.Kinds.{does_name, does_stay, kind_of_word, left_kind, lemma_front, lemma_named, rule_text, waiting_behind, IsRenumbered};

use cover_line::Word;
use itoa::Buffer;
use memchr::{memchr, memrchr};
use std::alloc::AllocError;

/// What a line leaves of its state.
#[derive(Clone, Copy, Debug, PartialEq, Eq)]
pub enum Left {
    Nothing,
    One,
    Two,
    /// The state stays open.
    Open,
    /// The state stays stuck.
    Stuck,
    /// It is no line of a tree.
    Unknown,
}

impl Left {
    /// Whether the state stays.
    pub fn stays(self) -> bool
        ensures { result ≡ does_stay self }
    {
        matches!(self, Left::Open | Left::Stuck)
    }

    /// How many states wait behind the line, where so many waited with its own.
    pub fn waiting(self, before: u64) -> u64
        ensures { result ≡ waiting_behind self before }
    {
        match self {
            Left::Nothing | Left::Open | Left::Stuck | Left::Unknown => before.saturating_sub(1),
            Left::One => before,
            Left::Two => before.saturating_add(1),
        }
    }
}

// What a line with this first word leaves.
fn left_by(word: Word) -> Left
    ensures { result ≡ kind_of_word (rule_word word) }
{
    match word {
        Word::Narrow(_) | Word::Unit | Word::Ban => Left::One,
        Word::Void(_) | Word::Squares | Word::False | Word::By | Word::Empty => Left::Nothing,
        Word::Cut | Word::Flip | Word::Case | Word::Either => Left::Two,
        Word::Open => Left::Open,
        Word::Stuck => Left::Stuck,
    }
}

/// What stands before the first space.
pub fn first_word(line: &[u8]) -> &[u8]
    ensures { (ws : List (List ℕ)) × (words_of line.now ≡ result.now ∷ ws) }
{
    match memchr(b' ', line) {
        Some(place) => &line[..place],
        None => line,
    }
}

/// What the line leaves of its state.
pub fn left_of(line: &[u8]) -> Left
    ensures { (r : Line) → line.now ≡ rule_text r → result ≡ left_kind r }
{
    let word = first_word(line);
    match Word::spelled(word) {
        Some(Word::Open) if word.len() < line.len() => Left::Unknown,
        Some(word) => left_by(word),
        None => Left::Unknown,
    }
}

// Whether the last word of the line is the number of a lemma.
fn names_lemma(line: &[u8]) -> bool
    ensures { (l : CertLine) → line.now ≡ line_text l → result ≡ does_name l }
{
    let word = first_word(line);
    word == Word::By.text().as_bytes() || word == Word::Ban.text().as_bytes()
}

/// The number that the bytes spell, in decimal digits without a leading zero.
pub fn number_of(bytes: &[u8]) -> Option<u32>
    ensures spelled { IfSome result (λ n. bytes.now ≡ decimal n) }
    ensures found { (n : ℕ) → n < 2 ^ 32 → bytes.now ≡ decimal n → result ≡ Some n }
{
    let Ok(text) = str::from_utf8(bytes) else {
        return None;
    };
    match text.parse::<u32>() {
        Ok(number) => {
            let mut buffer = Buffer::new();
            if buffer.format(number) == text {
                Some(number)
            } else {
                None
            }
        }
        Err(_) => None,
    }
}

/// Appends a number in decimal digits.
pub fn append_number(text: &mut Vec<u8>, number: u32) -> Result<(), AllocError>
    ensures { OnOk result (text.new.items ≡ text.old.items ++ decimal number) }
{
    let mut buffer = Buffer::new();
    text.extend_from_slice(buffer.format(number).as_bytes())
}

// What stands up to the last space, and behind it.
fn last_word(line: &[u8]) -> (&[u8], &[u8])
    ensures { (front word : List ℕ) → line.now ≡ (front ++ (32 ∷ [])) ++ word →
        IsTrue (all_bytes (λ b. not (nat_eq b 32)) word) →
        (result.0.now ≡ front ++ (32 ∷ [])) × (result.1.now ≡ word) }
{
    match memrchr(b' ', line) {
        Some(place) => line.split_at(place + 1),
        None => (line, &line[line.len()..]),
    }
}

// What stands up to the last space, and the number behind it.
fn last_number(line: &[u8]) -> (&[u8], Option<u32>)
    ensures { (r : Line) (i : ℕ) → line.now ≡ rule_text r → IsSpelled (rule_line r) →
        lemma_named r ≡ Some i → (result.0.now ≡ lemma_front r) × (result.1 ≡ Some i) }
{
    let (front, digits) = last_word(line);
    (front, number_of(digits))
}

// Appends what stands before a number, and the number.
fn append_both(text: &mut Vec<u8>, front: &[u8], number: u32) -> Result<(), AllocError>
    ensures { OnOk result (text.new.items ≡ text.old.items ++ (front.now ++ decimal number)) }
{
    match text.extend_from_slice(front) {
        Ok(()) => append_number(text, number),
        Err(error) => Err(error),
    }
}

/// Whether the line names none but the first lemmas, so many.
pub fn names_before(line: &[u8], count: usize) -> bool {
    if !names_lemma(line) {
        return true;
    }
    match last_number(line) {
        (_, Some(named)) => (named as usize) < count,
        (_, None) => false,
    }
}

// The number that these give this lemma, or 0.
fn number_at(numbers: &[u32], named: u32) -> u32
    ensures { result ≡ numbered numbers.now named }
{
    let place = named as usize;
    if place >= numbers.len() {
        return 0;
    }
    numbers[place]
}

// The number that these give a lemma, or 0.
fn number_by(numbers: &[u32], named: Option<u32>) -> u32
    ensures { (i : ℕ) → named ≡ Some i → result ≡ numbered numbers.now i }
{
    match named {
        Some(named) => number_at(numbers, named),
        None => 0,
    }
}

// Appends a line that names a lemma.
fn append_naming(text: &mut Vec<u8>, line: &[u8], numbers: &[u32]) -> Result<(), AllocError>
    ensures { (r : Line) (i : ℕ) → line.now ≡ rule_text r → IsSpelled (rule_line r) →
        lemma_named r ≡ Some i →
        OnOk result (IsRenumbered numbers.now (rule_line r) text.old.items text.new.items) }
{
    let (front, named) = last_number(line);
    match append_both(text, front, number_by(numbers, named)) {
        Ok(()) => Ok(()),
        Err(error) => Err(error),
    }
}

/// Appends a line without its break; a lemma that a line of a tree names has the number that `numbers` gives it, or 0.
pub fn append_renumbered(text: &mut Vec<u8>, line: &[u8], numbers: &[u32]) -> Result<(), AllocError>
    ensures { (l : CertLine) → line.now ≡ line_text l → IsSpelled l →
        OnOk result (IsRenumbered numbers.now l text.old.items text.new.items) }
{
    if names_lemma(line) {
        return append_naming(text, line, numbers);
    }
    match text.extend_from_slice(line) {
        Ok(()) => Ok(()),
        Err(error) => Err(error),
    }
}
