// Numbers from their text.
ghost use Rattle.std.specs.Prelude.{◌≡◌, ℕ, ◌+◌, ◌^◌, ◌<◌, ◌≤◌, ◌++◌, ◌↔◌, ◌≢◌, Bool, false, List, length, slice_index, EachIndex, pos, ◌-ℤ◌, IsTrue, MatchOption};
ghost use Rattle.std.specs.Int.{IsInRange};
ghost use Rattle.std.specs.Str.Parse.{digits_value};
ghost use Rattle.dyadic.specs.NumberText.{is_nought, of_exponent};
ghost use Rattle.dyadic.specs.Text.{IsDigits, IsShaped, IsCanonical, IsShift, minus_sign};
ghost use Rattle.dyadic.specs.TextAnswer.{kept_answer};

use crate::dy::Dy;
use crate::number::signed;
use crate::rounding::is_in_range;
use crate::size::Size;

// Whether the text is `0`.
pub fn is_nought(text: &[u8]) -> bool
    ensures { result ≡ is_nought text.now }
{
    match text {
        [b] => *b == b'0',
        _ => false,
    }
}

// Whether there are digits and nothing else.
fn is_digits(text: &[u8]) -> bool
    ensures { IsTrue result ↔ IsDigits text.now }
{
    !text.is_empty() && text.iter().all(|c| *c >= b'0' && *c <= b'9')
}

// The number that the digits write, if it is not above the limit.
fn number_from(text: &[u8], limit: u64) -> Option<u64>
    requires { EachIndex text.now (λ k. IsInRange 48 57 (slice_index text.now k)) }
    ensures { MatchOption result (limit < digits_value 10 text.now) (λ n.
        (n ≡ digits_value 10 text.now) × (n ≤ limit)) }
{
    let mut number = 0;
    for c in text {
        number = 10 * number + u128::from(*c - b'0');
        if number > u128::from(limit) {
            return None;
        }
    }
    Some(number as u64)
}

// A minus sign in front, and what follows it.
fn sign_and_rest(text: &[u8]) -> (bool, &[u8])
    ensures joined { text.now ≡ minus_sign result.0 ++ result.1.now }
    ensures none { result.0 ≡ false → slice_index text.now 0 ≢ 45 }
{
    match text {
        [b'-', rest @ ..] => (true, rest),
        _ => (false, text),
    }
}

// The first place of the letter `b`.
fn mark_in(text: &[u8]) -> Option<usize>
    ensures { MatchOption result
        ((k : ℕ) → k < length text.now → slice_index text.now k ≢ 98)
        (λ m. (m < length text.now) × (slice_index text.now m ≡ 98) ×
        ((k : ℕ) → k < m → slice_index text.now k ≢ 98)) }
{
    for (i, c) in text.iter().enumerate() {
        if *c == b'b' {
            return Some(i);
        }
    }
    None
}

// A text of the right shape, in its parts.
#[derive(Clone, Copy)]
pub struct Parts<'a> {
    pub negative: bool,
    pub digits: &'a [u8],
    pub below: bool,
    pub exponent: &'a [u8],
}

// The parts of a text, if it has the right shape.
pub fn parts_of(text: &[u8]) -> Option<Parts<'_>>
    ensures { MatchOption result
        ((s : Bool) (ds : List ℕ) (t : Bool) (es : List ℕ) → ¬ IsShaped text.now s ds t es)
        (λ p. IsShaped text.now p.negative p.digits.now p.below p.exponent.now) }
{
    let (negative, rest) = sign_and_rest(text);
    let Some(mark) = mark_in(rest) else {
        return None;
    };
    let digits = &rest[..mark];
    let (below, exponent) = sign_and_rest(&rest[mark + 1..]);
    if is_digits(digits) && is_digits(exponent) {
        Some(Parts {
            negative,
            digits,
            below,
            exponent,
        })
    } else {
        None
    }
}

// Whether the parts are in the one spelling.
pub fn is_canonical(digits: &[u8], below: bool, exponent: &[u8]) -> bool
    requires digits { IsDigits digits.now }
    requires exponent { IsDigits exponent.now }
    ensures { IsTrue result ↔ IsCanonical digits.now below exponent.now }
{
    if digits[0] == b'0' || digits[digits.len() - 1] % 2 == 0 {
        false
    } else if exponent[0] == b'0' {
        exponent.len() == 1 && !below
    } else {
        true
    }
}

// How many units of 2^-120 are in 2^exponent: their power, if it is in range.
fn shift_of(below: bool, exponent: u64) -> Option<u32>
    requires { exponent ≤ 122 }
    ensures { MatchOption result (IsTrue below × (120 < exponent)) (λ s. IsShift below exponent s) }
{
    if !below {
        Some(120 + exponent as u32)
    } else if exponent <= 120 {
        Some(120 - exponent as u32)
    } else {
        None
    }
}

// The number that the parts spell, if it is representable.
pub fn number_of(negative: bool, digits: &[u8], below: bool, exponent: &[u8]) -> Option<Dy>
    requires digits { IsDigits digits.now }
    requires exponent { IsDigits exponent.now }
    requires canonical { IsCanonical digits.now below exponent.now }
    ensures { kept_answer result ≡
        of_exponent negative (digits_value 10 digits.now) below (digits_value 10 exponent.now) }
{
    let Some(odd) = number_from(digits, 1 << 62) else {
        return None;
    };
    let Some(power) = number_from(exponent, 122) else {
        return None;
    };
    let Some(shift) = shift_of(below, power) else {
        return None;
    };
    if is_in_range(odd, shift) {
        let size = Size { odd, shift };
        Some(signed(negative, size))
    } else {
        None
    }
}
