// Numbers of an answer as decimals, for people: an answer has them as M, or as MbE for M * 2^E.
ghost use Rattle.std.specs.Prelude.{◌≡◌, ◌≤◌};

use std::alloc::{AllocError, Global};

/// So many digits are shown from the first one on that is not 0; two dots stand for those that follow.
const MOST_DIGITS: u32 = 17;

/// The places behind the binary point, at most.
const MOST_PLACES: u32 = 120;

/// A number of an answer whose text has an exponent: its sign, M without the sign, and E.
#[derive(Clone, Copy)]
struct Number {
    is_negative: bool,
    size: u64,
    exponent: i32,
}

fn number_of(text: &str) -> Option<Number> {
    let (whole, exponent) = text.split_once('b')?;
    let (is_negative, digits) = match whole.strip_prefix('-') {
        Some(digits) => (true, digits),
        None => (false, whole),
    };
    match (digits.parse::<u64>(), exponent.parse::<i32>()) {
        (Ok(size), Ok(exponent)) => Some(Number {
            is_negative,
            size,
            exponent,
        }),
        _ => None,
    }
}

// The digits of a fraction of 2^places, and two dots where more follow.
fn push_fraction(text: &mut String, fraction: u128, places: u32) -> Result<(), AllocError> {
    let mut rest = fraction;
    let mut shown = 0u32;
    text.push('.')?;
    for _ in 0..MOST_PLACES {
        if rest == 0 || shown >= MOST_DIGITS {
            break;
        }
        let ten = rest.wrapping_mul(10);
        let digit = ten.checked_shr(places).unwrap_or(0) % 10;
        rest = ten.wrapping_sub(digit.checked_shl(places).unwrap_or(0));
        if digit > 0 || shown > 0 {
            shown = shown.saturating_add(1);
        }
        write!(text, "{digit}")?;
    }
    if rest != 0 {
        text.push_str("..")?;
    }
    Ok(())
}

/// The decimals of a number of an answer whose text has an exponent.
pub fn decimals_of(alloc: Global, text: &str) -> Result<Option<String>, AllocError> {
    let Some(number) = number_of(text) else {
        return Ok(None);
    };
    let mut shown = String::new(alloc);
    if number.is_negative {
        shown.push('-')?;
    }
    let size = number.size as u128;
    let places = number.exponent.unsigned_abs().min(MOST_PLACES);
    if number.exponent >= 0 {
        let whole = size.checked_shl(places).unwrap_or(0);
        write!(shown, "{whole}")?;
        return Ok(Some(shown));
    }
    let whole = size.checked_shr(places).unwrap_or(0);
    let above = whole.checked_shl(places).unwrap_or(0);
    write!(shown, "{whole}")?;
    push_fraction(&mut shown, size.wrapping_sub(above), places)?;
    Ok(Some(shown))
}

// The decimals of an end of a range; 0 has no exponent.
fn end_of(alloc: Global, text: &str) -> Result<Option<String>, AllocError> {
    if text == "0" {
        Ok(Some("0".to_string(alloc)?))
    } else {
        decimals_of(alloc, text)
    }
}

/// The decimals of the ends of a range, unless both are 0.
pub fn ends_of(
    alloc: Global,
    low: &str,
    high: &str,
) -> Result<Option<(String, String)>, AllocError> {
    if low == "0" && high == "0" {
        return Ok(None);
    }
    match (end_of(alloc, low)?, end_of(alloc, high)?) {
        (Some(low), Some(high)) => Ok(Some((low, high))),
        _ => Ok(None),
    }
}
