// The intervals of literals.
ghost use Rattle.std.specs.Prelude.{◌≡◌, ◌^◌, ◌≤◌, IfSome};
ghost use Rattle.std.specs.Str.Parse.{digits_value_after};
ghost use Rattle.script_model.specs.Reading.{literal_value};
ghost use Rattle.ival.specs.Views.{around, interval_of};

use dyadic::Frac;
use ival::Ival;

// The greatest number of a literal.
const WIDEST: u128 = 1_000_000_000_000_000_000_000_000_000_000_000_000;

// The number that digits write behind those of another, where it is at most 10^36.
fn number_after(start: u128, digits: &[u8]) -> Option<u128>
    ensures value { IfSome result (λ n. n ≡ digits_value_after 10 start digits.now) }
    ensures narrow { IfSome result (λ n. n ≤ 10 ^ 36) }
{
    let mut value = start;
    let mut left = digits;
    while let Some((digit, later)) = left.split_first() {
        if value > WIDEST || *digit < b'0' || *digit > b'9' {
            return None;
        }
        value = value * 10 + u128::from(*digit - b'0');
        left = later;
    }
    if value > WIDEST { None } else { Some(value) }
}

// 10 to this power.
fn power_of_ten(n: usize) -> u128
    requires { n ≤ 36 }
    ensures value { result ≡ 10 ^ n }
    ensures some { 1 ≤ result }
    ensures few { result ≤ 10 ^ 36 }
{
    10u128.pow(n as u32)
}

/// The least interval around the number of a literal of these digits, and those after its point; none where it has a
/// number beyond 10^36.
pub(crate) fn literal_range(digits: &[u8], decimals: &[u8]) -> Option<Ival>
    ensures { IfSome result (λ i.
        interval_of i ≡ around (literal_value digits.now decimals.now)) }
{
    if decimals.len() > 36 {
        return None;
    }
    let whole = number_after(0, digits)?;
    let number = number_after(whole, decimals)?;
    let below = power_of_ten(decimals.len());
    Some(Ival::around(Frac::new(number as i128, below as i128)))
}
