// The decimal digits of numbers.
ghost use Rattle.std.specs.Prelude.{◌≡◌, ◌<◌, ◌+◌, ◌*◌, ◌^◌, ◌++◌, IfOk};
ghost use Rattle.std.specs.Fmt.{decimal};
ghost use Rattle.root_rewriting.specs.Digits.{five_digits};
ghost use Rattle.root_rewriting.specs.Short.{IsShort};
ghost use Rattle.root_rewriting.specs.Whole.{number_of};

use crate::whole::Whole;
use itoa::Buffer;
use std::alloc::{AllocError, Global};

// The digits of a number of 128 bits.
fn short_digits(alloc: Global, number: u128) -> Result<Vec<u8>, AllocError>
    ensures { IfOk result (λ digits. digits.items ≡ decimal number) }
{
    let mut buffer = Buffer::new();
    Vec::from_slice(alloc, buffer.format(number).as_bytes())
}

// The last five digits.
fn last_five(low: u32) -> [u8; 5]
    requires { low < 100000 }
    ensures { result ≡ five_digits low }
{
    [
        b'0' + (low / 10_000) as u8,
        b'0' + (low / 1_000 % 10) as u8,
        b'0' + (low / 100 % 10) as u8,
        b'0' + (low / 10 % 10) as u8,
        b'0' + (low % 10) as u8,
    ]
}

// The digits of `high * 10^5 + low`.
fn long_digits(alloc: Global, high: u128, low: u32) -> Result<Vec<u8>, AllocError>
    requires some { 0 < high }
    requires low { low < 100000 }
    ensures { IfOk result (λ digits. digits.items ≡ decimal (high * 100000 + low)) }
{
    let mut digits = short_digits(alloc, high)?;
    digits.extend_from_slice(&last_five(low))?;
    Ok(digits)
}

// A number of more than 64 binary zeros by its quotient and its rest where it is divided by 10^5.
fn divided(factor: u64, power: u32) -> (u128, u32)
    requires short { IsShort factor power }
    requires long { 64 < power }
    ensures whole { result.0 * 100000 + result.1 ≡ factor * 2 ^ power }
    ensures high { 0 < result.0 }
    ensures low { result.1 < 100000 }
{
    let front = u128::from(factor) << 64;
    let shift = power - 64;
    let rest = front % 100_000 << shift;
    (
        (front / 100_000 << shift) + rest / 100_000,
        (rest % 100_000) as u32,
    )
}

/// The digits of a whole number.
pub(crate) fn digits(alloc: Global, number: Whole) -> Result<Vec<u8>, AllocError>
    ensures { IfOk result (λ digits. digits.items ≡ decimal (number_of number)) }
{
    if number.power <= 64 {
        return short_digits(alloc, u128::from(number.factor) << number.power);
    }
    let (high, low) = divided(number.factor, number.power);
    long_digits(alloc, high, low)
}
