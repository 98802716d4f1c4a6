//! Scripts that no point satisfies, made from a number.
#![tactic(auto)]

ghost use Rattle.std.specs.Prelude.{◌≡◌, ◌+◌, ◌*◌, ◌/◌, ◌%◌, ◌^◌, ◌++◌, ◌≤◌, IfOk, OnOk};
ghost use Rattle.gen_script.specs.Demo.{next_number, coefficient, atom_line, demo_script};

use itoa::Buffer;
use std::alloc::{AllocError, Global};

/// There was no memory for the script.
#[derive(Clone, Copy, Debug, PartialEq, Eq)]
pub struct Memory;

impl From<AllocError> for Memory {
    ghost from_gives = { λ _ e. e ≡ record {} };

    fn from(_: AllocError) -> Self {
        Memory
    }
}

const HEAD: &str =
    "(set-logic QF_NRA)\n(declare-const x Real)\n(declare-const y Real)\n(assert (<= 0 x 1))\n(assert (<= 0 y 1))\n";

const TAIL: &str = "(check-sat)\n(exit)\n";

// The number after this one (D. E. Knuth, MMIX).
fn following(number: u64) -> u64
    ensures { result ≡ next_number number }
{
    number
        .wrapping_mul(6364136223846793005)
        .wrapping_add(1442695040888963407)
}

// Writes the line of the atom with this coefficient.
fn write_line(script: &mut Vec<u8>, factor: u64) -> Result<(), AllocError>
    ensures { OnOk result (script.new.items ≡ script.old.items ++ atom_line factor) }
{
    let mut buffer = Buffer::new();
    let digits = buffer.format(factor).as_bytes();
    script.extend_from_slice(b"(assert (= (- (* ")?;
    script.extend_from_slice(digits)?;
    script.extend_from_slice(b" x y) (* ")?;
    script.extend_from_slice(digits)?;
    script.extend_from_slice(b" y x)) (/ ")?;
    script.extend_from_slice(digits)?;
    script.extend_from_slice(b" 8)))\n")?;
    Ok(())
}

/// The script of a seed with so many atoms over x and y from 0 to 1.
///
/// Each atom asks that `A * x * y - A * y * x` be `A / 8`, for a number A from 1 to 1,000 that the seed gives, so no
/// point satisfies the script.
pub fn make(alloc: Global, seed: u64, size: u32) -> Result<Vec<u8>, Memory>
    requires least { 1 ≤ size }
    requires most { size ≤ 10000 }
    ensures { IfOk result (λ script. script.items ≡ demo_script seed size) }
{
    let mut script = Vec::from_slice(alloc, HEAD.as_bytes())?;
    let mut number = seed;
    for _done in 0..size {
        number = following(number);
        write_line(&mut script, 1 + (number >> 33) % 1000)?;
    }
    script.extend_from_slice(TAIL.as_bytes())?;
    Ok(script)
}
