// The text of a number: `0`, or an odd number, `b` and the exponent.
ghost use Rattle.std.specs.Prelude.{◌≡◌, ℕ, ◌+◌, ◌≤◌, ◌++◌, length, take};
ghost use Rattle.dyadic.specs.NumberText.{number_spelling};
ghost use Rattle.dyadic.specs.Text.{spelling};
ghost use Rattle.dyadic.specs.Views.{dyadic_of};

use crate::dy::Dy;
use crate::parts::Parts;
use itoa::Buffer;

// Writes the bytes at a place, and says where they end.
fn put(into: &mut [u8], at: usize, bytes: &[u8]) -> usize
    requires { at + length bytes.now ≤ length into.old }
    ensures end { result ≡ at + length bytes.now }
    ensures written { take result into.new ≡ take at into.old ++ bytes.now }
{
    let end = at + bytes.len();
    into[at..end].copy_from_slice(bytes);
    end
}

// Writes the number by its parts.
fn write_parts(a: Parts, into: &mut [u8; 64]) -> usize
    ensures short { result ≤ 64 }
    ensures written { take result into.new ≡
        spelling a.negative a.size.odd a.size.shift }
{
    if a.size.odd == 0 {
        return put(into, 0, b"0");
    }
    let mut buffer = Buffer::new();
    let sign_end = if a.negative { put(into, 0, b"-") } else { 0 };
    let odd_end = put(into, sign_end, buffer.format(a.size.odd).as_bytes());
    let mark_end = put(into, odd_end, b"b");
    put(
        into,
        mark_end,
        buffer.format(a.size.shift as i32 - 120).as_bytes(),
    )
}

/// Writes the one spelling of the number, and says how many bytes it has.
pub fn write_dy(a: &Dy, into: &mut [u8; 64]) -> usize
    ensures short { result ≤ 64 }
    ensures written { take result into.new ≡ number_spelling (dyadic_of a.now) }
{
    write_parts(a.parts(), into)
}
