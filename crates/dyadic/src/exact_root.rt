// Whole roots: a guess by the processor's own root, which exact tests confirm.
ghost use Rattle.std.specs.Prelude.{◌+◌, ◌*◌, ◌^◌, ◌<◌, ◌≤◌, true, ◌≡◌};

use std::num::{nearest_u64_to_f64, saturating_f64_to_u64};

// A number near the root of one of more than 64 bits. Nothing rests on it.
fn near_root(n: u128) -> u128 {
    let high = (n >> 64) as u64;
    // 2^32
    let guess = u128::from(saturating_f64_to_u64(nearest_u64_to_f64(high).sqrt() * 4294967296.0));
    if guess == 0 {
        return 0;
    }
    guess.saturating_add(n / guess) / 2
}

// Whether r is the whole root of n.
fn is_root(r: u128, n: u128) -> bool
    ensures bound { result ≡ true → r < 2 ^ 64 }
    ensures square_le { result ≡ true → r * r ≤ n }
    ensures next_square_gt { result ≡ true → n < (r + 1) * (r + 1) }
{
    if r >= 1 << 64 {
        return false;
    }
    let square = r * r;
    square <= n && n - square <= 2 * r
}

/// The greatest number whose square is not above n.
pub fn root_of(n: u128) -> u128
    ensures bound { result < 2 ^ 64 }
    ensures square_le { result * result ≤ n }
    ensures next_square_gt { n < (result + 1) * (result + 1) }
{
    let near = near_root(n);
    if is_root(near, n) {
        return near;
    }
    if near > 0 && is_root(near - 1, n) {
        return near - 1;
    }
    n.isqrt()
}
