// Parts of a box, for people: each branch takes its box for two halves.
use std::alloc::{AllocError, Global};

/// The whole box; what is smaller than a unit counts for nothing.
pub const WHOLE: u64 = 1 << 62;

/// What a box is of the first one, so many branches below it.
pub fn portion_at(depth: u32) -> u64 {
    WHOLE.checked_shr(depth).unwrap_or(0)
}

/// A portion of the whole in hundredths, with two places, never more than it is.
pub fn percent(alloc: Global, portion: u64) -> Result<String, AllocError> {
    let parts = u128::from(portion.min(WHOLE)).wrapping_mul(10000) / u128::from(WHOLE);
    let (whole, rest) = (parts / 100, parts % 100);
    format!(in alloc; "{whole}.{rest:02} %")
}
