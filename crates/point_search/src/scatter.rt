// Points that are scattered over a box.
use crate::bounds::Bounds;
use std::alloc::{AllocError, Global};
use std::num::nearest_u64_to_f64;

// 2 to the power of -53.
const UNIT: f64 = 1.0 / 9_007_199_254_740_992.0;

// Bits as if drawn by chance, for each number (SplitMix64: Steele, Lea, Flood 2014).
fn mixed(number: u64) -> u64 {
    let mut bits = number.wrapping_mul(0x9E37_79B9_7F4A_7C15);
    bits = (bits ^ (bits >> 30)).wrapping_mul(0xBF58_476D_1CE4_E5B9);
    bits = (bits ^ (bits >> 27)).wrapping_mul(0x94D0_49BB_1331_11EB);
    bits ^ (bits >> 31)
}

// A number from 0 to 1 for each point of the sequence and each axis.
fn share(number: u32, axis: usize) -> f64 {
    let place = (u64::from(number) << 32).wrapping_add(axis as u64);
    nearest_u64_to_f64(mixed(place) >> 11) * UNIT
}

/// The point of this number in a sequence that is scattered over the box.
pub fn scattered(
    alloc: Global,
    bounds: &Bounds,
    number: u32,
) -> Result<Vec<f64, Global>, AllocError> {
    let mut x = Vec::new(alloc);
    for axis in 0..bounds.sides.len() {
        let side = bounds.side(axis);
        x.push(side.low + (side.high - side.low) * share(number, axis))?;
    }
    Ok(x)
}
