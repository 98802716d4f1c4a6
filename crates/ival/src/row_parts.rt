// Rows as a list of intervals, and words of marks.
ghost use Rattle.std.specs.Prelude.{◌≡◌, ◌+◌, ◌/◌, vec_len};

use crate::ends::Ival;
use std::alloc::Global;

/// A row of intervals, with a mark beside each: bit `k % 64` of word `k / 64` marks place `k`.
#[derive(Drop)]
pub struct Rows {
    pub intervals: Vec<Ival, Global>,
    pub words: Vec<u64, Global>,
    pub ghost enough: { vec_len words ≡ vec_len intervals / 64 + 1 },
}
