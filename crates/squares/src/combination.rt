// What is combined.
use dyadic::Dy;
use ival::Ival;
use poly_graph::Problem;

/// Atoms of a problem by number, each with its multiplier, and in the same order the ranges of their terms' values.
#[derive(Clone, Copy)]
pub struct Combination<'a> {
    pub problem: &'a Problem,
    pub multipliers: &'a [(u32, Dy)],
    pub ranges: &'a [Ival],
}
