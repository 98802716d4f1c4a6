// What is combined, and over what.
use dyadic::Dy;
use ival::{Rows, Space};
use poly_graph::{Lits, Problem};

/// Atoms of a problem with their marks, each with its multiplier. An atom counts with its range, loosened by 2 to the
/// power of minus `loosen`, or where it is marked no with its off-range.
#[derive(Clone, Copy)]
pub struct Combination<'a> {
    pub problem: &'a Problem,
    pub loosen: u32,
    pub lits: &'a Lits,
    pub multipliers: &'a [(u32, Dy)],
}

/// A space and its middle, with the enclosures over each.
#[derive(Clone, Copy)]
pub struct Enclosures<'a> {
    pub space: &'a Space,
    pub rows: &'a Rows,
    pub centre: &'a Space,
    pub centre_rows: &'a Rows,
}
