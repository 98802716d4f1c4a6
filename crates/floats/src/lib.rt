//! Numbers and intervals as floats near to them, and back, the coefficients of terms at a point, and their slopes over a
//! box, for whatever chooses in floats. Nothing is promised of how near they are: `relaxation`, `point_search` and
//! `box_worker`, which stand on this crate, guide a search that tests exactly what it makes of them.
#![tactic(auto)]

mod due;
mod lists;
mod near;
mod slopes;
mod sweep;

pub use lists::{add, at, set, size};
pub use near::{
    Span, approximate, multiplier, near_fraction, number, span_of_domain, span_of_interval,
};
pub use slopes::Slopes;
pub use sweep::{Adjoints, coefficients, value_at};
