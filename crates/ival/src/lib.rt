//! Intervals with rounded ends, rows of them, and spaces.
#![tactic(auto)]

mod best;
mod domain;
mod ends;
mod factors;
mod interval;
mod inverse;
mod narrowed;
mod part;
mod product;
mod root;
mod row_parts;
mod rows;
mod side;
mod side_length;
mod space;
mod wide;
mod wide_parts;
mod word;

pub use domain::{Domain, Range, Truths};
pub use ends::{Ends, Ival};
pub use narrowed::Narrowed;
pub use row_parts::Rows;
pub use side::Side;
pub use space::Space;
