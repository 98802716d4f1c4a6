//! Ranges of the trees of a script's assertions: for each tree an interval in which its value lies where the declared
//! constants lie in theirs.
//!
//! `enclosures` answers the intervals of all trees of an arena. Constants lie where comparisons under conjunctions put
//! them; `root_bound` and `quotient_range` say in what a root and a quotient lie. No constant is made of one here.

mod arena;
mod bounds;
mod constants;
mod end_bound;
mod ends;
mod literal;
mod operators;
mod quotients;
mod ranges;
mod roots;
mod shapes;
mod side;
mod sweep;

pub use arena::enclosures;
pub use quotients::{avoids_nought, quotient_range};
pub use roots::root_bound;
