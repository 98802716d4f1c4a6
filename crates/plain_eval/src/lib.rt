//! The checker's own arithmetic, each pass written straight from its definition. It shares definitions with their laws,
//! `ival`'s operations and `poly_graph`'s tables with the search (`hc4`, `combine`), and no other code: the two may read
//! alike in definitions only, so that a fault in the search's passes is not a fault of the checker too.
//!
//! `enclose` gives enclosures of terms, from node 0 up. `follow` lets rows of enclosures follow from one space to another:
//! it looks at the variables, and above them at what has a child whose enclosure changed. From these rows
//! `narrow_enclosed` gives what an atom leaves of a space, from the atom's term down, each node once all its parents have
//! left it what they leave.
//!
//! `combine_plain` leaves of a space what a combination of marked atoms leaves of it. Its sweep goes from the highest root
//! down and keeps the coefficients of each node's difference in rows; the parts of the variables are read off these rows:
//! once downwards for the ranges of those behind, once upwards for what is left to each, once downwards again to set the
//! axes. It looks at the nodes under its atoms alone, allocates nothing, and encloses nothing: the rows over the space and
//! at its middle are the caller's.
#![tactic(auto)]

mod axes;
mod combining;
mod enclosing;
mod evaluate;
mod following;
mod give;
mod left;
mod narrowing;
mod part;
mod parts;
mod quadratic;
mod room;
mod scratch;
mod set_axes;
mod start;
mod subterms;
mod sweep;
mod upward;

pub use combining::combine_plain;
pub use enclosing::enclose;
pub use following::follow;
pub use narrowing::{narrow_enclosed, narrow_off_enclosed};
pub use room::{Coefficients, Room};
pub use start::marked_range;
pub use upward::Upward;
