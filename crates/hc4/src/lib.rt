//! The passes of HC4 (Benhamou, Goualard, Granvilliers, Puget 1999), for the search. Forward: `fill` puts the enclosures
//! of all terms of a shared graph over a space into rows, `follow` renews them after axes changed.
//! Backward: `narrow` leaves of a space what an atom leaves of it, from these enclosures; it is one pass from the root of
//! the atom down, and is not repeated to a fixed point. The checker has arithmetic of its own (`plain_eval`): the two may
//! read alike in definitions only.
#![tactic(auto)]

mod axes;
mod forward;
mod narrowing;
mod node_interval;
mod push;
mod reached;
mod sweep;

pub use forward::{fill, follow};
pub use narrowing::{narrow, narrow_off};
