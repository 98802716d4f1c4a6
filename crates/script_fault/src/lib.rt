//! Faults of a script: where they stand, of what kind they are, and the limits that a script may exceed.
//!
//! Each phase of the reader answers its first fault as a `ReadError`: a `ScriptFault`, or out of memory. Nothing is
//! read here, and no text of an answer is made here.
#![tactic(auto)]

mod fault;
mod limit;
mod name;
mod place;

pub use fault::{FaultKind, ReadError, ScriptFault};
pub use limit::{Limit, MOST_AXES, MOST_BYTES, MOST_CHECKS, MOST_DEPTH, MOST_LEVELS, MOST_SIZE};
pub use name::Name;
pub use place::Place;
