//! How narrow the enclosures of a problem's atoms become over boxes with small sides, and the least width that a search
//! needs so that no atom can stay undecided: from one forward pass over the root box, without a search.
#![tactic(auto)]

pub mod laws;
mod plan;
mod sizes;
mod widths;

pub use plan::{Plan, plan_widths};
