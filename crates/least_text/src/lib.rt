//! Certificates of least values, as text.
//!
//! Its calls are [`write_over`], whose cover is the root alone, where the goal is not below the bound, and
//! [`write_limited`], whose cover is that of a book of the problem with the bound as a limit of the goal. Behind the cover
//! stands a point. The crate checks nothing and writes to no file.
#![tactic(auto)]

mod facts;
mod header;
mod limited;
mod over;

pub use limited::write_limited;
pub use over::write_over;
