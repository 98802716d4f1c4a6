//! The lines of a cover's tree as data: each rule with its operands, grouped by what it leaves of a state, and the first
//! words of the lines, which are spelled here alone.
//!
//! Readers, writers and checkers of lines ask a [`Rule`] or a [`Word`] for its shape, so that a rule like others is one
//! more variant of its group. What a rule asks of a state and leaves of it is said in `cover_model`.
#![tactic(auto)]

mod block;
mod rule;
mod word;

pub use block::{Block, Factor};
pub use rule::{Branching, Ending, Marking, Narrowing, Rule, Staying};
pub use word::{NarrowingKind, Word};
