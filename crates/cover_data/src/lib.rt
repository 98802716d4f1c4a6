//! What a book keeps of a cover, as plain data: states, the lines of a run of rules, lemmas, points, margins and options.
//!
//! Its main types are [`State`], which is copied, compared and split in two, and [`KeptPatch`], a run of rules with the
//! states where it begins and ends. [`laws`] says what lawful runs mean. The crate applies no rule and tests no truth:
//! patches do, in `cover_rule`.
#![tactic(auto)]

mod closed;
mod combination;
mod has_marks;
mod kept;
mod kids;
pub mod laws;
mod lemma;
mod margins;
mod point;
mod squares;
mod state;
mod step;
mod stored;

pub use closed::ClosedPatch;
pub use combination::Combination;
pub use kept::KeptPatch;
pub use lemma::Lemma;
pub use margins::{Margins, Options};
pub use point::Point;
pub use squares::Squares;
pub use state::State;
pub use step::{Closing, End, Narrowing, Step};
pub use stored::StoredState;
