//! Scripts, what is asked of their problems, and the verdicts of certificates on them: what several crates of rows try.
//! Only those crates stand on it, and no program. That a problem may have a book is all that it promises of one.
#![tactic(auto)]

mod inside;
mod made;
pub mod scripts;

pub use inside::lies_within;
pub use made::{USUAL, small, smallest, verdict};
