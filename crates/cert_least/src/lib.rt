//! The checker of certificates of a script with a goal and one check: of its check, or of its least value.
//!
//! The main call is `GoalFeed`: it takes a certificate in any pieces, and `end` answers its verdict. `GoalChecker` is the
//! same over lines. All that a certificate of least values shares with one of a check goes to `cert_check`'s checker; what
//! is here is the lower bound, the limit of the goal, the leaves that are over the bound, and the point behind the cover.
//! It reads no file and writes no answer.
#![tactic(auto)]

mod again;
mod aim;
mod checker;
mod cover;
mod ending;
mod fault;
mod feed;
mod given;
mod header;
mod limit;
mod phase;
mod phases;
mod point;
mod said;
mod verdict;

pub use checker::GoalChecker;
pub use feed::GoalFeed;
pub use verdict::{GoalVerdict, Least};
