//! The search for a problem: `solve` works on the book of a cover, box by box, depth first, until no box is live, a
//! point is found or the budget of branches is spent. Many workers share the book, each in a thread of its own, and the
//! caller finishes what they leave. `solve_all` does so at each check of a script, with the lemmas that may be kept, and
//! `search_on` goes on from a book as it stands. It answers nothing by itself: what is known then is read off the book.
//! It neither reads scripts nor writes certificates.
#![tactic(auto)]

mod asker;
mod gate;
mod member;
mod open_box;
mod run;
mod search;
mod task;
mod team;
mod worker;

pub use gate::{Gate, NoGate};
pub use run::{search_on, solve, solve_all};
