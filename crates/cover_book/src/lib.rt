//! The book of a cover: which boxes are live, how the others were closed, split or got stuck, which lemmas were
//! learned on the way, and the point that ends the search.
//! A book may open with the lemmas of another one ([`Book::carry`]), and in any state of its problem
//! ([`Book::begin_at`]).
//!
//! Its main type is [`Book`], which takes only what keeps it a cover: [`Book::commit`], [`Book::learn`] and
//! [`Book::found`], each one step of one relation. [`laws`] says what a book means. The crate works on no box and
//! chooses none: `box_worker` and `solve_core` do.
#![tactic(auto)]

mod book;
mod calls;
mod carry;
mod ending;
mod grid;
pub mod laws;
mod live_nodes;
mod node;
mod refusal;
mod verdict;

pub use book::{Book, MOST_LEMMAS};
pub use calls::{Call, Reply};
pub use live_nodes::LiveNodes;
pub use node::{Learned, Lines, Node};
pub use refusal::{BookRefusal, Kids};
pub use verdict::BookVerdict;
