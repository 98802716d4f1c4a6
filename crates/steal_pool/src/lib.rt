//! A pool of hands for threads: each hand has a deque of ids, first in, first out, and steals from the others where its own is empty.
//!
//! `Pool::new` makes the hands, each for one thread. A thread calls `push` and `next` until `next` says that all hands rest, or `leave`s before.
//! `gather` takes all hands back into one thread, for what is left. The hands keep the law of their pool: each id that was pushed is taken
//! once or is left, and nobody takes another's ids out of their order (Blumofe, Leiserson, JACM 1999, for such pools; Chase, Lev, SPAA 2005, for such deques).
//!
//! It promises nothing of time: not that a hand gets work soon, that work is shared evenly, or that `next` returns. It starts no threads.
#![tactic(auto)]

mod count;
mod deque;
mod gathered;
mod hand;
mod pool;
mod rule;
mod whole;

pub use gathered::Gathered;
pub use hand::Hand;
pub use pool::{Pool, same_places_are_pool};
pub use whole::gather;
