//! The problems of a script's checks, in order, each kept by what is new in it beside the one before.
//!
//! `Session` is made by the reader; `first` and `next` answer its problems one after the other, each of the one before it.
#![tactic(auto)]

mod change;
mod session;

pub use change::{Change, Checked, Kept};
pub use session::Session;
