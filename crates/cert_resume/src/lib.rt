//! Certificates that go on from others.
//!
//! Each state of a share that a cover left open or stuck is searched on by a book of its own, which opens in that state
//! with all lemmas so far ([`opened`]); the lines of its tree take the place of the line that left the state, and what it
//! learned follows the lemmas ([`note_book`]). What was made of the lines so far is a [`Going`]; at the end it is
//! [`written`]. The crate searches nothing itself: its caller does, and goes through the lines.
#![tactic(auto)]

mod answer;
mod facts;
mod going;
mod leaf;
mod request;
mod text;

pub use answer::{Cover, Own, Resumed};
pub use facts::is_whole;
pub use going::{Going, begun, note_book};
pub use leaf::{Task, opened};
pub use request::{Request, Share, options_with};
pub use text::written;
