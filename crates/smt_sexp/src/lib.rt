//! The tokens and the expressions of a script's text (SMT-LIB 2.6, sections 3.1 and 3.2).
//!
//! `read` answers the expressions of a text, or its first fault. It knows no commands, but for the `(exit)` that ends
//! a text. `Writer` makes expressions that no text shows.
#![tactic(auto)]

mod building;
mod bytes;
mod leaf;
mod reading;
mod sexps;
mod tokens;
mod words;
mod writing;

pub use leaf::{Leaf, Reserved};
pub use reading::read;
pub use sexps::{Seen, Sexps};
pub use writing::Writer;
