//! The lines of a certificate: what they say, and a reader that takes the bytes in any pieces.
#![tactic(auto)]

mod fault;
mod groups;
mod keyword;
mod line;
mod number;
mod parse;
mod place;
mod reader;
mod squares;
mod words;

pub use fault::LineFault;
pub use line::{BoolSet, Line};
pub use reader::LineReader;
