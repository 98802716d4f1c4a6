//! A shelf of lemmas that threads share: each worker posts what it has learned, and the others read it there, without a
//! lock. Each lemma on it is known to hold for the problem and the margins that the shelf is named for. `LemmaSource` is
//! whatever gives a worker more lemmas; a shelf that is read is one.
#![tactic(auto)]

mod reader;
mod shelf;
mod source;
mod subject;

pub use reader::ShelfReader;
pub use shelf::{Mark, Shelf, Token};
pub use source::LemmaSource;
pub use subject::Subject;
