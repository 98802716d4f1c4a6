//! Certificates of books and of points, as text, and the first box in which a book is stuck.
//!
//! Its main calls are [`write_cover`], the lemmas of a book, then its tree, in the form that the checker reads ([`laws`]
//! says what such a text means), and [`write_session`], the books of several checks. The crate checks nothing and writes
//! to no file.
#![tactic(auto)]

mod append;
mod cover;
mod facts;
mod groups;
pub mod keyword;
pub mod laws;
mod line;
mod operands;
mod part;
mod parts;
mod point;
mod session;
mod squares;
mod stuck;
mod walk;

pub use append::{append_counted, append_plain};
pub use cover::{append_body, write_cover};
pub use line::{append_line, append_lower_bound, append_rule};
pub use part::{append_lemmas_of, append_tree_of};
pub use parts::append_header;
pub use point::{append_whole_point, write_point};
pub use session::write_session;
pub use stuck::{StuckBox, first_stuck};
