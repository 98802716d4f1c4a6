//! The edge to real files and to people.
//!
//! `FileDesk` is the desk over files and standard streams, `words_of` the words of a call. `Messages` is what standard error
//! says of a run without an answer, `Unfinished` of a certificate that leaves boxes, and `Ticker` says when a line of
//! progress is due. No clause says what a file holds, or what standard error shows.
#![tactic(auto)]

mod decimals;
mod draft;
mod files;
mod hints;
mod left;
mod messages;
mod outputs;
mod parts;
mod portion;
mod reading;
mod share;
mod ticker;
mod unfinished;
mod words;

pub use files::{FileDesk, Trouble};
pub use messages::{Messages, printable};
pub use outputs::{is_same_file, try_to_write};
pub use portion::percent;
pub use share::Share;
pub use ticker::Ticker;
pub use unfinished::Unfinished;
pub use words::words_of;
