//! A book that threads share. Its calls are those of `cover_book`, answered one at a time under a lock: each reply
//! is the one that the book gives at that place of one history, of which every seat has seen a beginning. The main calls
//! are `SharedBook::share`, `commit` and `close`. The lock itself serves any object of one thread whose calls and replies
//! are data (`Object`). It works on no box, starts no thread, and says nothing of how long a call waits.
#![tactic(auto)]

mod calls;
mod impls;
pub mod laws;
mod lock;
mod object;
mod plays;
mod seat;
mod shared;
mod views;

pub use lock::SharedObject;
pub use object::Object;
pub use seat::ObjectSeat;
pub use shared::{BookSeat, SharedBook};
pub use views::{Entry, JoinedSeat, LockKey, LockRule, SeatView, Stage, TableSeat};
