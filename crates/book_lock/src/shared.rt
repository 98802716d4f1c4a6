// A book that threads share.
use crate::lock::SharedObject;
use crate::seat::ObjectSeat;
use cover_book::{Book, Call, Reply};

/// What one thread knows of a shared book, and its leave to call it. It has no bytes.
pub type BookSeat = ObjectSeat<Book, Call, Reply>;

/// A book under a lock. Its calls answer as `Book` does, each at its place in one history.
#[derive(Drop)]
pub struct SharedBook {
    pub(crate) lock: SharedObject<Book, Call, Reply>,
}
