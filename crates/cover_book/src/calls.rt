// Calls and replies as data.
use crate::refusal::{BookRefusal, Kids};
use cover_data::{ClosedPatch, KeptPatch, Lemma, Point, State};

/// A call on a book.
#[derive(Drop)]
pub enum Call {
    Commit(u32, KeptPatch),
    Learn(ClosedPatch),
    Find(u32, Point),
    StateOf(u32),
    LemmasFrom(u32),
}

/// What a book replies.
#[derive(Drop)]
pub enum Reply {
    Committed(Kids),
    Learned(u32),
    Found,
    LiveState(State),
    Lemmas(Vec<Lemma>),
    Refused(BookRefusal),
}
