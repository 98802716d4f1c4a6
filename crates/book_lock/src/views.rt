// What lies in the table of a lock, and what a seat at it knows.
use crate::object::Object;
use atomic_table::{Seat, TableRule};
use std::collections::LinkedList;
use std::marker::PhantomData;
use std::snapshot::Snapshot;

/// A call of the history with its reply, and the number of the seat that made it.
pub struct Entry<C, R> {
    pub seat: u64,
    pub call: C,
    pub reply: R,
}

/// A seat that was joined into another, and its calls.
pub struct JoinedSeat<C, R> {
    pub number: u64,
    pub calls: LinkedList<Entry<C, R>>,
}

/// How far a seat is with a call.
pub enum Stage<O> {
    Idle,
    /// It has the turn, and this is the object as it was taken from the slot.
    Turn(O),
}

/// What a seat knows; no value of it is ever made.
pub struct SeatView<O, C, R> {
    pub stage: Stage<O>,
    /// The object that was shared.
    pub origin: Option<O>,
    /// Where it is false, `number` is still that of the seat that this one was split from.
    pub named: bool,
    pub number: u64,
    pub parts: u64,
    pub seen: LinkedList<Entry<C, R>>,
    pub mine: LinkedList<Entry<C, R>>,
    /// The shorter of two histories that were seen by joined seats, until they are matched.
    pub beside: LinkedList<Entry<C, R>>,
    pub joined: LinkedList<JoinedSeat<C, R>>,
}

/// What the rule reads besides the table: the object that was shared, and in how many parts.
#[derive(Drop)]
pub struct LockKey<O> {
    pub first: Snapshot<O>,
    pub parts: u64,
}

/// The rule of a lock. Its one word is 0 exactly while no seat has the turn.
pub struct LockRule<C, R> {
    of: PhantomData<(C, R)>,
}

impl<O: Object<C, R>, C, R> TableRule<Option<O>, SeatView<O, C, R>, LockKey<O>> for LockRule<C, R> {
    ghost use Rattle.book_lock.specs.Rule.{LockInvariant, first_view};

    ghost holds = { λ key. LockInvariant O.meets O.steps key.first.value key.parts };

    ghost first = { λ key. first_view key.first.value key.parts };
}

/// A seat at the table of a lock.
pub type TableSeat<O, C, R> = Seat<Option<O>, SeatView<O, C, R>>;
