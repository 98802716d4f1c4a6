//! A deque of ids, as its owner has it and as the others do.
ghost use Rattle.std.specs.Prelude.{◌≡◌, ℕ, List, length, ◌++◌, ◌∷◌, ◌<◌, ◌+◌, ◌-◌, ◌≤◌, true, [], IfOk, IfSome, MatchResult, MatchOption};
ghost use Rattle.crossbeam_deque.specs.Handles.{view, IsPassOf, worker_deque, worker_flavor, worker_index, worker_capacity, stealer_deque, stealer_flavor, worker_view};
ghost use Rattle.crossbeam_deque.specs.Steals.{MatchSteal, is_empty};
ghost use Rattle.steal_pool.specs.Law.{owner_view, left_view, thief_view, joined_view, DequeLaw, TakesLeft, NoneLeft};
ghost use Rattle.steal_pool.specs.Count.{no_part};

use crate::count::CountSeat;
use crate::rule::{
    DequeRule, DequeView, LastStep, NoLesson, PassPart, PushStep, TakeStep, WholeLesson,
};
use crossbeam_deque::{Pass, Steal, Stealer, Worker};
use std::alloc::{AllocError, Global};

// The room of a new deque.
const ROOM: usize = 256;

/// A deque of one's own, first in, first out.
#[derive(Drop)]
pub struct OwnDeque {
    worker: Worker<u32, Global, DequeView, DequeRule>,
    room: usize,
    ghost fifo: { worker_flavor worker ≡ 0 },
    ghost owns: { (worker_view worker).owns ≡ true },
    ghost some_part: { 0 < (worker_view worker).parts },
    ghost roomy: { room ≤ worker_capacity worker },
    ghost pushed: { worker_index worker ≤ length (worker_view worker).put },
}

/// A deque of a hand of the pool, from which one steals. What it looked at it notes at a seat of the count.
#[derive(Drop)]
pub struct Link {
    stealer: Stealer<u32, Global, DequeView, DequeRule>,
    pass: Pass<u32, DequeView>,
    notes: CountSeat,
    ghost fifo: { stealer_flavor stealer ≡ 0 },
    ghost tied: { IsPassOf (stealer_deque stealer) pass },
    ghost one_part: { (view pass).parts ≡ 1 },
    ghost alone: { (view pass).joined ≡ [] },
}

impl OwnDeque {
    pub fn new(alloc: Global) -> Result<OwnDeque, AllocError>
        ensures view { IfOk result (λ o. worker_view o.worker ≡ owner_view) }
        ensures room { IfOk result (λ o. ROOM ≤ o.room) }
    {
        let worker = Worker::fifo_as(alloc, ROOM)?;
        let room = worker.capacity();
        Ok(OwnDeque { worker, room })
    }

    /// A link to this deque, for another thread.
    pub fn link(&mut self, notes: CountSeat) -> Result<Link, AllocError>
        requires { 1 < (worker_view self.old.worker).parts }
        ensures link { IfOk result (λ l. (stealer_deque l.stealer ≡ worker_deque self.old.worker)
            × (view l.pass ≡ thief_view)) }
        ensures left { IfOk result (λ _.
            worker_view self.new.worker ≡ left_view (worker_view self.old.worker)) }
        ensures same { IfOk result (λ _.
            worker_deque self.new.worker ≡ worker_deque self.old.worker) }
        ensures room { IfOk result (λ _. self.new.room ≡ self.old.room) }
    {
        let stealer = self.worker.stealer()?;
        let pass = self.worker.another::<PassPart>();
        Ok(Link {
            stealer,
            pass,
            notes,
        })
    }

    /// Adds an id at the back. It comes back only once as many were added as there was room for.
    pub fn push(&mut self, id: u32) -> Result<(), u32>
        ensures pushed { let v = worker_view self.old.worker in
            MatchResult result
            (λ _. worker_view self.new.worker ≡ record v { put = v.put ++ id ∷ [] })
            (λ x. (x ≡ id) × (worker_view self.new.worker ≡ v) × (self.old.room ≤ length v.put)) }
        ensures same { worker_deque self.new.worker ≡ worker_deque self.old.worker }
        ensures room { self.new.room ≡ self.old.room }
    {
        self.worker.push_as::<PushStep>(id)
    }

    /// Takes the first id.
    pub fn take(&mut self) -> Option<u32>
        ensures taken { let v = worker_view self.old.worker in
            MatchOption result
            (worker_view self.new.worker ≡ v)
            (λ x. worker_view self.new.worker ≡ record v { taken = v.taken ++ x ∷ [] }) }
        ensures same { worker_deque self.new.worker ≡ worker_deque self.old.worker }
        ensures room { self.new.room ≡ self.old.room }
    {
        self.worker.pop_as::<TakeStep>()
    }

    /// Whether the deque looks empty just now.
    pub fn looks_empty(&mut self) -> bool
        ensures view { worker_view self.new.worker ≡ worker_view self.old.worker }
        ensures same { worker_deque self.new.worker ≡ worker_deque self.old.worker }
        ensures room { self.new.room ≡ self.old.room }
    {
        self.worker.len_as::<NoLesson>() == 0
    }

    /// Takes in what another hand had taken.
    pub fn absorb(&mut self, link: Link)
        requires { stealer_deque link.stealer ≡ worker_deque self.old.worker }
        ensures view { let v = worker_view self.old.worker in
            worker_view self.new.worker ≡ joined_view v (view link.pass) }
        ensures same { worker_deque self.new.worker ≡ worker_deque self.old.worker }
    {
        let Link {
            stealer: _,
            pass,
            notes: _,
        } = link;
        self.worker.absorb::<PassPart>(pass);
    }

    /// Learns the law of this deque, where all parts are back.
    pub fn settle(&mut self)
        requires { (worker_view self.old.worker).parts ≡ 65 }
        ensures view { worker_view self.new.worker ≡ worker_view self.old.worker }
        ensures same { worker_deque self.new.worker ≡ worker_deque self.old.worker }
        ensures law { let v = worker_view self.old.worker in
            (items : List ℕ) × DequeLaw v.put v.taken v.joined items }
    {
        self.worker.len_as::<WholeLesson>();
    }

    /// Takes the first of the ids that are left, where all parts are back.
    pub fn take_left(&mut self) -> Option<u32>
        requires { (worker_view self.old.worker).parts ≡ 65 }
        ensures taken { let v = worker_view self.old.worker in
            MatchOption result
            ((worker_view self.new.worker ≡ v) × NoneLeft v)
            (λ x. TakesLeft v (x ∷ []) (worker_view self.new.worker)) }
        ensures same { worker_deque self.new.worker ≡ worker_deque self.old.worker }
    {
        self.worker.pop_as::<LastStep>()
    }
}

impl Link {
    /// Steals the first id. Each call is a look.
    pub fn steal(&mut self) -> Steal<u32>
        ensures same { stealer_deque self.new.stealer ≡ stealer_deque self.old.stealer }
        ensures taken { let v = view self.old.pass in
            MatchSteal result
            (view self.new.pass ≡ v)
            (view self.new.pass ≡ v)
            (λ x. view self.new.pass ≡ record v { taken = v.taken ++ x ∷ [] }) }
        ensures look { let n = self.old.notes.seat.me.0 in
            self.new.notes.seat.me.0
            ≡ record n { looks = n.looks + 1; found_empty = is_empty result } }
    {
        let found = self.stealer.steal_as::<TakeStep>(&mut self.pass);
        self.notes.note_look(matches!(found, Steal::Empty));
        found
    }
}
