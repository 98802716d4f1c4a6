// A lock over a table.
ghost use Rattle.std.specs.Prelude.{◌≡◌, ◌<◌, true, [], ◌∷◌, Some, None, IfOk, IfErr, MatchBool};
ghost use mathlib.Core.List.{IsPrefix};
ghost use Rattle.book_lock.specs.declared.views.Stage.TheVariants.{Idle, Turn};
ghost use Rattle.book_lock.specs.Rest.{IsAtRest, HasEmptySlot, IsSameSeat};
ghost use Rattle.book_lock.specs.Rule.{IsClosing, first_view, left_view, new_view, longer, shorter, matched_view};
ghost use Rattle.book_lock.specs.SlotSteps.{IsInSlot, IsCallOf, IsNumbered, IsTurnOf, MayAnswer};

use crate::object::Object;
use crate::plays::{EndedCall, HistoryMatch, SeatJoin, SeatNumber, SeatSplit, TurnEnd, TurnTake};
use crate::views::{LockKey, LockRule, SeatView, TableSeat};
use atomic_table::{Refused, Table};
use crossbeam_utils::Backoff;
use std::alloc::Global;
use std::marker::Brand;
use std::snapshot::Snapshot;
use std::sync::Wait;
use std::time::Duration;

// What the word says: no seat has the turn; one has it; one has it, and others may sleep until it ends.
const FREE: u64 = 0;

const TAKEN: u64 = 1;

const AWAITED: u64 = 2;

// So many looks at most before a seat that waits sleeps.
const LOOKS: u32 = 11;

// The first sleep, and the longest, in microseconds. The end of a turn ends a sleep before.
const SHORTEST: u64 = 64;

const LONGEST: u64 = 4096;

/// An object under a lock: a table of one word, which says whether a seat has the turn, and one slot, in which the object
/// lies while none has it. Any seat takes a turn that is free.
#[derive(Drop)]
pub struct SharedObject<O: Object<C, R>, C, R> {
    pub table: Table<Option<O>, SeatView<O, C, R>, LockKey<O>, LockRule<C, R>, Global>,
    ghost sized: { (table.shared.table_id.words ≡ 1) × (table.shared.table_id.slots ≡ 1) },
}

impl<O: Object<C, R>, C, R> SharedObject<O, C, R> {
    /// Shares an object in so many parts, all of which the seat has. Without memory the object comes back.
    pub fn share(
        alloc: Global,
        object: O,
        parts: u32,
    ) -> Result<(SharedObject<O, C, R>, TableSeat<O, C, R>), O>
        requires { 0 < parts }
        ensures own { IfOk result (λ t. t.1.table_id ≡ t.0.table.shared.table_id) }
        ensures seat { IfOk result (λ t. t.1.me ≡ (first_view object parts, [])) }
        ensures first { IfOk result (λ t. t.0.table.shared.key.first.value ≡ object) }
        ensures parts { IfOk result (λ t. t.0.table.shared.key.parts ≡ parts) }
        ensures err { IfErr result (λ o. o ≡ object) }
    {
        let key = LockKey {
            first: Snapshot::of(&object),
            parts: u64::from(parts),
        };
        let Ok(mut slots) = Vec::with_capacity(alloc, 1) else {
            return Err(object);
        };
        slots.push_reserved(Some(object));
        match Table::new(alloc, &[FREE], slots, &key) {
            Ok((table, seat)) => Ok((SharedObject { table }, seat)),
            Err(refused) => {
                let Refused { mut slots } = refused;
                let Some(object) = slots.pop() else {
                    unreachable!()
                };
                slots.destroy_empty();
                match object {
                    Some(object) => Err(object),
                    None => unreachable!(),
                }
            }
        }
    }

    // Takes the turn if it is free, and says whether it was.
    fn try_enter(&self, seat: &mut TableSeat<O, C, R>) -> bool
        requires own { seat.old.table_id ≡ self.now.table.shared.table_id }
        requires rest { IsAtRest seat.old.me }
        ensures same { IsSameSeat seat.old seat.new }
        ensures turn { MatchBool result
            (IsTurnOf O.meets O.steps seat.old.me seat.new.me)
            (seat.new.me ≡ seat.old.me) }
    {
        self.table
            .shared
            .compare_exchange::<TurnTake>(seat, 0, FREE, TAKEN)
            == FREE
    }

    // The same, and the seat that has the turn is told that others may sleep.
    fn enter_or_ask(&self, seat: &mut TableSeat<O, C, R>) -> bool
        requires own { seat.old.table_id ≡ self.now.table.shared.table_id }
        requires rest { IsAtRest seat.old.me }
        ensures same { IsSameSeat seat.old seat.new }
        ensures turn { MatchBool result
            (IsTurnOf O.meets O.steps seat.old.me seat.new.me)
            (seat.new.me ≡ seat.old.me) }
    {
        self.table.shared.swap::<TurnTake>(seat, 0, AWAITED) == FREE
    }

    // Takes the turn if it is free at one of some looks. Between them the seat spins, and then yields the processor.
    fn enter_soon(&self, seat: &mut TableSeat<O, C, R>) -> bool
        requires own { seat.old.table_id ≡ self.now.table.shared.table_id }
        requires rest { IsAtRest seat.old.me }
        ensures same { IsSameSeat seat.old seat.new }
        ensures turn { MatchBool result
            (IsTurnOf O.meets O.steps seat.old.me seat.new.me)
            (seat.new.me ≡ seat.old.me) }
    {
        let backoff = Backoff::new();
        for _ in 0..LOOKS {
            if self.table.shared.peek(0) == FREE && self.try_enter(seat) {
                return true;
            }
            backoff.snooze();
        }
        false
    }

    // Takes the turn, before long or after sleeps that grow. The end of a turn ends one of them.
    fn enter<W: Wait>(&self, rt: &W, seat: &mut TableSeat<O, C, R>)
        requires own { seat.old.table_id ≡ self.now.table.shared.table_id }
        requires rest { IsAtRest seat.old.me }
        ensures same { IsSameSeat seat.old seat.new }
        ensures turn { IsTurnOf O.meets O.steps seat.old.me seat.new.me }
    {
        if self.try_enter(seat) || self.enter_soon(seat) {
            return;
        }
        let mut micros = SHORTEST;
        for _ in rt.forever() {
            if self.enter_or_ask(seat) {
                return;
            }
            let time = Duration::from_micros(micros);
            self.table.shared.park_timeout(rt, 0, AWAITED as u32, time);
            micros = micros.saturating_mul(2).min(LONGEST);
        }
        unreachable!()
    }

    // The object, out of the slot that the seat has.
    fn take(&self, seat: &mut TableSeat<O, C, R>) -> O
        requires own { seat.old.table_id ≡ self.now.table.shared.table_id }
        requires slot { (b : O) × IsInSlot seat.old.me b }
        ensures same { IsSameSeat seat.old seat.new }
        ensures view { seat.new.me.0 ≡ seat.old.me.0 }
        ensures empty { seat.new.me.1 ≡ (0, None) ∷ [] }
        ensures object { IsInSlot seat.old.me result }
    {
        match self.table.shared.exchange(seat, 0, None) {
            Some(object) => object,
            None => unreachable!(),
        }
    }

    // Ends a sleep if the word before the turn's end said that a seat may sleep.
    fn wake(&self, before: u64) {
        if before == AWAITED {
            self.table.shared.wake_one(0);
        }
    }

    // Puts the object back and ends the turn, by which the call joins the history.
    fn leave<J: EndedCall<C, R>>(
        &self,
        seat: &mut TableSeat<O, C, R>,
        object: O,
        said: Snapshot<C>,
        reply: &R,
    )
        requires own { seat.old.table_id ≡ self.now.table.shared.table_id }
        requires turn { HasEmptySlot seat.old.me }
        requires made { MayAnswer O.meets O.steps seat.old.me.0.stage said.value reply.now object }
        requires call { J.call ≡ Some said.value }
        requires reply { J.reply ≡ Some reply.now }
        ensures same { IsSameSeat seat.old seat.new }
        ensures slots { seat.new.me.1 ≡ [] }
        ensures call { IsCallOf O.meets O.steps seat.old.me.0 said.value reply.now seat.new.me.0 }
    {
        match self.table.shared.exchange(seat, 0, Some(object)) {
            Some(_) => unreachable!(),
            None => {}
        }
        let before = self.table.shared.swap::<TurnEnd<J>>(seat, 0, FREE);
        self.wake(before);
    }

    /// Makes one call, when the seat has the turn.
    pub fn call<W: Wait>(&self, rt: &W, seat: &mut TableSeat<O, C, R>, call: C) -> R
        requires own { seat.old.table_id ≡ self.now.table.shared.table_id }
        requires origin { seat.old.me.0.origin ≡ Some self.now.table.shared.key.first.value }
        requires rest { IsAtRest seat.old.me }
        requires meets { O.meets self.now.table.shared.key.first.value call }
        ensures same { IsSameSeat seat.old seat.new }
        ensures slots { seat.new.me.1 ≡ [] }
        ensures call { IsCallOf O.meets O.steps seat.old.me.0 call result seat.new.me.0 }
    {
        self.enter(rt, seat);
        let mut object = self.take(seat);
        let said = Snapshot::of(&call);
        let reply = object.run(call);
        self.leave::<Brand>(seat, object, said, &reply);
        reply
    }

    /// A new seat with one part of this one's: it has seen as much, and has made no calls.
    pub fn split_seat(&self, seat: &mut TableSeat<O, C, R>) -> TableSeat<O, C, R>
        requires own { seat.old.table_id ≡ self.now.table.shared.table_id }
        requires parts { 1 < seat.old.me.0.parts }
        requires named { seat.old.me.0.named ≡ true }
        ensures same { seat.new.table_id ≡ seat.old.table_id }
        ensures left { seat.new.me ≡ (left_view seat.old.me.0, seat.old.me.1) }
        ensures own { result.table_id ≡ seat.old.table_id }
        ensures slots { result.me.1 ≡ [] }
        ensures new { IsNumbered (new_view seat.old.me.0) result.me.0 }
    {
        let mut new = self.table.shared.split_seat::<SeatSplit>(seat);
        self.table.shared.load::<SeatNumber>(&mut new, 0);
        new
    }

    /// Joins another seat into this one, with its parts. Of the two histories that were seen the longer stays; the other
    /// is a beginning of it.
    pub fn join_seat(&self, seat: &mut TableSeat<O, C, R>, other: TableSeat<O, C, R>)
        requires own { seat.old.table_id ≡ self.now.table.shared.table_id }
        requires own_other { other.table_id ≡ self.now.table.shared.table_id }
        requires parts { 0 < seat.old.me.0.parts }
        requires named { seat.old.me.0.named ≡ true }
        requires rest { IsAtRest other.me }
        ensures same { IsSameSeat seat.old seat.new }
        ensures slots { seat.new.me.1 ≡ seat.old.me.1 }
        ensures joined { seat.new.me.0 ≡ matched_view seat.old.me.0 other.me.0 }
        ensures prefix { IsPrefix (shorter seat.old.me.0.seen other.me.0.seen) seat.new.me.0.seen }
    {
        self.table.shared.join_seat::<SeatJoin>(seat, other);
        self.table.shared.load::<HistoryMatch>(seat, 0);
    }

    /// The object at the end, for the seat that has every part.
    pub fn close(self, seat: TableSeat<O, C, R>) -> O
        requires own { seat.table_id ≡ self.table.shared.table_id }
        requires rest { IsAtRest seat.me }
        requires whole { seat.me.0.parts ≡ self.table.shared.key.parts }
        ensures { IsClosing O.meets O.steps self.table.shared.key.first.value seat.me.0 result }
    {
        let SharedObject { table } = self;
        let mut closed = table.close_with(seat);
        let object = closed.take(0);
        closed.free();
        match object {
            Some(object) => object,
            None => unreachable!(),
        }
    }
}
