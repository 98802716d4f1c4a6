//! The count of resting hands, which all hands of a pool share: one word of a table, whose rule says what it counts.
ghost use Rattle.std.specs.Prelude.{◌≡◌, ◌+◌, ◌-◌, ◌<◌, ◌≤◌, [], true, false, IfOk};
ghost use Rattle.std.specs.Arc.{arc_value};
ghost use Rattle.steal_pool.specs.Count.{all_resting, one_resting, one_less, no_part};

use atomic_table::{Play, Seat, Split, Table, TableRule};
use std::alloc::{AllocError, Global};
use std::sync::{Arc, Wait};
use std::time::Duration;

/// What a seat at the count knows. No value of it is made.
pub struct CountView {
    /// Its share of the hands, and how many of them rest.
    pub parts: u64,
    pub resting: u64,
    /// How often it read the count, and what it read last.
    pub reads: u64,
    pub last: u64,
    /// How often its link looked at a deque, and whether the last look found it empty.
    pub looks: u64,
    pub found_empty: bool,
}

/// The rule: the word is the sum of the resting parts.
pub struct RestingSum;

impl TableRule<(), CountView, u64> for RestingSum {
    ghost use Rattle.steal_pool.specs.Count.{CountsResting, all_resting};

    ghost holds = { CountsResting };

    ghost first = { all_resting };
}

/// A part goes to rest.
pub struct RestStep;

impl Play<(), CountView> for RestStep {
    ghost use Rattle.steal_pool.specs.Count.{RestsOneMore};

    ghost then = { RestsOneMore };
}

/// A part wakes.
pub struct WakeStep;

impl Play<(), CountView> for WakeStep {
    ghost use Rattle.steal_pool.specs.Count.{RestsOneLess};

    ghost then = { RestsOneLess };
}

/// The count is read.
pub struct ReadStep;

impl Play<(), CountView> for ReadStep {
    ghost use Rattle.steal_pool.specs.Count.{ReadsCount};

    ghost then = { ReadsCount };
}

/// A look at a deque, which found it empty.
pub struct VainLook;

impl Play<(), CountView> for VainLook {
    ghost use Rattle.std.specs.Prelude.{true};
    ghost use Rattle.steal_pool.specs.Count.{LooksOnce};

    ghost then = { LooksOnce true };
}

/// A look at a deque, which may have found something.
pub struct OtherLook;

impl Play<(), CountView> for OtherLook {
    ghost use Rattle.std.specs.Prelude.{false};
    ghost use Rattle.steal_pool.specs.Count.{LooksOnce};

    ghost then = { LooksOnce false };
}

/// A hand's seat takes a resting part with it.
pub struct HandPart;

impl Split<CountView> for HandPart {
    ghost use Rattle.steal_pool.specs.Count.{one_less, one_resting};

    ghost left = { one_less };

    ghost right = { λ _. one_resting };
}

/// A link's seat takes no part.
pub struct LinkPart;

impl Split<CountView> for LinkPart {
    ghost use Rattle.steal_pool.specs.Count.{no_part};

    ghost left = { λ v. v };

    ghost right = { λ _. no_part };
}

type Board = Table<(), CountView, u64, RestingSum, Global>;

/// A seat at the count.
#[derive(Drop)]
pub struct CountSeat {
    board: Arc<Board>,
    pub seat: Seat<(), CountView>,
    ghost sized: { (arc_value board).shared.table_id.words ≡ 1 },
    ghost tied: { seat.table_id ≡ (arc_value board).shared.table_id },
    ghost empty: { seat.me.1 ≡ [] },
}

impl CountSeat {
    /// A count of `parts` hands, all at rest, and the seat that has all parts.
    pub fn new(alloc: Global, parts: u64) -> Result<CountSeat, AllocError>
        requires { (0 < parts) × (parts ≤ 64) }
        ensures { IfOk result (λ r. r.seat.me.0 ≡ all_resting parts) }
    {
        let (table, seat) = Board::of_words(alloc, &[parts], &parts)?;
        let board = Arc::new(alloc, table)?;
        Ok(CountSeat { board, seat })
    }

    /// A seat for a hand, with one part.
    pub fn hand_seat(&mut self) -> Result<CountSeat, AllocError>
        requires { (1 < self.old.seat.me.0.parts) × (0 < self.old.seat.me.0.resting) }
        ensures new { IfOk result (λ r. r.seat.me.0 ≡ one_resting) }
        ensures left { IfOk result (λ _. self.new.seat.me.0 ≡ one_less self.old.seat.me.0) }
    {
        let board = Arc::try_clone(&self.board)?;
        let seat = self.board.shared.split_seat::<HandPart>(&mut self.seat);
        Ok(CountSeat { board, seat })
    }

    /// A seat for a link, without a part.
    pub fn link_seat(&mut self) -> Result<CountSeat, AllocError>
        ensures new { IfOk result (λ r. r.seat.me.0 ≡ no_part) }
        ensures same { self.new.seat.me.0 ≡ self.old.seat.me.0 }
    {
        let board = Arc::try_clone(&self.board)?;
        let seat = self.board.shared.split_seat::<LinkPart>(&mut self.seat);
        Ok(CountSeat { board, seat })
    }

    /// A part goes to rest. How many rest then.
    pub fn rest(&mut self) -> u64
        requires { self.old.seat.me.0.resting < self.old.seat.me.0.parts }
        ensures { let v = self.old.seat.me.0 in
            self.new.seat.me.0 ≡ record v { resting = v.resting + 1 } }
    {
        self.board
            .shared
            .fetch_add::<RestStep>(&mut self.seat, 0, 1)
            + 1
    }

    /// A part wakes.
    pub fn wake(&mut self)
        requires { 0 < self.old.seat.me.0.resting }
        ensures { let v = self.old.seat.me.0 in
            self.new.seat.me.0 ≡ record v { resting = v.resting - 1 } }
    {
        self.board
            .shared
            .fetch_sub::<WakeStep>(&mut self.seat, 0, 1);
    }

    /// How many rest.
    pub fn resting(&mut self) -> u64
        ensures count { result ≤ 64 }
        ensures read { let v = self.old.seat.me.0 in
            self.new.seat.me.0 ≡ record v { reads = v.reads + 1; last = result } }
    {
        self.board.shared.load::<ReadStep>(&mut self.seat, 0)
    }

    /// Notes a look at a deque, and whether it found the deque empty.
    pub fn note_look(&mut self, found_empty: bool)
        ensures { let v = self.old.seat.me.0 in
            self.new.seat.me.0 ≡ record v { looks = v.looks + 1; found_empty = found_empty } }
    {
        if found_empty {
            self.board.shared.load::<VainLook>(&mut self.seat, 0);
        } else {
            self.board.shared.load::<OtherLook>(&mut self.seat, 0);
        }
    }

    /// Sleeps for at most `time`, or until `rouse`, where the count is still `resting`.
    pub fn sleep<R: Wait>(&self, rt: &R, resting: u64, time: Duration)
        requires { resting ≤ 64 }
    {
        self.board.shared.park_timeout(rt, 0, resting as u32, time);
    }

    /// Ends each sleep.
    pub fn rouse(&self) {
        self.board.shared.wake_all(0);
    }
}
