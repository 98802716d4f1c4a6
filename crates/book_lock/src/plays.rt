// What each step on the table tells.
ghost use Rattle.std.specs.Prelude.{None, Option};
ghost use Rattle.book_lock.specs.SlotSteps.{take_step, end_step, number_step, match_step};

use crate::object::Object;
use crate::views::SeatView;
use atomic_table::{Join, Play, Split};
use std::marker::{Brand, PhantomData};

pub(crate) struct TurnTake;

impl<O: Object<C, R>, C, R> Play<Option<O>, SeatView<O, C, R>> for TurnTake {
    ghost then = { take_step O.meets O.steps };
}

/// What a turn adds to the history, for the proof alone. A call at `Brand` picks it from its arguments.
pub(crate) trait EndedCall<C, R> {
    ghost call: { Option C };

    ghost reply: { Option R };
}

impl<C, R> EndedCall<C, R> for Brand {
    ghost call = { None };

    ghost reply = { None };
}

pub(crate) struct TurnEnd<J> {
    said: PhantomData<J>,
}

impl<O: Object<C, R>, C, R, J: EndedCall<C, R>> Play<Option<O>, SeatView<O, C, R>> for TurnEnd<J> {
    ghost then = { end_step O.meets O.steps J.call J.reply };
}

pub(crate) struct SeatNumber;

impl<O, C, R> Play<Option<O>, SeatView<O, C, R>> for SeatNumber {
    ghost then = { number_step };
}

pub(crate) struct HistoryMatch;

impl<O, C, R> Play<Option<O>, SeatView<O, C, R>> for HistoryMatch {
    ghost then = { match_step };
}

pub(crate) struct SeatSplit;

impl<O, C, R> Split<SeatView<O, C, R>> for SeatSplit {
    ghost use Rattle.book_lock.specs.Rule.{left_view, new_view};

    ghost left = { left_view };

    ghost right = { new_view };
}

pub(crate) struct SeatJoin;

impl<O, C, R> Join<SeatView<O, C, R>> for SeatJoin {
    ghost use Rattle.book_lock.specs.Rule.{joined_view, spent_view};

    ghost both = { joined_view };

    ghost spent = { spent_view };
}
