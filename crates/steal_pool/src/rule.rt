//! The rule of one deque, and what its steps tell.
use crossbeam_deque::protocol::{Join, Lesson, Outcome, Protocol, Split};
use std::collections::LinkedList;

/// What a pass of one deque knows. No value of it is made.
pub struct DequeView {
    /// Its share of the right to know the whole.
    pub parts: u64,
    /// It is the owner's, which pushes.
    pub owns: bool,
    pub put: LinkedList<u32>,
    pub taken: LinkedList<u32>,
    /// What the passes that were absorbed had taken.
    pub joined: LinkedList<LinkedList<u32>>,
}

pub struct DequeRule;

impl Protocol<u32, DequeView> for DequeRule {
    ghost use Rattle.steal_pool.specs.Law.{IsAccounted, owner_view, guest_view};

    ghost holds = { IsAccounted };

    ghost first = { owner_view };

    ghost guest = { guest_view };
}

/// The owner adds an id at the back.
pub struct PushStep;

impl Outcome<u32, DequeView> for PushStep {
    ghost use Rattle.std.specs.Prelude.{◌≡◌, ◌++◌};

    ghost then = { λ v xs w. w ≡ record v { put = v.put ++ xs } };
}

/// The first id is taken, or the deque is found empty.
pub struct TakeStep;

impl Outcome<u32, DequeView> for TakeStep {
    ghost use Rattle.std.specs.Prelude.{◌≡◌, ◌++◌};

    ghost then = { λ v xs w. w ≡ record v { taken = v.taken ++ xs } };
}

/// The owner, which knows the whole, takes the first of the ids that are left.
pub struct LastStep;

impl Outcome<u32, DequeView> for LastStep {
    ghost use Rattle.steal_pool.specs.Law.{TakesLeft, NoneLeft};

    ghost then = { TakesLeft };

    ghost empty = { NoneLeft };
}

/// A pass for a link is cut off.
pub struct PassPart;

impl Split<DequeView> for PassPart {
    ghost use Rattle.steal_pool.specs.Law.{left_view, thief_view};

    ghost left = { left_view };

    ghost right = { λ _. thief_view };
}

impl Join<DequeView> for PassPart {
    ghost use Rattle.steal_pool.specs.Law.{joined_view, guest_view};

    ghost both = { joined_view };

    ghost spent = { guest_view };
}

/// What the owner, which knows the whole, learns of what is left.
pub struct WholeLesson;

impl Lesson<u32, DequeView> for WholeLesson {
    ghost use Rattle.steal_pool.specs.Law.{DequeLaw};

    ghost fact = { λ v items. DequeLaw v.put v.taken v.joined items };
}

/// What is learned of the length alone: nothing.
pub struct NoLesson;

impl Lesson<u32, DequeView> for NoLesson {
    ghost use Rattle.std.specs.Prelude.{⊤};

    ghost fact = { λ v items. ⊤ };
}
