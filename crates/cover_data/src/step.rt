// The lines of a patch by shape: its steps and its end.
ghost use Rattle.std.specs.Prelude.{◌≡◌, IfOk};
ghost use Rattle.cover_data.specs.Views.{closing_of, end_line, narrowing_of, step_line};
ghost use Rattle.cover_line.specs.Views.{branching_of};

use crate::combination::Combination;
use crate::squares::Squares;
use cover_line::{Branching, Marking};
use std::alloc::{AllocError, Global};

/// What makes the box smaller. Numbers are those of atoms.
#[derive(Drop, PartialEq, Eq, Debug)]
pub enum Narrowing {
    /// The range of an atom that holds.
    Pull(u32),
    /// The off-range of an atom that fails.
    Push(u32),
    /// A combination of atoms, each with its multiplier.
    Combine(Combination),
}

impl Narrowing {
    /// The same narrowing in memory of its own.
    pub fn try_clone(&self, alloc: Global) -> Result<Narrowing, AllocError>
        ensures { IfOk result (λ n. narrowing_of n ≡ narrowing_of self.now) }
    {
        match self {
            Narrowing::Pull(j) => Ok(Narrowing::Pull(*j)),
            Narrowing::Push(j) => Ok(Narrowing::Push(*j)),
            Narrowing::Combine(combination) => {
                Ok(Narrowing::Combine(combination.try_clone(alloc)?))
            }
        }
    }
}

/// A step, which leaves one state.
#[derive(Drop, PartialEq, Eq, Debug)]
pub enum Step {
    /// With a smaller box.
    Narrow(Narrowing),
    /// With a mark more.
    Mark(Marking),
}

impl Step {
    /// The same step in memory of its own.
    pub fn try_clone(&self, alloc: Global) -> Result<Step, AllocError>
        ensures { IfOk result (λ s. step_line s ≡ step_line self.now) }
    {
        match self {
            Step::Narrow(narrowing) => Ok(Step::Narrow(narrowing.try_clone(alloc)?)),
            Step::Mark(marking) => Ok(Step::Mark(*marking)),
        }
    }
}

/// What closes the state.
#[derive(Drop, PartialEq, Eq, Debug)]
pub enum Closing {
    /// The narrowing leaves nothing.
    Void(Narrowing),
    /// A combination less sums of squares is above what its atoms allow.
    Squares(Squares),
    /// The form may not hold.
    False,
    /// The lemma of this number covers the state.
    By(u32),
}

impl Closing {
    /// The same in memory of its own.
    pub fn try_clone(&self, alloc: Global) -> Result<Closing, AllocError>
        ensures { IfOk result (λ c. closing_of c ≡ closing_of self.now) }
    {
        match self {
            Closing::Void(narrowing) => Ok(Closing::Void(narrowing.try_clone(alloc)?)),
            Closing::Squares(squares) => Ok(Closing::Squares(squares.try_clone(alloc)?)),
            Closing::False => Ok(Closing::False),
            Closing::By(i) => Ok(Closing::By(*i)),
        }
    }
}

// The same branch in memory of its own.
fn same_branching(alloc: Global, branching: &Branching) -> Result<Branching, AllocError>
    ensures { IfOk result (λ b. branching_of b ≡ branching_of branching.now) }
{
    match branching {
        Branching::Cut(axis, at) => Ok(Branching::Cut(*axis, *at)),
        Branching::Flip(axis) => Ok(Branching::Flip(*axis)),
        Branching::Case(j) => Ok(Branching::Case(*j)),
        Branching::Either(first, second) => {
            let first = Vec::from_slice(alloc, first)?;
            Ok(Branching::Either(first, Vec::from_slice(alloc, second)?))
        }
    }
}

/// An end: it closes the state, parts it in two, or leaves it as a stuck one.
#[derive(Drop, PartialEq, Eq, Debug)]
pub enum End {
    Close(Closing),
    Part(Branching),
    /// With the atom that is not decided.
    Stuck(u32),
}

impl End {
    /// The same end in memory of its own.
    pub fn try_clone(&self, alloc: Global) -> Result<End, AllocError>
        ensures { IfOk result (λ e. end_line e ≡ end_line self.now) }
    {
        match self {
            End::Close(closing) => Ok(End::Close(closing.try_clone(alloc)?)),
            End::Part(branching) => Ok(End::Part(same_branching(alloc, branching)?)),
            End::Stuck(j) => Ok(End::Stuck(*j)),
        }
    }
}
