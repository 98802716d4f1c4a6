// States of a cover.
ghost use Rattle.std.specs.Prelude.{◌≡◌, ◌<◌, ◌↔◌, length, IfOk, IsTrue, true, false, slice_set};
ghost use Rattle.ival.specs.SpaceViews.{space_of, domain_of};
ghost use Rattle.interval_model.specs.Space.{Space as Domains, test_axis, strictly_inside, is_undecided, lower_part, upper_part, keep, space_within};
ghost use Rattle.dyadic.specs.Views.{dyadic_of};
ghost use Rattle.poly_graph.specs.MarkViews.{mark_of};
ghost use Rattle.cover_model.specs.State.{in_yes, in_no, undecided, with_mark, with_space, covers, state_of};
ghost use Rattle.poly_graph.specs.Marks.{marks_within};
ghost use Rattle.cover_model.specs.Rules.{with_changed};

use crate::has_marks::has_marks;
use dyadic::Dy;
use ival::{Domain, Space};
use poly_graph::{Lits, Mark};
use std::alloc::{AllocError, Global};
use std::marker::Model;

/// A space with a mark for each atom. It stands for the points of the space at which each atom marked yes holds
/// at the margin, and none marked no does.
#[derive(Drop)]
pub struct State {
    space: Space,
    lits: Lits,
}

impl Model for State {
    ghost use Rattle.cover_model.specs.State as cover;
    ghost use Rattle.ival.specs.SpaceViews.{space_of};
    ghost use Rattle.cover_model.specs.State.{state_of};

    ghost Value = { cover.State };

    ghost view = { λ s. state_of (space_of s.space) s.lits };
}

impl State {
    /// The state of this space and these marks.
    pub fn new(space: Space, lits: Lits) -> State
        ensures { result ≡ state_of (space_of space) lits }
    {
        State { space, lits }
    }

    /// Its space.
    pub fn space(&self) -> &Space
        ensures { space_of result.now ≡ self.now.space }
    {
        &self.space
    }

    /// Its marks, by atom.
    pub fn lits(&self) -> &Lits
        ensures { result.now ≡ self.now.marks }
    {
        &self.lits
    }

    /// Its space and its marks.
    pub fn into_parts(self) -> (Space, Lits)
        ensures space { space_of result.0 ≡ self.space }
        ensures marks { result.1 ≡ self.marks }
    {
        let State { space, lits } = self;
        (space, lits)
    }

    /// The same state in memory of its own.
    pub fn try_clone(&self, alloc: Global) -> Result<State, AllocError>
        ensures { IfOk result (λ s. s ≡ self.now) }
    {
        let space = self.space.try_clone(alloc)?;
        let lits = self.lits.try_clone(alloc)?;
        Ok(State { space, lits })
    }

    /// Whether atom j is marked yes.
    pub fn is_yes(&self, j: u32) -> bool
        requires { j < length self.now.marks }
        ensures { result ≡ in_yes self.now j }
    {
        match self.lits.mark(j) {
            Mark::Yes => true,
            Mark::No => false,
            Mark::Neither => false,
        }
    }

    /// Whether atom j is marked no.
    pub fn is_no(&self, j: u32) -> bool
        requires { j < length self.now.marks }
        ensures { result ≡ in_no self.now j }
    {
        match self.lits.mark(j) {
            Mark::Yes => false,
            Mark::No => true,
            Mark::Neither => false,
        }
    }

    /// Whether atom j is not marked.
    pub fn is_undecided(&self, j: u32) -> bool
        requires { j < length self.now.marks }
        ensures { result ≡ undecided self.now j }
    {
        match self.lits.mark(j) {
            Mark::Yes => false,
            Mark::No => false,
            Mark::Neither => true,
        }
    }

    /// Marks atom j.
    pub fn set_mark(&mut self, j: u32, mark: Mark)
        requires { j < length self.old.marks }
        ensures { self.new ≡ with_mark self.old j (mark_of mark) }
    {
        self.lits.set(j, mark);
    }

    /// Leaves this to the axis.
    pub fn set_axis(&mut self, axis: usize, domain: Domain)
        requires { axis < length self.old.space }
        ensures { self.new ≡
            with_space self.old (slice_set self.old.space axis (domain_of domain)) }
    {
        self.space.set(axis, domain);
    }

    /// Leaves to a Real axis its numbers up to `cut`, which lies strictly between its ends.
    pub fn keep_low(&mut self, axis: usize, cut: Dy)
        requires { IsTrue (test_axis (strictly_inside (dyadic_of cut)) axis self.old.space) }
        ensures { self.new ≡ with_changed self.old (lower_part (dyadic_of cut)) axis }
    {
        self.space.keep_low(axis, cut);
    }

    /// Leaves to a Real axis its numbers from `cut` on, which lies strictly between its ends.
    pub fn keep_high(&mut self, axis: usize, cut: Dy)
        requires { IsTrue (test_axis (strictly_inside (dyadic_of cut)) axis self.old.space) }
        ensures { self.new ≡ with_changed self.old (upper_part (dyadic_of cut)) axis }
    {
        self.space.keep_high(axis, cut);
    }

    /// Leaves to an undecided Bool axis this value alone.
    pub fn keep_bool(&mut self, axis: usize, value: bool)
        requires { IsTrue (test_axis is_undecided axis self.old.space) }
        ensures { self.new ≡ with_changed self.old (keep value) axis }
    {
        self.space.keep_bool(axis, value);
    }

    /// Whether each point of the other state, which is one of the same problem, is one of this: its space lies
    /// within this one's, and it has all its marks.
    pub fn covers(&self, other: &State) -> bool
        requires axes { length self.now.space ≡ length other.now.space }
        requires atoms { length self.now.marks ≡ length other.now.marks }
        ensures { result ≡ covers self.now other.now }
    {
        other.space.within(&self.space) && has_marks(self.lits.marks(), other.lits.marks())
    }

    /// Whether the two states are the same.
    pub fn is_same(&self, other: &State) -> bool
        ensures { IsTrue result ↔ (self.now ≡ other.now) }
    {
        if self.space.len() != other.space.len() || self.lits.len() != other.lits.len() {
            return false;
        }
        self.covers(other) && other.covers(self)
    }
}
