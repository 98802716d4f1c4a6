// The two states that a branch leaves.
ghost use Rattle.std.specs.Prelude.{◌≡◌, IfOk, IfSome, IfNone, IsTrue, true, false, Some, None};
ghost use Rattle.interval_model.specs.Space.{test_axis, strictly_inside, is_undecided, lower_part, upper_part, keep};
ghost use Rattle.dyadic.specs.Views.{dyadic_of};
ghost use Rattle.cover_model.specs.State.{undecided, with_yes, with_no};
ghost use Rattle.cover_line.specs.Views.{branching_of};
ghost use Rattle.cover_model.specs.Rules.{are_undecided, can_part, first_child, second_child, with_all_yes, with_changed};
ghost use Rattle.cover_data.specs.Runs.{CanPart, kids_of};
ghost use Rattle.cover_data.specs.Views.{kept_of};

use crate::kept::KeptPatch;
use crate::state::State;
use crate::step::End;
use cover_line::Branching;
use dyadic::Dy;
use poly_graph::Mark;
use std::alloc::{AllocError, Global};

// The lower part of a Real axis, then its upper part.
fn cut(alloc: Global, state: &State, axis: u32, at: Dy) -> Result<(State, State), AllocError>
    requires { IsTrue (test_axis (strictly_inside (dyadic_of at)) axis state.now.space) }
    ensures first { IfOk result (λ p.
        p.0 ≡ with_changed state.now (lower_part (dyadic_of at)) axis) }
    ensures second { IfOk result (λ p.
        p.1 ≡ with_changed state.now (upper_part (dyadic_of at)) axis) }
{
    let mut low = state.try_clone(alloc)?;
    let mut high = state.try_clone(alloc)?;
    low.keep_low(axis as usize, at);
    high.keep_high(axis as usize, at);
    Ok((low, high))
}

// A Bool axis false, then true.
fn flipped(alloc: Global, state: &State, axis: u32) -> Result<(State, State), AllocError>
    requires { IsTrue (test_axis is_undecided axis state.now.space) }
    ensures first { IfOk result (λ p. p.0 ≡ with_changed state.now (keep false) axis) }
    ensures second { IfOk result (λ p. p.1 ≡ with_changed state.now (keep true) axis) }
{
    let mut low = state.try_clone(alloc)?;
    let mut high = state.try_clone(alloc)?;
    low.keep_bool(axis as usize, false);
    high.keep_bool(axis as usize, true);
    Ok((low, high))
}

// An atom marked yes, then no.
fn cases(alloc: Global, state: &State, j: u32) -> Result<(State, State), AllocError>
    requires { IsTrue (undecided state.now j) }
    ensures first { IfOk result (λ p. p.0 ≡ with_yes state.now j) }
    ensures second { IfOk result (λ p. p.1 ≡ with_no state.now j) }
{
    let mut yes = state.try_clone(alloc)?;
    let mut no = state.try_clone(alloc)?;
    yes.set_mark(j, Mark::Yes);
    no.set_mark(j, Mark::No);
    Ok((yes, no))
}

// Marks these atoms yes.
#[tactic(auto, using(crate::proofs::Groups::group_below, crate::proofs::Groups::yes_next, crate::proofs::Groups::yes_done))]
fn mark_yes(state: &mut State, group: &[u32])
    requires { IsTrue (are_undecided state.old group.now) }
    ensures { state.new ≡ with_all_yes state.old group.now }
{
    for j in group {
        state.set_mark(*j, Mark::Yes);
    }
}

// The atoms of the first group marked yes, then those of the second.
fn groups(
    alloc: Global,
    state: &State,
    first: &[u32],
    second: &[u32],
) -> Result<(State, State), AllocError>
    requires first { IsTrue (are_undecided state.now first.now) }
    requires second { IsTrue (are_undecided state.now second.now) }
    ensures first { IfOk result (λ p. p.0 ≡ with_all_yes state.now first.now) }
    ensures second { IfOk result (λ p. p.1 ≡ with_all_yes state.now second.now) }
{
    let mut one = state.try_clone(alloc)?;
    let mut other = state.try_clone(alloc)?;
    mark_yes(&mut one, first);
    mark_yes(&mut other, second);
    Ok((one, other))
}

// The two states that a branch leaves.
fn parts(alloc: Global, state: &State, branching: &Branching) -> Result<(State, State), AllocError>
    requires { IsTrue (can_part state.now (branching_of branching.now)) }
    ensures first { IfOk result (λ p. p.0 ≡ first_child state.now (branching_of branching.now)) }
    ensures second { IfOk result (λ p. p.1 ≡ second_child state.now (branching_of branching.now)) }
{
    match branching {
        Branching::Cut(axis, at) => cut(alloc, state, *axis, *at),
        Branching::Flip(axis) => flipped(alloc, state, *axis),
        Branching::Case(j) => cases(alloc, state, *j),
        Branching::Either(first, second) => groups(alloc, state, first, second),
    }
}

impl KeptPatch {
    /// The two states that its branch leaves, in memory of their own; none where it did not end in a branch. A
    /// patch's branch always stands where it can.
    pub fn kids(&self, alloc: Global) -> Result<Option<(State, State)>, AllocError>
        requires { IfSome (kept_of self.now).end (λ l. CanPart l self.now.reached) }
        ensures none { IfOk result (λ o. IfNone o (kids_of (kept_of self.now) ≡ None)) }
        ensures two { IfOk result (λ o.
            IfSome o (λ p. kids_of (kept_of self.now) ≡ Some (p.0, p.1))) }
    {
        match &self.end {
            Some(End::Part(branching)) => Ok(Some(parts(alloc, &self.reached, branching)?)),
            Some(End::Close(_)) => Ok(None),
            Some(End::Stuck(_)) => Ok(None),
            None => Ok(None),
        }
    }
}
