// The rules that leave two states, and those that leave a state as it is.
ghost use Rattle.std.specs.Prelude.{◌≡◌, ◌<◌, [], length, IfOk, IsTrue, ◌&&◌, not};
ghost use Rattle.interval_model.specs.Space.{strictly_inside, is_undecided, test_axis};
ghost use Rattle.dyadic.specs.Views.{dyadic_of};
ghost use Rattle.cert_model.specs.Due.{all_below};
ghost use Rattle.cover_model.specs.Rules.{cut, flip, case, either, stuck, is_stuck_atom};
ghost use Rattle.cover_model.specs.State.{Loosenings as StateLoosenings};
ghost use Rattle.poly_graph.specs.ProblemViews.{Parts, problem_of};
ghost use Rattle.ival.specs.SpaceViews.{domain_of, space_of};
ghost use Rattle.cert_check.specs.States.{state_of, loosenings_of, Fits};
ghost use Rattle.cert_check.specs.Steps.{IsLeftAnywhere, IsLeftBy};
ghost use Rattle.cert_check.specs.Serving.{Serves};

use crate::groups::can_branch;
use crate::left::Left;
use crate::lists::mark_all;
use crate::loosenings::Loosenings;
use crate::state::State;
use crate::tools::Tools;
use dyadic::{Dy, Ext, at_most};
use ival::{Domain, Space, Truths};
use poly_graph::{Mark, Problem};
use std::alloc::{AllocError, Global};

// Whether the number lies strictly between the ends of a Real domain.
fn strictly_inside(cut: Dy, domain: Domain) -> bool
    ensures { result ≡ strictly_inside (dyadic_of cut) (domain_of domain) }
{
    match domain {
        Domain::Real(range) => {
            !at_most(Ext::Fin(cut), Ext::Fin(range.low))
                && !at_most(Ext::Fin(range.high), Ext::Fin(cut))
        }
        Domain::Bool(_) => false,
    }
}

// Whether both truth values are left.
fn is_undecided(domain: Domain) -> bool
    ensures { result ≡ is_undecided (domain_of domain) }
{
    match domain {
        Domain::Real(_) => false,
        Domain::Bool(Truths::Either) => true,
        Domain::Bool(Truths::True) => false,
        Domain::Bool(Truths::False) => false,
    }
}

// Whether the axis may be cut there.
#[tactic(auto, using(crate::proofs::Axes::tested_domain, crate::proofs::Axes::tested_past))]
fn can_cut(space: &Space, axis: u32, cut: Dy) -> bool
    ensures { result ≡ test_axis (strictly_inside (dyadic_of cut)) axis (space_of space.now) }
{
    let axis = axis as usize;
    axis < space.len() && strictly_inside(cut, space.get(axis))
}

// Whether the axis may be split into its truth values.
#[tactic(auto, using(crate::proofs::Axes::tested_domain, crate::proofs::Axes::tested_past))]
fn can_flip(space: &Space, axis: u32) -> bool
    ensures { result ≡ test_axis is_undecided axis (space_of space.now) }
{
    let axis = axis as usize;
    axis < space.len() && is_undecided(space.get(axis))
}

/// The parts below and above a cut of a Real axis.
pub fn cut(alloc: Global, state: State, axis: u32, place: Dy) -> Result<Option<Left>, AllocError>
    ensures { IfOk result (IsLeftAnywhere (cut axis (dyadic_of place)) state) }
{
    if !can_cut(&state.space, axis, place) {
        return Ok(None);
    }
    let mut lower = state;
    let mut upper = lower.try_clone(alloc)?;
    lower.space.keep_low(axis as usize, place);
    upper.space.keep_high(axis as usize, place);
    Ok(Some(Left::Two(lower, upper)))
}

/// A Bool axis at false and at true.
pub fn flip(alloc: Global, state: State, axis: u32) -> Result<Option<Left>, AllocError>
    ensures { IfOk result (IsLeftAnywhere (flip axis) state) }
{
    if !can_flip(&state.space, axis) {
        return Ok(None);
    }
    let mut lower = state;
    let mut upper = lower.try_clone(alloc)?;
    lower.space.keep_bool(axis as usize, false);
    upper.space.keep_bool(axis as usize, true);
    Ok(Some(Left::Two(lower, upper)))
}

/// An atom marked yes and marked no.
pub fn case(alloc: Global, state: State, j: u32) -> Result<Option<Left>, AllocError>
    requires { j < length state.lits }
    ensures { IfOk result (IsLeftAnywhere (case j) state) }
{
    if !state.undecided(j) {
        return Ok(None);
    }
    let mut first = state;
    let mut second = first.try_clone(alloc)?;
    first.lits.set(j, Mark::Yes);
    second.lits.set(j, Mark::No);
    Ok(Some(Left::Two(first, second)))
}

/// All atoms of the first group marked yes, and all of the second, where the form can't hold with one of each marked no.
#[tactic(auto, using(crate::proofs::Grouped::parted_yes, crate::proofs::Grouped::not_parted))]
pub fn either(
    alloc: Global,
    problem: &Problem,
    tools: &mut Tools,
    s: Loosenings,
    state: State,
    first: &[u32],
    second: &[u32],
) -> Result<Option<Left>, AllocError>
    requires serves { Serves problem.now tools.old }
    requires fits { Fits problem.now (state_of state) }
    requires first { IsTrue (all_below (length problem.now.atoms) first.now) }
    requires second { IsTrue (all_below (length problem.now.atoms) second.now) }
    ensures rule { IfOk result (IsLeftBy (either first.now second.now)
        problem.now (loosenings_of s) [] state) }
    ensures serves { Serves problem.now tools.new }
{
    let mut one = state;
    if !can_branch(problem, tools, s, &mut one, first, second) {
        return Ok(None);
    }
    let mut other = one.try_clone(alloc)?;
    mark_all(&mut one.lits, first, Mark::Yes);
    mark_all(&mut other.lits, second, Mark::Yes);
    Ok(Some(Left::Two(one, other)))
}

/// The state as it is, where the atom may hold and does not surely hold.
pub fn stuck(
    problem: &Problem,
    tools: &mut Tools,
    s: Loosenings,
    state: State,
    j: u32,
) -> Option<Left>
    requires serves { Serves problem.now tools.old }
    requires fits { Fits problem.now (state_of state) }
    requires atom { j < length problem.now.atoms }
    ensures rule { IsLeftBy (stuck j) problem.now (loosenings_of s) [] state result }
    ensures serves { Serves problem.now tools.new }
{
    if state.in_no(j) {
        return None;
    }
    if tools.misses(problem, s.margin, j, &state.space) {
        return None;
    }
    if tools.sure_at(problem, s.delta, j, &state.space) {
        return None;
    }
    Some(Left::Stays)
}
