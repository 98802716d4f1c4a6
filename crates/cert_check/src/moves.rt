// The rules that leave one state.
ghost use Rattle.std.specs.Prelude.{◌≡◌, ◌<◌, [], length, IfOk};
ghost use Rattle.cover_model.specs.Rules.{unit, ban, can_push, lemma_covers};
ghost use Rattle.cover_model.specs.State.{Loosenings as StateLoosenings};
ghost use Rattle.poly_graph.specs.ProblemViews.{problem_of};
ghost use Rattle.cert_check.specs.States.{state_of, loosenings_of, Fits};
ghost use Rattle.cert_check.specs.Dues.{AllFit};
ghost use Rattle.cert_check.specs.Steps.{IsLeftBy};
ghost use Rattle.cert_check.specs.Serving.{Serves};

use crate::left::Left;
use crate::lemmas::Lemmas;
use crate::loosenings::Loosenings;
use crate::state::State;
use crate::tools::{Tools, is_inequality};
use poly_graph::{Mark, Problem};
use std::alloc::{AllocError, Global};

/// Whether the lines of version 2 are read, and the atom is marked no and is an inequality.
pub fn can_push(problem: &Problem, s: Loosenings, state: &State, j: u32) -> bool
    requires fits { Fits problem.now (state_of state.now) }
    requires atom { j < length problem.now.atoms }
    ensures { result ≡ can_push (problem_of problem.now) (loosenings_of s) (state_of state.now) j }
{
    2 <= s.version && state.in_no(j) && is_inequality(problem, j)
}

/// The atom marked yes, where the form can't hold with the atom marked no.
#[tactic(auto, using(crate::proofs::OneMark::unit_one))]
pub fn unit(
    problem: &Problem,
    tools: &mut Tools,
    s: Loosenings,
    state: State,
    j: u32,
) -> Option<Left>
    requires serves { Serves problem.now tools.old }
    requires fits { Fits problem.now (state_of state) }
    requires atom { j < length problem.now.atoms }
    ensures rule { IsLeftBy (unit j) problem.now (loosenings_of s) [] state result }
    ensures serves { Serves problem.now tools.new }
{
    if !state.undecided(j) {
        return None;
    }
    let mut state = state;
    state.lits.set(j, Mark::No);
    if tools.may(problem, s.margin, &state) {
        return None;
    }
    state.lits.set(j, Mark::Yes);
    Some(Left::One(state))
}

/// Whether the lemma of this number covers the state.
pub fn lemma_covers(
    alloc: Global,
    _problem: &Problem,
    lemmas: &Lemmas,
    i: u32,
    state: &State,
) -> Result<bool, AllocError>
    requires lemmas { AllFit _problem.now lemmas.now }
    requires fits { Fits _problem.now (state_of state.now) }
    ensures { IfOk result (λ t. t ≡ lemma_covers lemmas.now i (state_of state.now)) }
{
    lemmas.covers(alloc, i, state)
}

/// The atom marked no, where the lemma covers the state with the atom marked yes.
#[tactic(auto, using(crate::proofs::OneMark::ban_one))]
pub fn ban(
    alloc: Global,
    problem: &Problem,
    lemmas: &Lemmas,
    state: State,
    j: u32,
    i: u32,
) -> Result<Option<Left>, AllocError>
    requires lemmas { AllFit problem.now lemmas.now }
    requires fits { Fits problem.now (state_of state) }
    requires atom { j < length problem.now.atoms }
    ensures { (s : StateLoosenings) →
        IfOk result (IsLeftBy (ban j i) problem.now s lemmas.now state) }
{
    if !state.undecided(j) {
        return Ok(None);
    }
    let mut state = state;
    state.lits.set(j, Mark::Yes);
    if !lemma_covers(alloc, problem, lemmas, i, &state)? {
        return Ok(None);
    }
    state.lits.set(j, Mark::No);
    Ok(Some(Left::One(state)))
}
