// Two groups of atoms of which one holds as a whole. The checker has the same for itself (`cert_check`, groups): the two
// share no code.
ghost use Rattle.std.specs.Prelude.{◌≡◌, ◌*◌, ◌&&◌, nat_le, nat_lt, true};
ghost use Rattle.poly_graph.specs.ProblemViews.{problem_of};
ghost use Rattle.cover_model.specs.Fits.{FitsProblem};
ghost use Rattle.cover_model.specs.Honest.{is_honest, none_misses};
ghost use Rattle.cover_model.specs.State.{may, undecided, with_no};
ghost use Rattle.cover_model.specs.Rules.{are_undecided, either, is_ascending, most_choices, none_may_fail, one_holds};
ghost use Rattle.cover_data.specs.Margins.{AreMargins, loosenings_of};
ghost use Rattle.cover_data.specs.Views.{kept_of};
ghost use Rattle.cover_rule.specs.Held.{IsHeld, patch_of};
ghost use Rattle.cover_rule.specs.Refusals.{EitherEnd, either_refusal, has_groups};
ghost use Rattle.cover_rule.specs.Serves.{HasRowsOf, IsReady, IsNumbered};

use crate::branches::{is_due, meets_range};
use crate::ends::end_by;
use crate::refusal::PatchRefusal;
use crate::truth::may_hold;
use crate::workspace::Workspace;
use cover_data::{End, KeptPatch, Margins, State};
use cover_line::Branching;
use poly_graph::{Mark, Problem};

// An atom of the one group with one of the other can be chosen in so many ways at most.
const MOST_CHOICES: usize = 64;

/// Two groups of atoms.
#[derive(Drop)]
pub struct Groups {
    pub first: Vec<u32>,
    pub second: Vec<u32>,
}

// Whether the atoms' numbers ascend.
#[tactic(auto, using(crate::proofs::Grouped::ascends_fails, crate::proofs::Grouped::ascends_next, crate::proofs::Grouped::ascends_done))]
fn is_ascending(js: &[u32]) -> bool
    ensures { result ≡ is_ascending js.now }
{
    let mut k = 1;
    while k < js.len() {
        if js[k - 1] >= js[k] {
            return false;
        }
        k += 1;
    }
    true
}

// Whether an atom of each group can be chosen, and in few ways.
fn are_few(first: usize, second: usize) -> bool
    ensures { result ≡ (nat_lt 0 (first * second) && nat_le (first * second) most_choices) }
{
    match first.checked_mul(second) {
        Some(choices) => 0 < choices && choices <= MOST_CHOICES,
        None => false,
    }
}

// Whether the version has groups, and these are groups of one atom or more each, in order, with few choices.
fn has_groups(margins: &Margins, first: &[u32], second: &[u32]) -> bool
    ensures { result ≡ has_groups (loosenings_of margins.now) first.now second.now }
{
    margins.version >= 5
        && is_ascending(first)
        && is_ascending(second)
        && are_few(first.len(), second.len())
}

// Whether there is such an atom, and it is not marked.
#[tactic(auto, using(crate::proofs::Grouped::undecided_past))]
fn is_undecided(state: &State, j: u32) -> bool
    ensures { result ≡ undecided state.now j }
{
    (j as usize) < state.lits().len() && state.is_undecided(j)
}

// Whether all atoms of the group are there, and none is marked.
#[tactic(auto, using(crate::proofs::Grouped::undecided_fails, crate::proofs::Grouped::undecided_next, crate::proofs::Grouped::undecided_done))]
fn are_undecided(state: &State, js: &[u32]) -> bool
    ensures { result ≡ are_undecided state.now js.now }
{
    for j in js {
        if !is_undecided(state, *j) {
            return false;
        }
    }
    true
}

// Whether the form may hold at a point of the state where these atoms, which are not marked, fail.
fn may_without(
    problem: &Problem,
    margins: &Margins,
    state: &mut State,
    work: &mut Workspace,
    j: u32,
    k: u32,
) -> bool
    requires margins { AreMargins margins.now }
    requires state { FitsProblem (problem_of problem.now) state.old }
    requires first { undecided state.old j ≡ true }
    requires second { undecided state.old k ≡ true }
    requires work { IsReady problem.now margins.now state.old.space work.old }
    ensures truth { result ≡ may (problem_of problem.now) (loosenings_of margins.now)
        (with_no (with_no state.old j) k) }
    ensures state { state.new ≡ state.old }
    ensures work { IsReady problem.now margins.now state.old.space work.new }
{
    state.set_mark(j, Mark::No);
    state.set_mark(k, Mark::No);
    let may = may_hold(problem, margins, state, work);
    state.set_mark(k, Mark::Neither);
    state.set_mark(j, Mark::Neither);
    may
}

// Whether the form can't hold where the atom fails and any of the group does.
#[tactic(auto, using(crate::proofs::Grouped::undecided_place, crate::proofs::Grouped::fail_fails, crate::proofs::Grouped::fail_next, crate::proofs::Grouped::fail_done))]
fn none_may_fail(
    problem: &Problem,
    margins: &Margins,
    state: &mut State,
    work: &mut Workspace,
    j: u32,
    ks: &[u32],
) -> bool
    requires margins { AreMargins margins.now }
    requires state { FitsProblem (problem_of problem.now) state.old }
    requires atom { undecided state.old j ≡ true }
    requires group { are_undecided state.old ks.now ≡ true }
    requires work { IsReady problem.now margins.now state.old.space work.old }
    ensures told { result ≡ none_may_fail (problem_of problem.now) (loosenings_of margins.now)
        (with_no state.old j) ks.now }
    ensures state { state.new ≡ state.old }
    ensures work { IsReady problem.now margins.now state.old.space work.new }
{
    for k in ks {
        if may_without(problem, margins, state, work, j, *k) {
            return false;
        }
    }
    true
}

// Whether the form can't hold where an atom of each group fails.
#[tactic(auto, using(crate::proofs::Grouped::undecided_place, crate::proofs::Grouped::holds_fails, crate::proofs::Grouped::holds_next, crate::proofs::Grouped::holds_done))]
fn one_holds(
    problem: &Problem,
    margins: &Margins,
    state: &mut State,
    work: &mut Workspace,
    js: &[u32],
    ks: &[u32],
) -> bool
    requires margins { AreMargins margins.now }
    requires state { FitsProblem (problem_of problem.now) state.old }
    requires first { are_undecided state.old js.now ≡ true }
    requires second { are_undecided state.old ks.now ≡ true }
    requires work { IsReady problem.now margins.now state.old.space work.old }
    ensures told { result ≡ one_holds (problem_of problem.now) (loosenings_of margins.now)
        state.old js.now ks.now }
    ensures state { state.new ≡ state.old }
    ensures work { IsReady problem.now margins.now state.old.space work.new }
{
    for j in js {
        if !none_may_fail(problem, margins, state, work, *j, ks) {
            return false;
        }
    }
    true
}

// Whether the enclosures of these atoms, which are not marked, meet their ranges.
#[tactic(auto, using(crate::proofs::Grouped::misses_fails, crate::proofs::Grouped::misses_next, crate::proofs::Grouped::misses_done))]
fn none_misses(
    problem: &Problem,
    margins: &Margins,
    state: &State,
    work: &Workspace,
    js: &[u32],
) -> bool
    requires margins { AreMargins margins.now }
    requires state { FitsProblem (problem_of problem.now) state.now }
    requires group { are_undecided state.now js.now ≡ true }
    requires work { HasRowsOf problem.now margins.now state.now.space work.now }
    ensures { result ≡ none_misses (problem_of problem.now) (loosenings_of margins.now)
        state.now js.now }
{
    for j in js {
        if !meets_range(problem, margins, state, work, *j) {
            return false;
        }
    }
    true
}

// Whether it is honest to part the state by the groups, whose atoms are not marked.
fn is_either_due(
    problem: &Problem,
    margins: &Margins,
    state: &State,
    work: &mut Workspace,
    groups: &Groups,
) -> bool
    requires margins { AreMargins margins.now }
    requires numbered { IsNumbered problem.now }
    requires state { FitsProblem (problem_of problem.now) state.now }
    requires first { are_undecided state.now groups.now.first.items ≡ true }
    requires second { are_undecided state.now groups.now.second.items ≡ true }
    requires work { IsReady problem.now margins.now state.now.space work.old }
    ensures honest { let s = loosenings_of margins.now in
        let line = either groups.now.first.items groups.now.second.items in
        result ≡ is_honest (problem_of problem.now) margins.now.least_bits s state.now line }
    ensures work { IsReady problem.now margins.now state.now.space work.new }
{
    is_due(problem, margins, state, work)
        && none_misses(problem, margins, state, work, &groups.first)
        && none_misses(problem, margins, state, work, &groups.second)
}

// Why the patch may not be ended so.
fn refusal(
    problem: &Problem,
    margins: &Margins,
    kept: &mut KeptPatch,
    work: &mut Workspace,
    groups: &Groups,
) -> Option<PatchRefusal>
    requires held { IsHeld problem.now margins.now kept.old work.old }
    ensures refusal { let P = patch_of problem.now margins.now kept.old in
        result ≡ either_refusal P groups.now.first.items groups.now.second.items }
    ensures kept { kept_of kept.new ≡ kept_of kept.old }
    ensures reached { kept.new.reached ≡ kept.old.reached }
    ensures ready { IsReady problem.now margins.now kept.old.reached.space work.new }
{
    if kept.end.is_some() {
        return Some(PatchRefusal::Ended);
    }
    let (first, second) = (&groups.first, &groups.second);
    if !has_groups(margins, first, second) {
        return Some(PatchRefusal::NotGroups);
    }
    if !are_undecided(&kept.reached, first) || !are_undecided(&kept.reached, second) {
        return Some(PatchRefusal::Decided);
    }
    if !one_holds(problem, margins, &mut kept.reached, work, first, second) {
        return Some(PatchRefusal::NotForced);
    }
    if !is_either_due(problem, margins, &kept.reached, work, groups) {
        return Some(PatchRefusal::NotHonest);
    }
    None
}

/// Ends the patch by parting the state: all atoms of the first group marked yes, then all of the second.
pub fn either(
    problem: &Problem,
    margins: &Margins,
    kept: &mut KeptPatch,
    work: &mut Workspace,
    groups: Groups,
) -> Result<(), PatchRefusal>
    requires held { IsHeld problem.now margins.now kept.old work.old }
    ensures answer { let P = patch_of problem.now margins.now in
        let js = groups.first.items in let ks = groups.second.items in
        EitherEnd (P kept.old) js ks (P kept.new) result }
    ensures reached { kept.new.reached ≡ kept.old.reached }
    ensures ready { IsReady problem.now margins.now kept.old.reached.space work.new }
{
    if let Some(refusal) = refusal(problem, margins, kept, work, &groups) {
        return Err(refusal);
    }
    let Groups { first, second } = groups;
    end_by(kept, End::Part(Branching::Either(first, second)));
    Ok(())
}
