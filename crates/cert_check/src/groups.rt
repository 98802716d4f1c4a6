// Two groups of atoms of which one holds as a whole.
ghost use Rattle.std.specs.Prelude.{◌≡◌, ◌<◌, ◌*◌, ◌&&◌, true, length, nat_le, nat_lt, IsTrue};
ghost use Rattle.cert_model.specs.Due.{all_below};
ghost use Rattle.cover_model.specs.Rules.{are_groups, are_undecided, can_branch, can_part, either_group, has_version_5, most_choices, none_may_fail, one_holds};
ghost use Rattle.cover_model.specs.State.{may, undecided, with_no};
ghost use Rattle.poly_graph.specs.ProblemViews.{problem_of};
ghost use Rattle.cert_check.specs.States.{state_of, loosenings_of, Fits};
ghost use Rattle.cert_check.specs.Serving.{Serves};

use crate::lists::{all_unmarked, ascends};
use crate::loosenings::Loosenings;
use crate::state::State;
use crate::tools::Tools;
use poly_graph::{Mark, Problem};

// An atom of the one group with one of the other can be chosen in so many ways at most.
const MOST_CHOICES: usize = 64;

// Whether an atom of each group can be chosen, and in few ways.
fn are_few(first: usize, second: usize) -> bool
    ensures { result ≡ (nat_lt 0 (first * second) && nat_le (first * second) most_choices) }
{
    match first.checked_mul(second) {
        Some(choices) => 0 < choices && choices <= MOST_CHOICES,
        None => false,
    }
}

// Whether these are groups of one atom or more each, in order, with few choices.
fn are_groups(first: &[u32], second: &[u32]) -> bool
    ensures { result ≡ are_groups first.now second.now }
{
    ascends(first) && ascends(second) && are_few(first.len(), second.len())
}

// Whether the version has groups, and these are such.
fn has_groups(s: Loosenings, first: &[u32], second: &[u32]) -> bool
    ensures { result ≡ (has_version_5 (loosenings_of s) && are_groups first.now second.now) }
{
    5 <= s.version && are_groups(first, second)
}

// Whether no atom of the group is marked.
#[tactic(auto, using(crate::proofs::Grouped::undecided_all))]
fn are_undecided(state: &State, js: &[u32]) -> bool
    requires { IsTrue (all_below (length state.now.lits) js.now) }
    ensures { result ≡ are_undecided (state_of state.now) js.now }
{
    all_unmarked(&state.lits, js)
}

// Whether no atom of the groups is marked.
fn can_part(state: &State, first: &[u32], second: &[u32]) -> bool
    requires first { IsTrue (all_below (length state.now.lits) first.now) }
    requires second { IsTrue (all_below (length state.now.lits) second.now) }
    ensures { result ≡ can_part (state_of state.now) (either_group first.now second.now) }
{
    are_undecided(state, first) && are_undecided(state, second)
}

// Whether the form may hold at a point of the state where these atoms fail.
#[tactic(auto, using(crate::proofs::Grouped::put_back))]
fn may_without(
    problem: &Problem,
    tools: &mut Tools,
    s: Loosenings,
    state: &mut State,
    j: u32,
    k: u32,
) -> bool
    requires serves { Serves problem.now tools.old }
    requires fits { Fits problem.now (state_of state.old) }
    requires first { undecided (state_of state.old) j ≡ true }
    requires second { undecided (state_of state.old) k ≡ true }
    ensures truth { result ≡ may (problem_of problem.now) (loosenings_of s)
        (with_no (with_no (state_of state.old) j) k) }
    ensures same { state_of state.new ≡ state_of state.old }
    ensures serves { Serves problem.now tools.new }
{
    state.lits.set(j, Mark::No);
    state.lits.set(k, Mark::No);
    let may = tools.may(problem, s.margin, state);
    state.lits.set(k, Mark::Neither);
    state.lits.set(j, Mark::Neither);
    may
}

// Whether the form can't hold where the atom fails and any of the group does.
#[tactic(auto, using(crate::proofs::Grouped::undecided_place, crate::proofs::Grouped::fail_fails, crate::proofs::Grouped::fail_next, crate::proofs::Grouped::fail_done))]
fn none_may_fail(
    problem: &Problem,
    tools: &mut Tools,
    s: Loosenings,
    state: &mut State,
    j: u32,
    ks: &[u32],
) -> bool
    requires serves { Serves problem.now tools.old }
    requires fits { Fits problem.now (state_of state.old) }
    requires atom { undecided (state_of state.old) j ≡ true }
    requires group { are_undecided (state_of state.old) ks.now ≡ true }
    ensures told { result ≡ none_may_fail (problem_of problem.now) (loosenings_of s)
        (with_no (state_of state.old) j) ks.now }
    ensures same { state_of state.new ≡ state_of state.old }
    ensures serves { Serves problem.now tools.new }
{
    for k in ks {
        if may_without(problem, tools, s, state, j, *k) {
            return false;
        }
    }
    true
}

// Whether the form can't hold where an atom of each group fails.
#[tactic(auto, using(crate::proofs::Grouped::undecided_place, crate::proofs::Grouped::holds_fails, crate::proofs::Grouped::holds_next, crate::proofs::Grouped::holds_done))]
fn one_holds(
    problem: &Problem,
    tools: &mut Tools,
    s: Loosenings,
    state: &mut State,
    js: &[u32],
    ks: &[u32],
) -> bool
    requires serves { Serves problem.now tools.old }
    requires fits { Fits problem.now (state_of state.old) }
    requires first { are_undecided (state_of state.old) js.now ≡ true }
    requires second { are_undecided (state_of state.old) ks.now ≡ true }
    ensures told { result ≡ one_holds (problem_of problem.now) (loosenings_of s)
        (state_of state.old) js.now ks.now }
    ensures same { state_of state.new ≡ state_of state.old }
    ensures serves { Serves problem.now tools.new }
{
    for j in js {
        if !none_may_fail(problem, tools, s, state, *j, ks) {
            return false;
        }
    }
    true
}

/// Whether the state may be parted by the groups; it is the same behind the call.
pub fn can_branch(
    problem: &Problem,
    tools: &mut Tools,
    s: Loosenings,
    state: &mut State,
    first: &[u32],
    second: &[u32],
) -> bool
    requires serves { Serves problem.now tools.old }
    requires fits { Fits problem.now (state_of state.old) }
    requires first { IsTrue (all_below (length problem.now.atoms) first.now) }
    requires second { IsTrue (all_below (length problem.now.atoms) second.now) }
    ensures told { result ≡ can_branch (problem_of problem.now) (loosenings_of s)
        (state_of state.old) (either_group first.now second.now) }
    ensures same { state_of state.new ≡ state_of state.old }
    ensures serves { Serves problem.now tools.new }
{
    if !can_part(state, first, second) || !has_groups(s, first, second) {
        return false;
    }
    one_holds(problem, tools, s, state, first, second)
}
