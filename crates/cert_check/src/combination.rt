// Combinations of atoms.
ghost use Rattle.std.specs.Prelude.{◌≡◌, ◌<◌, ◌||◌, length, IsTrue};
ghost use Rattle.dyadic.specs.Views.{dyadic_of};
ghost use Rattle.interval_model.specs.Interval.{misses_nought};
ghost use Rattle.cover_model.specs.Combination.{only};
ghost use Rattle.cover_model.specs.Rules.{are_combinable, are_ordered, can_combine, in_no_one_sided, is_combination, most_pairs};
ghost use Rattle.cover_model.specs.State.{in_yes};
ghost use Rattle.cover_model.specs.Views.{multipliers_of};
ghost use Rattle.cert_model.specs.Due.{are_atoms};
ghost use Rattle.poly_graph.specs.ProblemViews.{problem_of};
ghost use Rattle.cert_check.specs.Combinations.{comes_before, is_before};
ghost use Rattle.cert_check.specs.States.{state_of, loosenings_of, Fits};

use crate::loosenings::Loosenings;
use crate::state::State;
use crate::tools::is_inequality;
use dyadic::{Dy, Ext, Sign, sign_of};
use poly_graph::Problem;

// A combination has at most so many pairs.
fn most_pairs(s: Loosenings) -> usize
    ensures { result ≡ most_pairs (loosenings_of s) }
{
    if 5 <= s.version { 512 } else { 64 }
}

// Whether the number is not 0.
fn is_some(number: Dy) -> bool
    ensures { result ≡ misses_nought (only (dyadic_of number)) }
{
    match sign_of(Ext::Fin(number)) {
        Sign::Below => true,
        Sign::Nought => false,
        Sign::Above => true,
    }
}

// Whether the atom comes before the first of these.
#[tactic(auto, using(crate::proofs::Pairs::before_none, crate::proofs::Pairs::before_some))]
fn is_before(j: u32, after: &[(u32, Dy)]) -> bool
    ensures { result ≡ is_before j after.now }
{
    after.is_empty() || j < after[0].0
}

// Whether the multiplier is not 0, and its atom comes before the first of these.
fn is_in_order(pair: (u32, Dy), after: &[(u32, Dy)]) -> bool
    ensures { result ≡ comes_before pair after.now }
{
    is_some(pair.1) && is_before(pair.0, after)
}

// Whether the atoms ascend, and no multiplier is 0.
fn are_ordered(pairs: &[(u32, Dy)]) -> bool
    ensures { result ≡ are_ordered (multipliers_of pairs.now) }
{
    for i in 0..pairs.len() {
        let (_, after) = pairs.split_at(i + 1);
        if !is_in_order(pairs[i], after) {
            return false;
        }
    }
    true
}

// Whether the atom is marked yes, or is marked no and is an inequality.
fn is_combinable(problem: &Problem, state: &State, j: u32) -> bool
    requires fits { Fits problem.now (state_of state.now) }
    requires atom { j < length problem.now.atoms }
    ensures { result ≡ (in_yes (state_of state.now) j
        || in_no_one_sided (problem_of problem.now) (state_of state.now) j) }
{
    state.in_yes(j) || (state.in_no(j) && is_inequality(problem, j))
}

// Whether each of the atoms is so.
fn are_combinable(problem: &Problem, state: &State, pairs: &[(u32, Dy)]) -> bool
    requires fits { Fits problem.now (state_of state.now) }
    requires atoms { IsTrue (are_atoms (problem_of problem.now) (multipliers_of pairs.now)) }
    ensures { result
        ≡ are_combinable (problem_of problem.now) (state_of state.now) (multipliers_of pairs.now) }
{
    for i in 0..pairs.len() {
        if !is_combinable(problem, state, pairs[i].0) {
            return false;
        }
    }
    true
}

// Whether these are pairs in order, one or more, and no more than the version has.
fn is_combination(s: Loosenings, pairs: &[(u32, Dy)]) -> bool
    ensures { result ≡ is_combination (loosenings_of s) (multipliers_of pairs.now) }
{
    let most = most_pairs(s);
    !pairs.is_empty() && pairs.len() <= most && are_ordered(pairs)
}

/// Whether the atoms may be combined at the state.
pub fn can_combine(problem: &Problem, s: Loosenings, state: &State, pairs: &[(u32, Dy)]) -> bool
    requires fits { Fits problem.now (state_of state.now) }
    requires atoms { IsTrue (are_atoms (problem_of problem.now) (multipliers_of pairs.now)) }
    ensures { result ≡ can_combine (problem_of problem.now) (loosenings_of s)
        (state_of state.now) (multipliers_of pairs.now) }
{
    2 <= s.version && is_combination(s, pairs) && are_combinable(problem, state, pairs)
}
