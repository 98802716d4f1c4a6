// Whether atoms may be combined at a state.
ghost use Rattle.std.specs.Prelude.{◌≡◌, ◌&&◌, ◌||◌, ◌+◌, ◌<◌, drop, length, nat_lt};
ghost use Rattle.interval_model.specs.Space.{Space as Domains};
ghost use Rattle.interval_model.specs.Interval.{misses_nought};
ghost use Rattle.dyadic.specs.Views.{dyadic_of};
ghost use Rattle.poly_graph.specs.ProblemViews.{problem_of};
ghost use Rattle.cover_model.specs.Combination.{only};
ghost use Rattle.cover_model.specs.State.{state_of, in_yes};
ghost use Rattle.cover_model.specs.Rules.{are_ordered, has_version_2, most_pairs, is_combination, are_combinable, can_combine, in_no_one_sided};
ghost use Rattle.cover_model.specs.Views.{multipliers_of};
ghost use Rattle.form_truth.specs.Versions.{at_version};

use cover_model::is_one_sided;
use dyadic::Dy;
use poly_graph::{Lits, Mark, Problem};

// The most pairs of a combination in this version of the format.
fn most_pairs(version: u32) -> usize
    ensures { result ≡ most_pairs (at_version version) }
{
    if version >= 5 { 512 } else { 64 }
}

// Whether the number is another one than 0.
fn is_other_than_nought(by: Dy) -> bool
    ensures { result ≡ misses_nought (only (dyadic_of by)) }
{
    !by.is_zero()
}

// Whether the multiplier in this place is not 0, and the atom's number is below the next one's.
#[tactic(auto, using(crate::proofs::Ordered::nought_here, crate::proofs::Ordered::before_next, crate::proofs::Ordered::last_here))]
fn is_in_order(multipliers: &[(u32, Dy)], k: usize) -> bool
    requires { k < length multipliers.now }
    ensures { are_ordered (multipliers_of (drop k multipliers.now)) ≡
        (result && are_ordered (multipliers_of (drop (k + 1) multipliers.now))) }
{
    let (j, by) = multipliers[k];
    if !is_other_than_nought(by) {
        return false;
    }
    if k + 1 < multipliers.len() {
        return j < multipliers[k + 1].0;
    }
    true
}

// Whether each atom's number is below the next one's, and no multiplier is 0.
#[tactic(auto, using(crate::proofs::Ordered::none_left))]
fn are_ordered(multipliers: &[(u32, Dy)]) -> bool
    ensures { result ≡ are_ordered (multipliers_of multipliers.now) }
{
    for k in 0..multipliers.len() {
        if !is_in_order(multipliers, k) {
            return false;
        }
    }
    true
}

// Whether these are pairs in order, one or more, and no more than this version allows.
fn is_combination(multipliers: &[(u32, Dy)], version: u32) -> bool
    ensures { result ≡ is_combination (at_version version) (multipliers_of multipliers.now) }
{
    let count = multipliers.len();
    let most = most_pairs(version);
    0 < count && count <= most && are_ordered(multipliers)
}

// Whether this version has combinations, and these are the pairs of one.
fn has_combination(multipliers: &[(u32, Dy)], version: u32) -> bool
    ensures { let s = at_version version in
        result ≡ (has_version_2 s && is_combination s (multipliers_of multipliers.now)) }
{
    version >= 2 && is_combination(multipliers, version)
}

// Whether the atom is there, and is marked yes, or is marked no and an inequality.
fn is_combinable(problem: &Problem, lits: &Lits, j: u32) -> bool
    requires { length lits.now ≡ length problem.now.atoms }
    ensures { (space : Domains) → let S = state_of space lits.now in
        result ≡ (nat_lt j (length problem.now.atoms) &&
        (in_yes S j || in_no_one_sided (problem_of problem.now) S j)) }
{
    let atoms = problem.atoms();
    if j as usize >= atoms.len() {
        return false;
    }
    match lits.mark(j) {
        Mark::Yes => true,
        Mark::No => is_one_sided(atoms[j as usize].kind),
        Mark::Neither => false,
    }
}

// Whether each of the atoms may be combined.
fn are_combinable(problem: &Problem, lits: &Lits, multipliers: &[(u32, Dy)]) -> bool
    requires { length lits.now ≡ length problem.now.atoms }
    ensures { (space : Domains) →
        result ≡ are_combinable (problem_of problem.now) (state_of space lits.now)
        (multipliers_of multipliers.now) }
{
    for pair in multipliers {
        if !is_combinable(problem, lits, pair.0) {
            return false;
        }
    }
    true
}

/// Whether these atoms with their multipliers may be combined at a state with these marks, in this version of the
/// format.
pub fn can_combine(problem: &Problem, lits: &Lits, multipliers: &[(u32, Dy)], version: u32) -> bool
    requires { length lits.now ≡ length problem.now.atoms }
    ensures { (space : Domains) → let ms = multipliers_of multipliers.now in
        result ≡ can_combine (problem_of problem.now) (at_version version)
        (state_of space lits.now) ms }
{
    has_combination(multipliers, version) && are_combinable(problem, lits, multipliers)
}
