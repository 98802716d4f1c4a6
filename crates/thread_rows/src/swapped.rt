// The problem of the books that are shared here: x * y - y * x = 1/8 over a square. Its states and its patches.
ghost use Rattle.std.specs.Prelude.{◌≡◌, IfSome, IsSome};
ghost use Rattle.cover_model.specs.Fits.{FitsProblem};
ghost use Rattle.poly_graph.specs.ProblemViews.{problem_of};
ghost use Rattle.cover_data.specs.Margins.{AreMargins};
ghost use Rattle.cover_data.specs.Runs.{IsClosed, IsRun};
ghost use Rattle.cover_data.specs.Views.{kept_of};
ghost use Rattle.sample_problems.specs.Small.{IsSmall};

use cover_data::{ClosedPatch, KeptPatch, Margins, Options, State, StoredState};
use cover_rule::Patch;
use dyadic::{Dy, two_to_minus};
use ival::{Domain, Range, Space};
use poly_graph::{Lits, Mark, Problem};
use sample_problems::{USUAL, lies_within};
use std::alloc::Global;

// The bounds have the atoms 0 to 3, the equation 4.
pub(crate) const ATOMS: u32 = 5;

// A budget of one branch.
pub(crate) const OPTIONS: Options = Options { budget: 1, ..USUAL };

// ---- states

// A box of the square: the square itself with no atom marked, its lower and its upper half by x with each atom marked
// yes, and its middle with no atom marked.
#[derive(Clone, Copy)]
pub(crate) enum Place {
    Root,
    Lower,
    Upper,
    Middle,
}

// The numbers that are left to x, then those that are left to y.
fn sides(place: Place) -> Option<(Range, Range)> {
    let half = two_to_minus(1);
    let side = Range::between(half.neg(), half)?;
    match place {
        Place::Root => Some((side, side)),
        Place::Lower => Some((Range::between(half.neg(), Dy::ZERO)?, side)),
        Place::Upper => Some((Range::between(Dy::ZERO, half)?, side)),
        Place::Middle => {
            let point = Range::between(Dy::ZERO, Dy::ZERO)?;
            Some((point, point))
        }
    }
}

// Marks each atom yes.
fn mark_all(lits: &mut Lits) {
    for j in 0..ATOMS {
        if (j as usize) < lits.len() {
            lits.set(j, Mark::Yes);
        }
    }
}

// The state of the place.
pub(crate) fn state_at(alloc: Global, problem: &Problem, place: Place) -> Option<State>
    ensures { IfSome result (λ s. FitsProblem (problem_of problem.now) s) }
{
    let (x, y) = sides(place)?;
    let mut axes = Vec::new(alloc);
    axes.push(Domain::Real(x)).ok()?;
    axes.push(Domain::Real(y)).ok()?;
    let mut lits = Lits::new(alloc, ATOMS as usize).ok()?;
    if matches!(place, Place::Lower | Place::Upper) {
        mark_all(&mut lits);
    }
    let state = State::new(Space { axes }, lits);
    if lies_within(alloc, problem, &state) {
        Some(state)
    } else {
        None
    }
}

// Whether this is the state of the place.
pub(crate) fn is_at(alloc: Global, problem: &Problem, state: &State, place: Place) -> bool {
    match state_at(alloc, problem, place) {
        Some(expected) => expected.is_same(state),
        None => false,
    }
}

// Whether the kept state is that of the place.
pub(crate) fn is_kept_at(
    alloc: Global,
    problem: &Problem,
    state: &StoredState,
    place: Place,
) -> bool {
    match state_at(alloc, problem, place) {
        Some(expected) => state.is_same(&expected),
        None => false,
    }
}

// ---- patches

// Marks so many atoms in the state that the patch has reached, and then cuts its widest axis; whether it did.
fn ends_in_cut(problem: &Problem, patch: &mut Patch, atoms: u32) -> bool
    requires { patch.old.problem ≡ problem.now }
    ensures problem { patch.new.problem ≡ patch.old.problem }
    ensures margins { patch.new.margins ≡ patch.old.margins }
{
    let count = problem.atoms().len();
    for j in 0..atoms {
        if (j as usize) >= count || patch.unit(j).is_err() {
            return false;
        }
    }
    match patch.widest() {
        Some(axis) => patch.cut(axis).is_ok(),
        None => false,
    }
}

// The patch that marks so many atoms in the state and then cuts it.
pub(crate) fn cutting(
    alloc: Global,
    problem: &Problem,
    margins: &Margins,
    state: State,
    atoms: u32,
) -> Option<KeptPatch>
    requires problem { IsSmall problem.now }
    requires margins { AreMargins margins.now }
    requires state { FitsProblem (problem_of problem.now) state }
    ensures run { IfSome result (λ k. IsRun (problem_of problem.now) margins.now (kept_of k)) }
    ensures ended { IfSome result (λ k. IsSome k.end) }
{
    let Ok(mut patch) = Patch::begin(alloc, problem, margins, state) else {
        return None;
    };
    if !ends_in_cut(problem, &mut patch, atoms) {
        return None;
    }
    let (kept, _) = patch.into_kept();
    if kept.end.is_some() { Some(kept) } else { None }
}

// The patch that closes the middle.
#[tactic(auto, using(crate::proofs::TriedBookLock::is_run_for))]
pub(crate) fn closing(alloc: Global, problem: &Problem, margins: &Margins) -> Option<ClosedPatch>
    requires problem { IsSmall problem.now }
    requires margins { AreMargins margins.now }
    ensures run { IfSome result (λ k. IsRun (problem_of problem.now) margins.now k) }
    ensures closed { IfSome result (λ k. IsClosed k) }
{
    let state = state_at(alloc, problem, Place::Middle)?;
    let Ok(mut patch) = Patch::begin(alloc, problem, margins, state) else {
        return None;
    };
    match patch.make_false() {
        Ok(()) => {}
        Err(_) => return None,
    }
    let _ = patch.reached();
    match patch.closed() {
        Ok(closed) => Some(closed),
        Err(_) => None,
    }
}
