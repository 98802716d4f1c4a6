// A book that opens in a state within the root, with the lemmas of another one.
ghost use Rattle.std.specs.Prelude.{◌≡◌, None, IfSome, IsSome, IsTrue};
ghost use Rattle.cover_model.specs.Fits.{FitsProblem};
ghost use Rattle.cover_model.specs.State.{covers, root_state};
ghost use Rattle.poly_graph.specs.Problem.{first_crossed};
ghost use Rattle.poly_graph.specs.ProblemViews.{problem_of};

use crate::books::{Call, Commit, are_answered};
use crate::patches::{DONE, book_of, state_of};
use cover_book::{Book, BookVerdict, Kids};
use cover_rule::State;
use form_truth::{Root, root_space};
use poly_graph::{Lits, Problem};
use sample_problems::lies_within;
use sample_problems::scripts::OUTSIDE;
use std::alloc::Global;

// The root state of the problem, if its declared box is not empty.
fn root_of(alloc: Global, problem: &Problem) -> Option<State>
    ensures root { IfSome result (λ s. s ≡ root_state (problem_of problem.now)) }
    ensures not_crossed { IsSome result → first_crossed (problem_of problem.now) ≡ None }
{
    let Ok(Root::Space(space)) = root_space(alloc, problem) else {
        return None;
    };
    let lits = Lits::new(alloc, problem.atoms().len()).ok()?;
    Some(State::new(space, lits))
}

// Whether a book of the problem may open in the state.
fn may_begin(alloc: Global, problem: &Problem, state: &State) -> bool
    ensures fits { IsTrue result → FitsProblem (problem_of problem.now) state.now }
    ensures within { IsTrue result →
        IsTrue (covers (root_state (problem_of problem.now)) state.now) }
    ensures not_crossed { IsTrue result → first_crossed (problem_of problem.now) ≡ None }
{
    let Some(root) = root_of(alloc, problem) else {
        return false;
    };
    let alike = root.space().len() == state.space().len()
        && root.lits().len() == state.lits().len();
    alike && root.covers(state) && lies_within(alloc, problem, state)
}

// The book that opens in the state with the lemmas of the other one, of the same problem.
fn reopened(alloc: Global, book: Book, state: State) -> Option<Book> {
    if !may_begin(alloc, book.problem(), &state) {
        return None;
    }
    let Ok(problem) = book.problem().try_clone(alloc) else {
        return None;
    };
    let options = *book.options();
    let Ok(lemmas) = book.into_lemmas() else {
        return None;
    };
    Book::begin_at(alloc, problem, options, lemmas, state).ok()
}

// A lemma is learned at the root, and closes the half in which the next book opens.
const LEARNED: [Call; 1] = [Call::Learn(
    &["real 0 1b0", "yes 4"],
    &[("pull 4", DONE), ("false", DONE)],
    0,
)];

const HALF: [&str; 2] = ["real 0 1b-1", "yes 4"];

const CLOSED: [Call; 4] = [
    Call::LastLemma(0, &["real 0 1b0", "yes 4"]),
    Call::Commit(Commit {
        node: 0,
        quotes: Some(0),
        state: &HALF,
        lines: &[("by 0", DONE)],
        reply: Ok(Kids::None),
    }),
    Call::Branches(0),
    Call::Verdict(BookVerdict::Unsat),
];

// Whether the two books answer so.
fn half_is_closed(alloc: Global) -> Option<bool> {
    let mut book = book_of(alloc, OUTSIDE, 20, 0)?;
    if !are_answered(alloc, &mut book, &LEARNED) {
        return None;
    }
    let half = state_of(alloc, book.problem().atoms().len(), &HALF)?;
    let mut next = reopened(alloc, book, half)?;
    Some(are_answered(alloc, &mut next, &CLOSED))
}

#[test]
fn lemmas_are_kept_in_a_half(rt: HostRuntime) {
    assert!(rt; matches!(half_is_closed(rt.alloc()), Some(true)));
}
