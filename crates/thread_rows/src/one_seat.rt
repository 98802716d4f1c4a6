// A shared book with one seat replies as a book of one thread does, and leaves the same book.
ghost use Rattle.book_lock.specs.Shared.{IsOnePartSeatOf, first_of};
ghost use Rattle.sample_problems.specs.Small.{IsSmall};
ghost use Rattle.thread_rows.specs.TriedBookLock.{IsTried};

use crate::made::problem;
use crate::swapped::{ATOMS, OPTIONS, Place, closing, cutting, is_at, is_kept_at, state_at};
use book_lock::{BookSeat, SharedBook};
use cover_book::{Book, BookRefusal, BookVerdict, Kids, Learned, Node};
use cover_data::{Closing, End, Margins, Step};
use cover_line::{Branching, Marking};
use dyadic::Dy;
use poly_graph::Problem;
use sample_problems::scripts::SWAPPED;
use std::alloc::Global;
use std::sync::Wait;

// What is replied to a commit.
#[derive(Clone, Copy)]
enum Expected {
    Committed(Kids),
    NotOpen(u32),
    OtherState(Place),
    BudgetSpent(u32),
}

// A patch that is committed to a node: where it begins, how many atoms it marks before its cut, and what is replied.
#[derive(Clone, Copy)]
struct Cut {
    node: u32,
    place: Place,
    atoms: u32,
    expected: Expected,
}

// The root is cut once, its lower half then begins elsewhere, and there is no branch left.
const CUTS: [Cut; 4] = [
    Cut {
        node: 0,
        place: Place::Root,
        atoms: ATOMS,
        expected: Expected::Committed(Kids::Two(1, 2)),
    },
    Cut {
        node: 0,
        place: Place::Root,
        atoms: ATOMS,
        expected: Expected::NotOpen(0),
    },
    Cut {
        node: 1,
        place: Place::Root,
        atoms: ATOMS,
        expected: Expected::OtherState(Place::Lower),
    },
    Cut {
        node: 1,
        place: Place::Lower,
        atoms: 0,
        expected: Expected::BudgetSpent(1),
    },
];

// Whether this is the reply.
fn is_expected(
    alloc: Global,
    problem: &Problem,
    answer: &Result<Kids, BookRefusal>,
    expected: Expected,
) -> bool {
    match (answer, expected) {
        (Ok(kids), Expected::Committed(said)) => *kids == said,
        (Err(BookRefusal::NotOpen(node)), Expected::NotOpen(said)) => *node == said,
        (Err(BookRefusal::OtherState(state)), Expected::OtherState(place)) => {
            is_at(alloc, problem, state, place)
        }
        (Err(BookRefusal::BudgetSpent(count)), Expected::BudgetSpent(said)) => *count == said,
        _ => false,
    }
}

// Whether the shared book replies so to the cut.
fn is_answered<R: Wait>(
    rt: &R,
    alloc: Global,
    shared: &SharedBook,
    seat: &mut BookSeat,
    problem: &Problem,
    margins: &Margins,
    cut: Cut,
) -> bool
    requires tried { IsTried (first_of shared.now) problem.now margins.now }
    requires seat { IsOnePartSeatOf shared.now seat.old }
    ensures { IsOnePartSeatOf shared.now seat.new }
{
    let Some(state) = state_at(alloc, problem, cut.place) else {
        return false;
    };
    let Some(patch) = cutting(alloc, problem, margins, state, cut.atoms) else {
        return false;
    };
    let answer = shared.commit(rt, seat, cut.node, patch);
    is_expected(alloc, problem, &answer, cut.expected)
}

// Whether it replies so to each cut, one after the other.
fn are_answered<R: Wait>(
    rt: &R,
    alloc: Global,
    shared: &SharedBook,
    seat: &mut BookSeat,
    problem: &Problem,
    margins: &Margins,
) -> bool
    requires tried { IsTried (first_of shared.now) problem.now margins.now }
    requires seat { IsOnePartSeatOf shared.now seat.old }
    ensures { IsOnePartSeatOf shared.now seat.new }
{
    for cut in &CUTS {
        if !is_answered(rt, alloc, shared, seat, problem, margins, *cut) {
            return false;
        }
    }
    true
}

// Whether it learns the middle as its first lemma.
fn is_learned<R: Wait>(
    rt: &R,
    alloc: Global,
    shared: &SharedBook,
    seat: &mut BookSeat,
    problem: &Problem,
    margins: &Margins,
) -> bool
    requires tried { IsTried (first_of shared.now) problem.now margins.now }
    requires seat { IsOnePartSeatOf shared.now seat.old }
    ensures { IsOnePartSeatOf shared.now seat.new }
{
    let Some(patch) = closing(alloc, problem, margins) else {
        return false;
    };
    matches!(shared.learn(rt, seat, patch), Ok(0))
}

// Whether its lemmas are the middle alone.
fn has_lemma<R: Wait>(
    rt: &R,
    alloc: Global,
    shared: &SharedBook,
    seat: &mut BookSeat,
    problem: &Problem,
) -> bool
    requires { IsOnePartSeatOf shared.now seat.old }
    ensures { IsOnePartSeatOf shared.now seat.new }
{
    match shared.lemmas_from(rt, seat, 0) {
        Ok(lemmas) => match lemmas.as_slice() {
            [lemma] => lemma.id() == 0 && is_at(alloc, problem, lemma.state(), Place::Middle),
            _ => false,
        },
        Err(_) => false,
    }
}

// Whether it replies so to the cuts, and then to the lesson.
fn replies<R: Wait>(
    rt: &R,
    alloc: Global,
    shared: &SharedBook,
    seat: &mut BookSeat,
    problem: &Problem,
    margins: &Margins,
) -> bool
    requires tried { IsTried (first_of shared.now) problem.now margins.now }
    requires seat { IsOnePartSeatOf shared.now seat.old }
    ensures { IsOnePartSeatOf shared.now seat.new }
{
    are_answered(rt, alloc, shared, seat, problem, margins)
        && is_learned(rt, alloc, shared, seat, problem, margins)
        && has_lemma(rt, alloc, shared, seat, problem)
}

// The book that a shared one leaves, where it replied so.
fn left_book<R: Wait>(rt: &R, alloc: Global, problem: &Problem) -> Option<Book>
    requires { IsSmall problem.now }
{
    let margins = OPTIONS.margins();
    let Ok(copy) = problem.try_clone(alloc) else {
        return None;
    };
    let Ok(book) = Book::new(alloc, copy, OPTIONS) else {
        return None;
    };
    let Ok((shared, mut seat)) = SharedBook::share(alloc, book, 1) else {
        return None;
    };
    let right = replies(rt, alloc, &shared, &mut seat, problem, &margins);
    let book = shared.close(seat);
    if right { Some(book) } else { None }
}

// Whether the root was cut into these two halves, and they are live.
fn are_halves(alloc: Global, problem: &Problem, nodes: &[Node]) -> bool {
    match nodes {
        [Node::Parted(lines, 1), Node::Live(lower), Node::Live(upper)] => {
            lines.steps.as_slice()
                == [
                    Step::Mark(Marking::Unit(0)),
                    Step::Mark(Marking::Unit(1)),
                    Step::Mark(Marking::Unit(2)),
                    Step::Mark(Marking::Unit(3)),
                    Step::Mark(Marking::Unit(4)),
                ]
                .as_slice()
                && lines.end == End::Part(Branching::Cut(0, Dy::ZERO))
                && is_kept_at(alloc, problem, lower, Place::Lower)
                && is_kept_at(alloc, problem, upper, Place::Upper)
        }
        _ => false,
    }
}

// Whether the lemma is the middle, closed by the form alone.
fn is_middle(alloc: Global, problem: &Problem, lemmas: &[Learned]) -> bool {
    match lemmas {
        [lemma] => {
            is_kept_at(alloc, problem, &lemma.state, Place::Middle)
                && lemma.lines.steps.is_empty()
                && lemma.lines.end == End::Close(Closing::False)
        }
        _ => false,
    }
}

// Whether a book of one thread would be so after these calls.
fn is_right(alloc: Global, problem: &Problem, book: &Book) -> bool {
    are_halves(alloc, problem, book.nodes())
        && is_middle(alloc, problem, book.lemmas())
        && book.branches() == 1
        && book.point().is_none()
        && book.verdict() == BookVerdict::UnknownBudget
}

// Whether the book that a shared one leaves is so.
fn leaves_right<R: Wait>(rt: &R, alloc: Global) -> Option<bool> {
    let problem = problem(alloc, SWAPPED)?;
    let book = left_book(rt, alloc, &problem)?;
    Some(is_right(alloc, &problem, &book))
}

#[test]
fn a_shared_book_replies_as_a_book(rt: HostRuntime) {
    assert!(rt; leaves_right(&rt, rt.alloc()) == Some(true));
}
