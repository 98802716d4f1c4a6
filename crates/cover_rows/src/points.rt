// Middles of opening boxes: where the form is sure there, and the points that they then are.
ghost use Rattle.std.specs.Prelude.{◌≡◌, ◌≤◌, IfOk, IfSome, length, vec_len};
ghost use Rattle.ival.specs.RowViews.{rows_of};
ghost use Rattle.ival.specs.SpaceViews.{space_of};
ghost use Rattle.cover_book.specs.Model.{loosenings_in, problem_in};
ghost use Rattle.cover_model.specs.Fits.{IsShownAt};

use crate::patches::{book_of, is_state};
use cover_book::Book;
use cover_rule::{MiddlePoint, Point, State, midpoint_sure};
use form_truth::Marks;
use ival::{Rows, Space};
use poly_graph::{Lits, Problem};
use sample_problems::scripts::{BOOL, CIRCLE, OUTSIDE, SWAPPED};
use std::alloc::Global;

// No number of the unit interval has the square -1.
pub(crate) const NO_ROOT: &str = "(declare-const x Real)
(assert (<= 0 x 1))
(assert (= (* x x) (- 1)))
(check-sat)";

// No number differs from itself; up to delta each does.
pub(crate) const ANYWHERE: &str = "(declare-const x Real)
(assert (<= 0 x 1))
(assert (distinct x x))
(check-sat)";

// Room for what is computed at the middle of a space.
#[derive(Drop)]
struct Room {
    middle: Space,
    rows: Rows,
    marks: Marks,
}

fn room_for(alloc: Global, problem: &Problem, space: &Space) -> Option<Room>
    ensures middle { IfSome result (λ r. space_of r.middle ≡ space_of space.now) }
    ensures rows { IfSome result (λ r. length (rows_of r.rows) ≡ length problem.now.nodes) }
    ensures marks { IfSome result (λ r.
        vec_len r.marks.truths ≡ length problem.now.forms) }
{
    let middle = space.try_clone(alloc).ok()?;
    let rows = Rows::new(alloc, problem.graph().len()).ok()?;
    let marks = Marks::new(alloc, problem).ok()?;
    Some(Room {
        middle,
        rows,
        marks,
    })
}

// Whether the form is sure at the middle of the state's box, loosened by 2 to the power of minus so many bits.
fn is_sure_in(alloc: Global, problem: &Problem, state: &State, bits: u32) -> Option<bool>
    requires { bits ≤ 120 }
{
    let mut room = room_for(alloc, problem, state.space())?;
    Some(midpoint_sure(
        problem,
        state.space(),
        bits,
        &mut room.middle,
        &mut room.rows,
        &mut room.marks,
    ))
}

// The same of the opening box.
fn is_sure(alloc: Global, book: &Book, bits: u32) -> Option<bool>
    requires { bits ≤ 120 }
{
    let state = book.state_of(0).ok()?;
    is_sure_in(alloc, book.problem(), &state, bits)
}

// Whether the form is found sure there, or not, as said.
fn is_found(alloc: Global, script: &str, bits: u32, expected: bool) -> bool {
    match book_of(alloc, script, 20, 0) {
        Some(book) => bits <= 120 && is_sure(alloc, &book, bits) == Some(expected),
        None => false,
    }
}

// Scripts, bits, and whether the form is sure at the middle.
const MIDDLES: [(&str, u32, bool); 9] = [
    (ANYWHERE, 10, true),
    (NO_ROOT, 0, false),
    (CIRCLE, 0, true),
    (CIRCLE, 1, false),
    (OUTSIDE, 2, true),
    (OUTSIDE, 3, false),
    (SWAPPED, 3, true),
    (SWAPPED, 4, false),
    (BOOL, 0, false),
];

#[test]
fn the_middle_is_sure_as_far_as_it_is_loosened(rt: HostRuntime) {
    for (script, bits, expected) in &MIDDLES {
        assert!(rt;
            is_found(rt.alloc(), script, *bits, *expected),
            "{bits} {script}"
        );
    }
}

// The point in the middle of a live node's box, where the form is sure there.
pub(crate) fn middle_of(
    alloc: Global,
    book: &Book,
    node: u32,
) -> Result<Option<Point>, &'static str>
    ensures { IfOk result (λ o.
        IfSome o (λ p. IsShownAt (problem_in book.now) (loosenings_in book.now) p)) }
{
    let Ok(state) = book.state_of(node) else {
        return Err("no state");
    };
    let problem = book.problem();
    let margins = book.options().margins();
    match Point::of_middle(alloc, problem, &margins, state.space()) {
        Ok(point) => Ok(point),
        Err(_) => Err("no memory"),
    }
}

// Whether this is the space that the lines say.
pub(crate) fn is_space(alloc: Global, space: &Space, lines: &[&str]) -> bool {
    match (space.try_clone(alloc), Lits::new(alloc, 0)) {
        (Ok(space), Ok(lits)) => is_state(alloc, &State::new(space, lits), lines),
        _ => false,
    }
}

// Whether a copy of the point is that of these lines.
fn is_copied(alloc: Global, point: &Point, lines: &[&str]) -> bool {
    match point.try_clone(alloc) {
        Ok(copy) => is_space(alloc, copy.space(), lines),
        Err(_) => false,
    }
}

// Whether the point in the middle of the book's opening box is that of these lines, or there is none, as said.
fn is_point(alloc: Global, book: &Book, expected: Option<&[&str]>) -> bool {
    match (middle_of(alloc, book, 0), expected) {
        (Ok(Some(point)), Some(lines)) => is_copied(alloc, &point, lines),
        (Ok(None), None) => true,
        _ => false,
    }
}

fn has_point(alloc: Global, script: &str, expected: Option<&[&str]>) -> bool {
    match book_of(alloc, script, 20, 0) {
        Some(book) => is_point(alloc, &book, expected),
        None => false,
    }
}

// Scripts, and the point in the middle; none where the form is sure nowhere near it.
const POINTS: [(&str, Option<&[&str]>); 6] = [
    (NO_ROOT, None),
    (CIRCLE, None),
    (OUTSIDE, None),
    (SWAPPED, None),
    (BOOL, None),
    (ANYWHERE, Some(&["real 1b-1 1b-1"])),
];

#[test]
fn a_point_is_a_sure_middle(rt: HostRuntime) {
    for (script, expected) in &POINTS {
        assert!(rt; has_point(rt.alloc(), script, *expected), "{script}");
    }
}
