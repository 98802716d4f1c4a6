// How far a cover is gone through.
ghost use Rattle.std.specs.Prelude.{◌≡◌, ◌≤◌, IfOk, MatchOption, None, OnOk};
ghost use Rattle.poly_graph.specs.Problem.{first_crossed};
ghost use Rattle.cover_book.specs.Keeps.{IsBook};
ghost use Rattle.cover_book.specs.Model.{problem_in};
ghost use Rattle.cert_resume.specs.Calls.{IsPointNoted};
ghost use Rattle.cert_resume.specs.Going.{HasNoted, IsBegunWith, IsOwnOf, JoinsOwn, NotesOwn};

use crate::answer::Own;
use cert_text::{append_lemmas_of, append_tree_of, first_stuck};
use cover_book::{Book, BookVerdict};
use cover_data::{Point, StoredState};
use std::alloc::{AllocError, Global};
use std::mem;

/// What was made of the lines so far.
#[derive(Drop)]
pub struct Going {
    /// The text of the main tree.
    pub main: Vec<u8>,
    /// The text of the lemmas that were learned.
    pub learned: Vec<u8>,
    /// The states of all lemmas.
    pub lemmas: Vec<StoredState>,
    /// The version of the format in which all of it is.
    pub version: u32,
    /// How many branches are left.
    pub budget: u32,
    /// What is left in the share.
    pub own: Own,
    /// How many states are in other shares.
    pub others: u64,
}

// What is left of a book's tree.
fn own_of(alloc: Global, book: &Book) -> Result<Own, AllocError>
    requires book { IsBook book.now }
    requires no_point { book.now.point ≡ None }
    ensures { IfOk result (IsOwnOf book.now) }
{
    match book.verdict() {
        BookVerdict::Unsat => Ok(Own::Nothing),
        BookVerdict::UnknownWidth => match first_stuck(alloc, book)? {
            Some(found) => Ok(Own::Stuck(found.atom, found.state.try_clone(alloc)?)),
            None => Ok(Own::Nothing),
        },
        _ => Ok(Own::Open),
    }
}

// What is left of two parts, of which one is behind the other.
fn joined(first: Own, second: Own) -> Own
    ensures { JoinsOwn first second result }
{
    match &first {
        Own::Nothing => second,
        Own::Open => first,
        Own::Stuck(_, _) => match &second {
            Own::Open => second,
            _ => first,
        },
    }
}

// What is left behind what was left.
fn note_own(own: &mut Own, alloc: Global, book: &Book) -> Result<(), AllocError>
    requires book { IsBook book.now }
    requires no_point { book.now.point ≡ None }
    ensures { OnOk result (NotesOwn own.old book.now own.new) }
{
    let more = own_of(alloc, book)?;
    let first = mem::replace(own, Own::Nothing);
    drop(mem::replace(own, joined(first, more)));
    Ok(())
}

/// Appends the tree of a book that was searched, and the lemmas that it learned, or answers the point that it keeps. What
/// was made so far goes over to the version of the book.
pub fn note_book(going: &mut Going, book: &Book) -> Result<Option<Point>, AllocError>
    requires budget { book.now.branches ≤ going.old.budget }
    requires not_crossed { first_crossed (problem_in book.now) ≡ None }
    ensures { IfOk result (λ x. MatchOption x
        (HasNoted book.now going.old going.new)
        (IsPointNoted book.now going.new)) }
{
    let alloc = *going.main.allocator();
    let branches = book.branches();
    going.version = book.options().version;
    if let Some(point) = book.point() {
        return Ok(Some(point.try_clone(alloc)?));
    }
    append_tree_of(&mut going.main, alloc, book)?;
    append_lemmas_of(&mut going.learned, book)?;
    note_own(&mut going.own, alloc, book)?;
    going.budget -= branches;
    Ok(None)
}

/// Nothing is gone through yet, in this version of the format.
pub fn begun(alloc: Global, lemmas: Vec<StoredState>, budget: u32, version: u32) -> Going
    ensures { IsBegunWith lemmas budget version result }
{
    Going {
        main: Vec::new(alloc),
        learned: Vec::new(alloc),
        lemmas,
        version,
        budget,
        own: Own::Nothing,
        others: 0,
    }
}
