// A shelf on which two threads put lemmas and one reads them.
ghost use Rattle.std.specs.Prelude.{◌≡◌, IfSome};
ghost use Rattle.cover_data.specs.Margins.{AreMargins};
ghost use Rattle.lemma_shelf.specs.Lemmas.{IsLemmaOf};
ghost use Rattle.sample_problems.specs.Small.{IsSmall};

use crate::made::problem;
use crate::swapped::{OPTIONS, Place, closing, is_at};
use cover_data::{Lemma, Margins};
use lemma_shelf::{LemmaSource, Mark, Shelf, ShelfReader, Subject, Token};
use poly_graph::Problem;
use sample_problems::scripts::SWAPPED;
use std::alloc::Global;
use std::marker::Brand;
use std::sync::Wait;
use std::test::Fail;
use std::thread::{Threads, join};

// So many lemmas are put on the shelf.
const COUNT: u32 = 3;

// Whether this is the lemma of the middle, under this number.
fn is_middle(alloc: Global, problem: &Problem, id: u32, lemma: &Lemma) -> bool {
    lemma.id() == id && is_at(alloc, problem, lemma.state(), Place::Middle)
}

// Puts the lemma of the middle on the shelf. Whether its token shows it.
fn post_middle<J: Subject, R: Wait>(
    rt: &R,
    alloc: Global,
    problem: &Problem,
    shelf: &Shelf<J>,
    lemma: Lemma,
) -> bool
    requires { IsLemmaOf J.problem J.margins lemma }
{
    let posted = lemma.id();
    match shelf.post(rt, posted, lemma) {
        Ok(token) => {
            let (id, lemma) = shelf.at(&token);
            id == posted && is_middle(alloc, problem, posted, lemma)
        }
        Err(_) => false,
    }
}

// The same in a thread of its own, which has ended then.
fn post_apart<J: Subject + Send + Sync, R: Threads + Wait + Sync>(
    rt: &R,
    alloc: Global,
    problem: &Problem,
    shelf: &Shelf<J>,
    lemma: Lemma,
) -> bool
    requires lemma { IsLemmaOf J.problem J.margins lemma }
{
    let (posted, _) = join(
        rt,
        move || -> bool
            requires { IsLemmaOf J.problem J.margins lemma }
        { post_middle(rt, alloc, problem, shelf, lemma) },
        || (),
    );
    posted
}

// The lemma of the middle, under this number.
fn lemma_of(alloc: Global, problem: &Problem, margins: &Margins, id: u32) -> Option<Lemma>
    requires problem { IsSmall problem.now }
    requires margins { AreMargins margins.now }
    ensures { IfSome result (IsLemmaOf problem.now margins.now) }
{
    let Some(closed) = closing(alloc, problem, margins) else {
        return None;
    };
    let Ok(state) = closed.kept().first.try_clone(alloc) else {
        return None;
    };
    Some(Lemma::new(id, state))
}

// Puts it there, in a thread of its own or in this one.
fn post<J: Subject + Send + Sync, R: Threads + Wait + Sync>(
    rt: &R,
    alloc: Global,
    problem: &Problem,
    shelf: &Shelf<J>,
    margins: &Margins,
    id: u32,
) -> bool
    requires subject_problem { J.problem ≡ problem.now }
    requires subject_margins { J.margins ≡ margins.now }
    requires problem { IsSmall problem.now }
    requires margins { AreMargins margins.now }
{
    match lemma_of(alloc, problem, margins, id) {
        Some(lemma) if id == 1 => post_middle(rt, alloc, problem, shelf, lemma),
        Some(lemma) => post_apart(rt, alloc, problem, shelf, lemma),
        None => false,
    }
}

// Whether a walk from the beginning finds all of them, in their order, and nothing after them.
fn walk_finds_all<J: Subject>(alloc: Global, problem: &Problem, shelf: &Shelf<J>) -> bool {
    let mut mark = Mark::new();
    for wanted in 0..COUNT {
        match shelf.read_after(&mut mark) {
            Some((id, lemma)) if id == wanted && is_middle(alloc, problem, wanted, lemma) => {}
            _ => return false,
        }
    }
    shelf.read_after(&mut mark).is_none()
}

// Whether these are all of them, in their order.
fn are_all(alloc: Global, problem: &Problem, lemmas: &[Lemma]) -> bool {
    let mut wanted = 0u32;
    for lemma in lemmas {
        if !is_middle(alloc, problem, wanted, lemma) {
            return false;
        }
        wanted = wanted.saturating_add(1);
    }
    wanted == COUNT
}

// Whether a reader appends each once.
fn reader_finds_all<J: Subject, R: Wait>(
    rt: &R,
    alloc: Global,
    problem: &Problem,
    shelf: &Shelf<J>,
) -> bool {
    let mut reader = ShelfReader::new(shelf);
    let mut list = Vec::new(alloc);
    let first = reader.more(rt, alloc, &mut list);
    if first.is_err() || !are_all(alloc, problem, list.as_slice()) {
        return false;
    }
    let second = reader.more(rt, alloc, &mut list);
    second.is_ok() && are_all(alloc, problem, list.as_slice())
}

// Whether lemmas that this thread and others have put on a shelf are found there.
fn posted_are_found<J: Subject + Send + Sync, R: Threads + Wait + Sync>(
    rt: &R,
    alloc: Global,
    problem: &Problem,
    margins: &Margins,
) -> Result<bool, Fail>
    requires subject_problem { J.problem ≡ problem.now }
    requires subject_margins { J.margins ≡ margins.now }
    requires problem { IsSmall problem.now }
    requires margins { AreMargins margins.now }
{
    let shelf = Shelf::<J>::new(alloc)?;
    let mut posted = true;
    for id in 0..COUNT {
        posted = post(rt, alloc, problem, &shelf, margins, id) && posted;
    }
    let walked = walk_finds_all(alloc, problem, &shelf);
    let read = reader_finds_all(rt, alloc, problem, &shelf);
    Ok(posted && walked && read)
}

#[test]
fn lemmas_are_read_off_the_shelf(rt: HostRuntime) -> Result<(), Fail> {
    let alloc = rt.alloc();
    let Some(problem) = problem(alloc, SWAPPED) else {
        return Err(Fail::from("no problem"));
    };
    let margins = OPTIONS.margins();
    assert!(rt; posted_are_found::<Brand, HostRuntime>(&rt, alloc, &problem, &margins)?);
    Ok(())
}

fn may_cross<T: Send>() {}

fn may_be_shared<T: Sync>() {}

#[test]
fn shelves_and_tokens_are_shared() {
    may_cross::<Shelf<Brand>>();
    may_be_shared::<Shelf<Brand>>();
    may_cross::<Token<Brand>>();
    may_be_shared::<Token<Brand>>();
    may_cross::<Mark>();
    may_be_shared::<Mark>();
}
