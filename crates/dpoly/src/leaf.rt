// The search on a state that a cover left open or stuck.
ghost use Rattle.std.specs.Prelude.{◌<◌, ◌^◌, IfOk};
ghost use Rattle.cover_line.specs.Views.{line_of};
ghost use Rattle.cert_resumed.specs.Resumed.{is_own};
ghost use Rattle.cert_resume.specs.Calls.{Passes, Searches};
ghost use Rattle.cert_resume.specs.Going.{IsSearchable, IsWithinRoot, MayGoOn, options_now};
ghost use Rattle.cert_resume.specs.Request.{IsShare, share_of};
ghost use Rattle.cert_resume.specs.Searched.{IsSearchedOn};

use cert_resume::{Going, Task, note_book, opened};
use cert_text::append_rule;
use cover_book::Book;
use cover_data::{Point, State};
use cover_line::Rule;
use solve_core::{Gate, search_on};
use std::alloc::{AllocError, Global};
use std::mem;
use std::sync::Wait;
use std::thread::Threads;

/// What books are searched with: threads, and the gate that is called at each box.
#[derive(Drop)]
pub struct Engine<'a, R, G> {
    pub rt: &'a R,
    pub gate: &'a G,
}

// The book, searched on by its own options until it has an answer, perhaps over to version 5.
fn searched<R: Threads + Wait + Sync, G: Gate + Sync>(
    engine: &Engine<'_, R, G>,
    alloc: Global,
    book: Book,
) -> Result<Book, AllocError>
    ensures { IfOk result (IsSearchedOn book) }
{
    search_on(engine.rt, alloc, book, engine.gate)
}

// The state is searched on by a book of its own, whose tree and lemmas are appended. Answers the point that it keeps.
fn search_leaf<R: Threads + Wait + Sync, G: Gate + Sync>(
    going: &mut Going,
    task: &Task<'_>,
    engine: &Engine<'_, R, G>,
    state: &State,
) -> Result<Option<Point>, AllocError>
    requires searchable { IsSearchable task.now.problem.now
        (options_now task.now.options going.old) }
    requires may { MayGoOn task.now.problem.now
        (options_now task.now.options going.old) going.old }
    requires state { IsWithinRoot task.now.problem.now state.now }
    ensures { Searches task.now.problem.now task.now.options state.now going.old going.new result }
{
    let alloc = *going.main.allocator();
    let book = opened(&mut going.lemmas, going.budget, going.version, task, state)?;
    let book = searched(engine, alloc, book)?;
    let point = note_book(going, &book)?;
    drop(mem::replace(&mut going.lemmas, book.into_lemmas()?));
    Ok(point)
}

/// The state of this place, counted from 0, which the rule leaves: one of the share is searched on, for another one the
/// rule is appended. Answers the point that was found.
pub fn pass_leaf<R: Threads + Wait + Sync, G: Gate + Sync>(
    going: &mut Going,
    task: &Task<'_>,
    engine: &Engine<'_, R, G>,
    place: usize,
    rule: &Rule,
    state: &State,
) -> Result<Option<Point>, AllocError>
    requires searchable { IsSearchable task.now.problem.now
        (options_now task.now.options going.old) }
    requires share { IsShare task.now.share }
    requires may { MayGoOn task.now.problem.now
        (options_now task.now.options going.old) going.old }
    requires state { IsWithinRoot task.now.problem.now state.now }
    requires room { going.old.others < 2 ^ 63 }
    ensures { let own = is_own (share_of task.now.share) place in
        Passes own task.now.problem.now task.now.options state.now (line_of rule.now)
        going.old going.new result }
{
    if task.share.has(place) {
        return search_leaf(going, task, engine, state);
    }
    append_rule(&mut going.main, rule)?;
    going.others += 1;
    Ok(None)
}
