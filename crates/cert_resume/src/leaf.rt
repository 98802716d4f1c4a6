// The book of a state that was left open or stuck.
ghost use Rattle.std.specs.Prelude.{IfOk};
ghost use Rattle.cover_data.specs.Margins.{options_in};
ghost use Rattle.cert_resume.specs.Calls.{IsOpened};
ghost use Rattle.cert_resume.specs.Going.{IsSearchable, IsWithinRoot, MayOpen};

use crate::request::Share;
use cover_book::Book;
use cover_data::{Options, State, StoredState};
use poly_graph::Problem;
use std::alloc::AllocError;
use std::mem;

/// What states are searched for.
#[derive(Drop)]
pub struct Task<'a> {
    pub problem: &'a Problem,
    pub options: Options,
    pub share: Share,
}

/// The book that opens in the state in this version of the format, with the lemmas, which are taken, and with so many
/// branches to make.
pub fn opened(
    lemmas: &mut Vec<StoredState>,
    budget: u32,
    version: u32,
    task: &Task<'_>,
    state: &State,
) -> Result<Book, AllocError>
    requires searchable { IsSearchable task.now.problem.now (options_in version task.now.options) }
    requires may { MayOpen task.now.problem.now (options_in version task.now.options)
        lemmas.old.items budget }
    requires state { IsWithinRoot task.now.problem.now state.now }
    ensures { IfOk result (IsOpened task.now.problem.now (options_in version task.now.options)
        lemmas.old.items budget state.now) }
{
    let alloc = *lemmas.allocator();
    let kept = mem::replace(lemmas, Vec::new(alloc));
    let options = Options {
        version,
        budget,
        ..task.options
    };
    Book::begin_at(
        alloc,
        task.problem.try_clone(alloc)?,
        options,
        kept,
        state.try_clone(alloc)?,
    )
}
