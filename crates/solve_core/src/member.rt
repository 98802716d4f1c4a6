// A worker of a team.
ghost use Rattle.solve_core.specs.Members.{IsMemberOf, HasSeatsOf};

use crate::asker::BookLemmas;
use crate::gate::Gate;
use crate::task::Task;
use crate::worker::Worker;
use lemma_shelf::{ShelfReader, Subject};
use std::alloc::Global;
use std::sync::Wait;

/// A worker, and what it asks for lemmas where there is no shelf.
#[derive(Drop)]
pub struct Member<'a> {
    pub worker: Worker,
    pub asker: BookLemmas<'a>,
}

impl Member<'_> {
    /// Works with the lemmas of the shelf, or where there is none with those that it asks the book for.
    pub fn work<J: Subject, R: Wait, G: Gate>(
        &mut self,
        rt: &R,
        alloc: Global,
        task: &Task<J>,
        gate: &G,
    )
        requires { IsMemberOf task.now.shared.now self.old }
        ensures { HasSeatsOf task.now.shared.now self.new }
    {
        match &task.shelf {
            Some(shelf) => {
                let mut source = ShelfReader::new(shelf);
                self.worker.run(rt, alloc, task, &mut source, gate);
            }
            None => self.worker.run(rt, alloc, task, &mut self.asker, gate),
        }
    }
}
