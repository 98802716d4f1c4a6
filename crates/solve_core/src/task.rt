// What the workers of one search share.
ghost use Rattle.std.specs.Prelude.{◌≡◌, All, IfOk, IfSome};
ghost use Rattle.cover_book.specs.Keeps.{IsBook};
ghost use Rattle.cover_book.specs.Steps.{MayBeCalled};
ghost use Rattle.cover_book.specs.declared.calls.Call.TheVariants.{Learn};
ghost use Rattle.cover_book.specs.Model.{margins_of};
ghost use Rattle.book_lock.specs.Shared.{first_of};
ghost use Rattle.lemma_shelf.specs.Lemmas.{IsLemmaOf};

use book_lock::SharedBook;
use box_worker::{Room, lesson};
use cover_data::{ClosedPatch, KeptPatch, Lemma, Options};
use lemma_shelf::{Shelf, Subject};
use poly_graph::Problem;
use std::alloc::{AllocError, Global};
use std::sync::Wait;

/// A shared book, the problem and the options that it is of, whether lemmas are learned, and the shelf on which they are
/// put for all workers. Without a shelf each asks the book for them.
#[derive(Drop)]
pub struct Task<'a, J: Subject> {
    pub shared: &'a SharedBook,
    pub problem: &'a Problem,
    pub options: &'a Options,
    pub learns: bool,
    pub shelf: Option<Shelf<J>>,
    ghost problem_is: { (first_of shared.now).problem ≡ problem.now },
    ghost options_are: { (first_of shared.now).options ≡ options.now },
    ghost subject_problem: { J.problem ≡ problem.now },
    ghost subject_margins: { J.margins ≡ margins_of options.now },
}

impl<J: Subject> Task<'_, J> {
    /// What is to be learned of a closed run and its copy, where lemmas are learned, in room for the problem.
    pub fn lesson(
        &self,
        alloc: Global,
        room: &mut Room,
        run: &KeptPatch,
        own: Option<ClosedPatch>,
    ) -> Result<Option<ClosedPatch>, AllocError>
        requires book { IsBook (first_of self.now.shared.now) }
        requires own { IfSome own (λ k. MayBeCalled (first_of self.now.shared.now) (Learn k)) }
        requires room { room.old ≡ self.now.problem.now }
        ensures lesson { let b = first_of self.now.shared.now in
            IfOk result (λ o. IfSome o (λ k. MayBeCalled b (Learn k))) }
        ensures room { room.new ≡ room.old }
    {
        if !self.learns {
            return Ok(None);
        }
        lesson(alloc, room, self.options, run, own)
    }

    /// Puts a lemma on the shelf, if there is one. Where memory runs out the other workers do without it.
    pub fn post<R: Wait>(&self, rt: &R, lemma: Lemma)
        requires { IsLemmaOf J.problem J.margins lemma }
    {
        if let Some(shelf) = &self.shelf {
            let _ = shelf.post(rt, lemma.id(), lemma);
        }
    }

    /// Puts lemmas on the shelf, the latest one last.
    pub fn post_all<R: Wait>(&self, rt: &R, lemmas: Vec<Lemma>)
        requires { All (IsLemmaOf J.problem J.margins) lemmas.items }
    {
        for lemma in lemmas {
            self.post(rt, lemma);
        }
    }
}
