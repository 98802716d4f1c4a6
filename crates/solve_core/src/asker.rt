// A shared book that is asked for its lemmas.
ghost use Rattle.std.specs.Prelude.{◌≡◌};

use book_lock::{BookSeat, SharedBook};
use cover_data::Lemma;
use lemma_shelf::{LemmaSource, Subject};
use std::alloc::{AllocError, Global};
use std::sync::Wait;

/// Asks a shared book for its lemmas at a seat of its own, each lemma once.
#[derive(Drop)]
pub struct BookLemmas<'a> {
    pub shared: &'a SharedBook,
    pub seat: BookSeat,
    pub from: u32,
}

impl<'a> BookLemmas<'a> {
    /// Asks from the lemma of this number on.
    pub fn new(shared: &'a SharedBook, seat: BookSeat, from: u32) -> BookLemmas<'a>
        ensures shared { result.shared.now ≡ shared.now }
        ensures seat { result.seat ≡ seat }
    {
        BookLemmas { shared, seat, from }
    }
}

impl<J: Subject> LemmaSource<J> for BookLemmas<'_> {
    ghost use Rattle.std.specs.Prelude.{◌≡◌};
    ghost use Rattle.solve_core.specs.Askers.{IsAsker};

    ghost ready = { λ a. IsAsker J.problem J.margins a.shared.now a.seat };

    ghost alike = { λ x y. y.shared.now ≡ x.shared.now };

    fn more<R: Wait>(
        &mut self,
        rt: &R,
        _alloc: Global,
        list: &mut Vec<Lemma>,
    ) -> Result<(), AllocError> {
        let mut lemmas = self.shared.lemmas_from(rt, &mut self.seat, self.from)?;
        let from = match lemmas.last() {
            Some(lemma) => lemma.id().saturating_add(1),
            None => self.from,
        };
        list.append(&mut lemmas)?;
        self.from = from;
        Ok(())
    }
}
