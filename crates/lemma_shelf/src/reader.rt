// A shelf that is read.
ghost use Rattle.std.specs.Prelude.{◌≡◌, ⊤};
ghost use Rattle.lemma_shelf.specs.Lemmas.{Appends};

use crate::shelf::{Mark, Shelf};
use crate::source::LemmaSource;
use crate::subject::Subject;
use cover_data::Lemma;
use std::alloc::{AllocError, Global};
use std::sync::Wait;

/// Reads a shelf from its beginning, each lemma once.
#[derive(Drop)]
pub struct ShelfReader<'a, J: Subject> {
    shelf: &'a Shelf<J>,
    mark: Mark,
}

impl<'a, J: Subject> ShelfReader<'a, J> {
    /// At the beginning of the shelf.
    pub fn new(shelf: &'a Shelf<J>) -> ShelfReader<'a, J>
        ensures shelf { result.shelf.now ≡ shelf.now }
        ensures begins { result.mark.next ≡ 0 }
    {
        ShelfReader {
            shelf,
            mark: Mark::new(),
        }
    }
}

impl<J: Subject> LemmaSource<J> for ShelfReader<'_, J> {
    ghost ready = { λ _. ⊤ };

    ghost alike = { λ x y. y.shelf.now ≡ x.shelf.now };

    fn more<R: Wait>(
        &mut self,
        _rt: &R,
        alloc: Global,
        list: &mut Vec<Lemma>,
    ) -> Result<(), AllocError> {
        while let Some((_, lemma)) = self.shelf.read_after(&mut self.mark) {
            list.push(lemma.try_clone(alloc)?)?;
        }
        Ok(())
    }
}
