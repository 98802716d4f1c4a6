// The live nodes of a book, one after the other.
ghost use Rattle.std.specs.Prelude.{◌≡◌};
ghost use Rattle.std.specs.Iterator.{YieldsFirst, item_count};
ghost use Rattle.cover_book.specs.Verdict.{live_numbers_after};

use crate::book::Book;

/// The numbers of a book's live nodes, rising.
#[derive(Drop)]
pub struct LiveNodes<'a> {
    book: &'a Book,
    next: u32,
}

impl Iterator for LiveNodes<'_> {
    type Item = u32;

    ghost next_gives = { YieldsFirst (λ s. live_numbers_after s.book.now s.next) };

    ghost remaining = { item_count (λ s. live_numbers_after s.book.now s.next) };

    fn next(&mut self) -> Option<u32> {
        match self.book.live_after(self.next) {
            Some(node) => {
                self.next = node + 1;
                Some(node)
            }
            None => None,
        }
    }
}

impl Book {
    /// The numbers of the live nodes, rising; no memory is taken.
    pub fn live_nodes(&self) -> LiveNodes<'_>
        ensures { live_numbers_after result.book.now result.next ≡ live_numbers_after self.now 0 }
    {
        LiveNodes {
            book: self,
            next: 0,
        }
    }
}
