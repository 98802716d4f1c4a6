// A book as the object of a lock.
use crate::object::Object;
use cover_book::{Book, Call, Reply};

impl Object<Call, Reply> for Book {
    ghost use Rattle.cover_book.specs.Steps.{MayBeCalled, BookStep};
    ghost use Rattle.cover_book.proofs.Grown.{condition_lasts};

    ghost meets = { MayBeCalled };

    ghost steps = { BookStep };

    ghost lasts = { condition_lasts };

    fn run(&mut self, call: Call) -> Reply {
        Book::run(self, call)
    }
}
