// Where lemmas come from.
ghost use Rattle.lemma_shelf.specs.Lemmas.{Appends};

use crate::subject::Subject;
use cover_data::Lemma;
use std::alloc::{AllocError, Global};
use std::sync::Wait;

/// Whatever gives lemmas of a problem at its margins, a few more at each call.
pub trait LemmaSource<J: Subject> {
    // What is asked of a source before it gives lemmas, and is so again afterwards.
    ghost ready: { Self → Type 0 };

    // Whether the second gives lemmas from the same place as the first, which no call changes.
    ghost alike: { Self → Self → Type 0 };

    /// Appends the lemmas that the source has and did not give before, each with its number in the book. Without memory
    /// some of them, from the first on.
    fn more<R: Wait>(
        &mut self,
        rt: &R,
        alloc: Global,
        list: &mut Vec<Lemma>,
    ) -> Result<(), AllocError>
        requires { ready self.old }
        ensures ready { ready self.new }
        ensures alike { (x : Self) → alike x self.old → alike x self.new }
        ensures appended { Appends J.problem J.margins list.old.items list.new.items };
}
