// The shelf.
ghost use Rattle.std.specs.Prelude.{◌≡◌, ◌<◌, ◌^◌, IfOk, IfErr, IfSome, IfNone};
ghost use Rattle.lemma_shelf.specs.Lemmas.{IsLemmaOf};
ghost use Rattle.boxcar.specs.Table.{Shows};

use crate::subject::Subject;
use boxcar::tag::Tag;
use boxcar::{Keeps, Pushed};
use cover_data::Lemma;
use std::alloc::{AllocError, Global};
use std::marker::PhantomData;
use std::sync::Wait;

/// What each lemma on a shelf keeps: it is one of the shelf's problem at its margins.
pub struct HoldsFor<J> {
    of: PhantomData<J>,
}

impl<J: Subject> Keeps<Lemma> for HoldsFor<J> {
    ghost use Rattle.lemma_shelf.specs.Lemmas.{IsLemmaOf};

    ghost holds = { λ _ _ lemma. IsLemmaOf J.problem J.margins lemma };
}

/// Lemmas that only grow in number. Threads post and read them through a `&`, and none waits for another but while the
/// shelf grows.
#[derive(Drop)]
pub struct Shelf<J: Subject> {
    pub(crate) items: boxcar::Vec<Lemma, Global, HoldsFor<J>>,
}

/// What shows that a lemma was posted.
#[derive(Drop)]
pub struct Token<J: Subject> {
    pub(crate) pushed: Pushed<Lemma, Global, HoldsFor<J>>,
}

/// How far a walk along a shelf has come.
#[derive(Drop)]
pub struct Mark {
    pub(crate) next: usize,
}

impl Mark {
    /// At the beginning.
    pub fn new() -> Mark
        ensures { result.next ≡ 0 }
    {
        Mark { next: 0 }
    }
}

impl<J: Subject> Shelf<J> {
    /// An empty shelf.
    pub fn new(alloc: Global) -> Result<Shelf<J>, AllocError> {
        Ok(Shelf {
            items: boxcar::Vec::with_rule(alloc, Tag::empty())?,
        })
    }

    /// Puts a lemma with its number on the shelf, for all threads. Without memory it comes back.
    pub fn post<R: Wait>(&self, rt: &R, id: u32, lemma: Lemma) -> Result<Token<J>, Lemma>
        requires id { id ≡ lemma.id }
        requires lemma { IsLemmaOf J.problem J.margins lemma }
        ensures own { IfOk result (λ t. Shows self.now.items t.pushed) }
        ensures posted { IfOk result (λ t. t.pushed.value ≡ lemma) }
        ensures err { IfErr result (λ l. l ≡ lemma) }
    {
        prove!(id == lemma.id());
        match self.items.push_shown(rt, lemma) {
            Ok(pushed) => Ok(Token { pushed }),
            Err(lemma) => Err(lemma),
        }
    }

    /// The number and the lemma that were posted with the token.
    pub fn at(&self, token: &Token<J>) -> (u32, &Lemma)
        requires { Shows self.now.items token.now.pushed }
        ensures id { result.0 ≡ token.now.pushed.value.id }
        ensures posted { result.1.now ≡ token.now.pushed.value }
        ensures lemma { IsLemmaOf J.problem J.margins result.1.now }
    {
        match self.items.get_seen(token.pushed.index(), &token.pushed) {
            Some(lemma) => (lemma.id(), lemma),
            None => unreachable!(),
        }
    }

    /// The next lemma of a walk, with its number, and the walk goes on after it. None where the walk finds no more; it
    /// may be asked again later. A lemma whose place a walk has passed before it was there is not found by this walk.
    pub fn read_after(&self, mark: &mut Mark) -> Option<(u32, &Lemma)>
        ensures id { IfSome result (λ r. r.0 ≡ r.1.now.id) }
        ensures lemma { IfSome result (λ r. IsLemmaOf J.problem J.margins r.1.now) }
        ensures rises { IfSome result (λ _. mark.old.next < mark.new.next) }
        ensures ends { mark.new.next < 2 ^ 64 }
        ensures stays { IfNone result (mark.new.next ≡ mark.old.next) }
    {
        let after = mark.next.checked_add(1)?;
        if let Some(lemma) = self.items.get(mark.next) {
            mark.next = after;
            return Some((lemma.id(), lemma));
        }
        let rest = self.items.iter();
        for (place, lemma) in rest {
            if place >= mark.next {
                mark.next = place.saturating_add(1);
                return Some((lemma.id(), lemma));
            }
        }
        None
    }
}
