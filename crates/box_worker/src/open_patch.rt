// A patch on which steps are taken, and the lemmas that it may quote.
ghost use Rattle.std.specs.Prelude.{◌≡◌, ◌<◌, [], None, length};
ghost use Rattle.cover_rule.specs.Patch.{problem_in, loosenings_in};
ghost use Rattle.box_worker.specs.OpenPatch.{IsOpenFor, open_model};
ghost use Rattle.box_worker.specs.Worked.{AreLemmasFor};

use crate::step::{self, Outcome};
use cover_rule::{Lemma, Narrower, Patch};
use dyadic::Dy;
use std::alloc::AllocError;
use std::marker::Model;

/// A patch that has not ended, and the lemmas that it may quote. Clauses see of it what no step changes: the problem, the
/// margins, the lemmas and the state that it began at.
#[derive(Drop)]
pub struct OpenPatch<'a, 'b> {
    patch: Patch<'a>,
    lemmas: &'b [Lemma],
}

impl<'a, 'b> Model for OpenPatch<'a, 'b> {
    ghost use Rattle.box_worker.specs.OpenPatch.{OpenModel, IsUnderWay, open_model};

    ghost Value = { OpenModel };

    ghost view = { λ o. open_model o.lemmas.now o.patch };

    ghost invariant = { λ o. IsUnderWay o.lemmas.now o.patch };
}

impl<'a, 'b> OpenPatch<'a, 'b> {
    /// The patch, which has quoted nothing yet.
    pub fn new(patch: Patch<'a>, lemmas: &'b [Lemma]) -> OpenPatch<'a, 'b>
        requires lemmas { AreLemmasFor (problem_in patch) (loosenings_in patch) lemmas.now }
        requires quoted { patch.kept.quoted ≡ [] }
        requires open { patch.kept.end ≡ None }
        ensures { result ≡ open_model lemmas.now patch.entry }
    {
        OpenPatch { patch, lemmas }
    }

    /// The patch, to go on with otherwise.
    pub fn into_patch(self) -> Patch<'a>
        ensures { IsOpenFor self.entry result }
    {
        let OpenPatch { patch, lemmas: _ } = self;
        patch
    }

    /// The patch.
    pub fn patch(&self) -> &Patch<'a>
        ensures { result.now.problem ≡ self.now.problem }
    {
        &self.patch
    }

    /// The lemmas that it may quote.
    pub fn lemmas(&self) -> &'b [Lemma]
        ensures { result.now ≡ self.now.lemmas }
    {
        self.lemmas
    }

    /// Makes the middle of the space that it has reached known, and the enclosures over it.
    pub fn find_centre(&mut self)
        ensures { self.new ≡ self.old }
    {
        self.patch.find_centre();
    }

    /// Narrows by atom j where it is marked, if that leaves less of the space.
    pub fn narrow(&mut self, j: u32) -> Result<Outcome, AllocError>
        requires { j < length self.old.problem.atoms }
        ensures { self.new ≡ self.old }
    {
        step::narrow(&mut self.patch, j)
    }

    /// Combines these atoms where they are marked, if that leaves less of the space.
    pub fn combine(&mut self, multipliers: &[(u32, Dy)]) -> Result<Outcome, AllocError>
        ensures { self.new ≡ self.old }
    {
        step::narrow_by(&mut self.patch, Narrower::Combine(multipliers))
    }

    /// Marks atom j yes where the form can't hold without it.
    pub fn unit(&mut self, j: u32) -> Result<Outcome, AllocError>
        requires { j < length self.old.problem.atoms }
        ensures { self.new ≡ self.old }
    {
        step::unit(&mut self.patch, j)
    }

    /// Marks atom j no where the lemma at this place covers the state with the atom marked yes.
    pub fn ban(&mut self, j: u32, place: usize) -> Result<Outcome, AllocError>
        requires atom { j < length self.old.problem.atoms }
        requires place { place < length self.old.lemmas }
        ensures { self.new ≡ self.old }
    {
        step::ban(&mut self.patch, self.lemmas, j, place)
    }
}
