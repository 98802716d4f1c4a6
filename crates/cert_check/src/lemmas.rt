// The lemmas of a cover, of which a part may keep those of the one before.
ghost use Rattle.std.specs.Prelude.{◌≡◌, ◌<◌, ◌≤◌, [], ◌∷◌, ◌++◌, ◌==◌, take, length, map, slice_get, All, IfOk, OnOk, None, Some};
ghost use Rattle.interval_model.specs.Space.{space_within};
ghost use Rattle.cover_model.specs.Carried.{carried};
ghost use Rattle.cover_model.specs.Rules.{lemma_covers};
ghost use Rattle.cover_model.specs.State.{state_of as of_space};
ghost use Rattle.poly_graph.specs.Marks.{marks_of};
ghost use Rattle.poly_graph.specs.Problem.{first_crossed};
ghost use Rattle.poly_graph.specs.ProblemViews.{problem_of};
ghost use Rattle.ival.specs.SpaceViews.{space_of};
ghost use Rattle.cert_check.specs.States.{HasMore, IsLike, lemma_of, lengthened, state_of};
ghost use Rattle.cert_check.specs.Dues.{AllFit};

use crate::covering::marks_cover;
use crate::lists::marks;
use crate::standing::Lemma;
use crate::state::State;
use form_truth::{Root, root_space};
use ival::Space;
use poly_graph::{Lits, Problem};
use std::alloc::{AllocError, Global};
use std::marker::Model;

/// The states of lemmas, by number. Lemmas that go on to the next part stay as they were written: on the axes that the
/// problem did not have then all have the same domains, which are kept once.
#[derive(Drop)]
pub struct Lemmas {
    written: Vec<Lemma>,
    // The domains of a lemma on the axes beyond its own.
    beyond: Space,
    // A lemma has a mark for each of so many atoms at least.
    atoms: usize,
}

impl Model for Lemmas {
    ghost use Rattle.std.specs.Prelude.{List, map};
    ghost use Rattle.cover_model.specs.State as cover;
    ghost use Rattle.ival.specs.SpaceViews.{space_of};
    ghost use Rattle.cert_check.specs.States.{lengthened_lemma};

    ghost Value = { List cover.State };

    ghost view = { λ t. map (lengthened_lemma (space_of t.beyond) t.atoms) t.written.items };
}

// The space with the domains of the other one on the axes that it lacks.
#[tactic(auto, using(crate::proofs::Carried::one_domain, crate::proofs::Carried::all_domains, crate::proofs::Carried::length_partly, crate::proofs::Carried::none_lacks))]
fn lengthened(alloc: Global, space: &Space, beyond: &Space) -> Result<Space, AllocError>
    ensures { IfOk result (λ s. space_of s
        ≡ lengthened (space_of space.now) (space_of beyond.now)) }
{
    if beyond.len() <= space.len() {
        return space.try_clone(alloc);
    }
    let mut whole = beyond.try_clone(alloc)?;
    for axis in 0..space.len() {
        whole.set(axis, space.get(axis));
    }
    Ok(whole)
}

// Whether the space lies within the other one, which has the domains of the last one on the axes that it lacks.
fn within(alloc: Global, space: &Space, outer: &Space, beyond: &Space) -> Result<bool, AllocError>
    requires { length (space_of space.now)
        ≡ length (lengthened (space_of outer.now) (space_of beyond.now)) }
    ensures { IfOk result (λ t. t ≡ space_within (space_of space.now)
        (lengthened (space_of outer.now) (space_of beyond.now))) }
{
    if space.len() == outer.len() {
        return Ok(space.within(outer));
    }
    let whole = lengthened(alloc, outer, beyond)?;
    Ok(space.within(&whole))
}

// The marks of so many atoms in the state of the lemma.
fn marks_for(alloc: Global, lemma: &Lemma, count: usize) -> Result<Lits, AllocError>
    requires { lemma.now.atoms ≤ count }
    ensures { IfOk result (λ m. m ≡ marks_of count lemma.now.yes.items lemma.now.no.items) }
{
    match marks(alloc, count, &lemma.yes, &lemma.no)? {
        Some(marks) => Ok(marks),
        None => unreachable!(),
    }
}

impl Lemmas {
    /// No lemma.
    pub fn new(alloc: Global) -> Lemmas
        ensures { result ≡ [] }
    {
        Lemmas {
            written: Vec::new(alloc),
            beyond: Space {
                axes: Vec::new(alloc),
            },
            atoms: 0,
        }
    }

    /// How many lemmas there are.
    pub fn len(&self) -> usize
        ensures { result ≡ length self.now }
    {
        self.written.len()
    }

    /// Whether there is no lemma.
    pub fn is_empty(&self) -> bool
        ensures { result ≡ (length self.now == 0) }
    {
        self.len() == 0
    }

    // Adds the first lemma, which has nothing beyond its own axes and atoms.
    fn push_first(&mut self, lemma: Lemma) -> Result<(), AllocError>
        requires { self.old ≡ [] }
        ensures { OnOk result (self.new ≡ lemma_of lemma ∷ []) }
    {
        self.beyond.axes.clear();
        self.atoms = 0;
        self.written.push(lemma)?;
        Ok(())
    }

    /// Adds a lemma.
    pub fn push(&mut self, lemma: Lemma) -> Result<(), AllocError>
        requires { All (IsLike (lemma_of lemma)) self.old }
        ensures { OnOk result (self.new ≡ self.old ++ lemma_of lemma ∷ []) }
    {
        if self.is_empty() {
            return self.push_first(lemma);
        }
        self.written.push(lemma)?;
        Ok(())
    }

    /// Leaves the first lemmas, so many at most.
    pub fn truncate(&mut self, count: usize)
        ensures { self.new ≡ take count self.old }
    {
        self.written.truncate(count);
    }

    /// The lemmas as those of a problem that has their axes and atoms.
    pub fn carried(self, alloc: Global, problem: &Problem) -> Result<Lemmas, AllocError>
        requires box_stands { first_crossed (problem_of problem.now) ≡ None }
        requires more { All (HasMore problem.now) self }
        ensures carried { IfOk result (λ v. v ≡ map (carried (problem_of problem.now)) self) }
        ensures fit { IfOk result (AllFit problem.now) }
    {
        match root_space(alloc, problem)? {
            Root::Empty(_) => unreachable!(),
            Root::Space(root) => {
                let Lemmas {
                    written,
                    beyond,
                    ..
                } = self;
                Ok(Lemmas {
                    written,
                    beyond: lengthened(alloc, &beyond, &root)?,
                    atoms: problem.atoms().len(),
                })
            }
        }
    }

    /// Whether the lemma of this number covers the state.
    pub fn covers(&self, alloc: Global, i: u32, state: &State) -> Result<bool, AllocError>
        requires { All (IsLike (state_of state.now)) self.now }
        ensures { IfOk result (λ t. t ≡ lemma_covers self.now i (state_of state.now)) }
    {
        let i = i as usize;
        if i >= self.written.len() {
            return Ok(false);
        }
        let lemma = &self.written[i];
        if !within(alloc, &state.space, &lemma.space, &self.beyond)? {
            return Ok(false);
        }
        Ok(marks_cover(lemma, &state.lits))
    }

    /// The space and the marks of the lemma of this number.
    pub fn state(&self, alloc: Global, i: usize) -> Result<(Space, Lits), AllocError>
        requires { i < length self.now }
        ensures { IfOk result (λ s. slice_get self.now i ≡ Some (of_space (space_of s.0) s.1)) }
    {
        let lemma = &self.written[i];
        let space = lengthened(alloc, &lemma.space, &self.beyond)?;
        let marks = marks_for(alloc, lemma, lemma.atoms.max(self.atoms))?;
        Ok((space, marks))
    }
}
