// The contraction of a state before it is split: atoms are marked and pulled. Which ones, in which order and how often
// is a heuristic that promises nothing; that each step is lawful and honest is what the patch ensures.
ghost use Rattle.std.specs.Prelude.{◌≡◌, ◌<◌, length};

use crate::open_patch::OpenPatch;
use crate::scout::{Emptied, Scout};
use crate::step::Outcome;
use cover_rule::State;
use poly_graph::Mark;
use std::alloc::{AllocError, Global};

/// At most so many times an atom is pulled at a state.
const MOST_ROUNDS: u32 = 10;

/// At most so many rounds of combinations are made at a state.
const MOST_COMBINING_ROUNDS: u32 = 2;

/// A patch on which steps are taken, and the scout that guides them.
#[derive(Drop)]
pub struct Contraction<'a, 'b> {
    pub alloc: Global,
    pub open: OpenPatch<'a, 'b>,
    pub scout: Scout,
}

// The one mark of the lemma that the state lacks, where it is a yes of an atom that is not marked.
fn lacking(lemma: &State, state: &State) -> Option<u32> {
    let marks = lemma.lits().marks();
    let others = state.lits().marks();
    let mut found = None;
    for j in 0..marks.len() {
        if j >= others.len() {
            return None;
        }
        match (marks[j], others[j]) {
            (Mark::Neither, _) => {}
            (Mark::Yes, Mark::Yes) => {}
            (Mark::No, Mark::No) => {}
            (Mark::Yes, Mark::Neither) => {
                if found.is_some() {
                    return None;
                }
                found = u32::try_from(j).ok();
            }
            _ => return None,
        }
    }
    found
}

// The atom that the lemma lets be marked no at the state.
fn banned_by(lemma: &State, state: &State) -> Option<u32> {
    let atom = lacking(lemma, state)?;
    let same = lemma.space().len() == state.space().len();
    if same && state.space().within(lemma.space()) {
        Some(atom)
    } else {
        None
    }
}

// The atom that the lemma at this place lets be marked no.
fn banned_at(patch: &OpenPatch, place: usize) -> Option<u32>
    requires { place < length patch.now.lemmas }
{
    let lemmas = patch.lemmas();
    banned_by(lemmas[place].state(), patch.patch().reached())
}

/// Whether an atom is not marked.
pub fn any_unmarked(state: &State) -> bool {
    for mark in state.lits().marks() {
        if matches!(mark, Mark::Neither) {
            return true;
        }
    }
    false
}

impl<'a, 'b> Contraction<'a, 'b> {
    // Narrows by atom j where it is marked, and makes those due that depend on what fell.
    fn pull(&mut self, j: u32) -> Result<(), AllocError>
        requires { j < length self.old.open.problem.atoms }
        ensures { self.new.open ≡ self.old.open }
    {
        match self.open.narrow(j)? {
            Outcome::Void => {
                self.scout.note_void(Emptied::Atom(j));
            }
            Outcome::Done => {
                self.scout.note_space(self.open.patch().reached().space());
            }
            Outcome::Idle | Outcome::Refused => {}
        }
        Ok(())
    }

    // Pulls each atom that is due once.
    fn pull_round(&mut self) -> Result<(), AllocError>
        ensures { self.new.open ≡ self.old.open }
    {
        let problem = self.open.patch().problem();
        for j in 0..problem.atoms().len() {
            if self.scout.take_due(j) && !self.scout.is_void() {
                self.pull(j as u32)?;
            }
        }
        Ok(())
    }

    // Marks atom j yes where the form can't hold without it; then it is due.
    fn mark(&mut self, j: u32) -> Result<(), AllocError>
        requires { j < length self.old.open.problem.atoms }
        ensures { self.new.open ≡ self.old.open }
    {
        if let Outcome::Done = self.open.unit(j)? {
            self.scout.make_due(j as usize);
        }
        Ok(())
    }

    // Marks the atoms yes that the form needs.
    fn mark_needed(&mut self) -> Result<(), AllocError>
        ensures { self.new.open ≡ self.old.open }
    {
        let problem = self.open.patch().problem();
        for j in 0..problem.atoms().len() {
            let j = j as u32;
            if self.scout.is_asked(self.open.patch().reached(), j) {
                self.mark(j)?;
            }
        }
        Ok(())
    }

    // Marks an atom no where the lemma at this place lets it.
    fn ban(&mut self, place: usize) -> Result<(), AllocError>
        requires { place < length self.old.open.lemmas }
        ensures { self.new.open ≡ self.old.open }
    {
        let Some(j) = banned_at(&self.open, place) else {
            return Ok(());
        };
        if (j as usize) < self.open.patch().problem().atoms().len() {
            self.open.ban(j, place)?;
        }
        Ok(())
    }

    // Marks atoms no where lemmas let them.
    fn ban_all(&mut self) -> Result<(), AllocError>
        ensures { self.new.open ≡ self.old.open }
    {
        for place in 0..self.open.lemmas().len() {
            self.ban(place)?;
        }
        Ok(())
    }

    // Where an atom is not marked yet, marks those that lemmas exclude, looks at the state and marks those that the form
    // needs.
    fn look_again(&mut self) -> Result<(), AllocError>
        ensures { self.new.open ≡ self.old.open }
    {
        if !any_unmarked(self.open.patch().reached()) {
            return Ok(());
        }
        self.ban_all()?;
        let patch = self.open.patch();
        if !self.scout.look(self.alloc, patch)? {
            self.scout.note_void(Emptied::Form);
            return Ok(());
        }
        self.scout.look_at_children(self.alloc, patch.problem())?;
        self.mark_needed()
    }

    // Pulls what is due, and where nothing is left to pull looks again; whether something is due then.
    fn go_on(&mut self) -> Result<bool, AllocError>
        ensures { self.new.open ≡ self.old.open }
    {
        self.pull_round()?;
        if self.scout.is_void() {
            return Ok(false);
        }
        if self.scout.any_due() {
            return Ok(true);
        }
        self.look_again()?;
        Ok(!self.scout.is_void() && self.scout.any_due())
    }

    // Goes on while something is due, but no more than ten times.
    fn go_on_while_due(&mut self) -> Result<(), AllocError>
        ensures { self.new.open ≡ self.old.open }
    {
        for _ in 0..MOST_ROUNDS {
            if !self.go_on()? {
                return Ok(());
            }
        }
        Ok(())
    }

    // Combines marked atoms, each alone, then as equations are solved, and then as their linear relaxation chooses; whether
    // an axis fell by about a tenth, and nothing is known by which nothing is left.
    fn combine_round(&mut self) -> Result<bool, AllocError>
        ensures { self.new.open ≡ self.old.open }
    {
        self.combine_all()?;
        if !self.scout.is_void() {
            self.eliminate()?;
        }
        if !self.scout.is_void() {
            self.relax()?;
        }
        Ok(!self.scout.is_void() && self.scout.any_due())
    }

    // Combines what is marked, and goes on with what is due then, but no more than twice.
    fn combine_while_due(&mut self) -> Result<(), AllocError>
        ensures { self.new.open ≡ self.old.open }
    {
        for _ in 0..MOST_COMBINING_ROUNDS {
            if self.scout.is_void() || !self.combine_round()? {
                return Ok(());
            }
            self.go_on_while_due()?;
        }
        Ok(())
    }

    /// Takes steps at the state: marks the atoms that the form needs, and narrows by those that are marked, again
    /// while an axis that they depend on falls by about a tenth, but no more than ten times; then narrows by combinations of
    /// them, and once more. By what nothing is left, where that is met.
    pub fn take_steps(&mut self) -> Result<Option<Emptied>, AllocError>
        ensures { self.new.open ≡ self.old.open }
    {
        self.look_again()?;
        self.go_on_while_due()?;
        self.combine_while_due()?;
        Ok(self.scout.take_void())
    }
}
