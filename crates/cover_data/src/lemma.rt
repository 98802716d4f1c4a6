// Lemmas.
ghost use Rattle.std.specs.Prelude.{◌≡◌, IfOk};

use crate::state::State;
use std::alloc::{AllocError, Global};
use std::marker::Model;

/// A lemma's number and its state, of which no point meets the form.
#[derive(Drop)]
pub struct Lemma {
    id: u32,
    state: State,
}

impl Model for Lemma {
    ghost use Rattle.cover_data.specs.Models.{LemmaModel};

    ghost Value = { LemmaModel };

    ghost view = { λ l. record { id = l.id; state = l.state } };
}

impl Lemma {
    /// The lemma of this number and this state.
    pub fn new(id: u32, state: State) -> Lemma
        ensures { result ≡ record { id = id; state = state } }
    {
        Lemma { id, state }
    }

    /// Its number.
    pub fn id(&self) -> u32
        ensures { result ≡ self.now.id }
    {
        self.id
    }

    /// Its state.
    pub fn state(&self) -> &State
        ensures { result.now ≡ self.now.state }
    {
        &self.state
    }

    /// The same lemma in memory of its own.
    pub fn try_clone(&self, alloc: Global) -> Result<Lemma, AllocError>
        ensures { IfOk result (λ l. l ≡ self.now) }
    {
        let state = self.state.try_clone(alloc)?;
        Ok(Lemma { id: self.id, state })
    }
}
