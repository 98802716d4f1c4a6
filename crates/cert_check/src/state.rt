// States of trees.
ghost use Rattle.std.specs.Prelude.{◌≡◌, ◌<◌, length, IfOk};
ghost use Rattle.cover_model.specs.State.{in_yes, in_no, undecided};
ghost use Rattle.cert_check.specs.States.{state_of};

use ival::Space;
use poly_graph::{Lits, Mark};
use std::alloc::{AllocError, Global};

/// A space with a mark for each atom.
#[derive(Drop)]
pub struct State {
    pub space: Space,
    pub lits: Lits,
}

impl State {
    /// The same state in memory of its own.
    pub fn try_clone(&self, alloc: Global) -> Result<State, AllocError>
        ensures { IfOk result (λ s. state_of s ≡ state_of self.now) }
    {
        let space = self.space.try_clone(alloc)?;
        let lits = self.lits.try_clone(alloc)?;
        Ok(State { space, lits })
    }

    /// Whether the atom is marked yes.
    pub fn in_yes(&self, j: u32) -> bool
        requires { j < length self.now.lits }
        ensures { result ≡ in_yes (state_of self.now) j }
    {
        match self.lits.mark(j) {
            Mark::Yes => true,
            Mark::No => false,
            Mark::Neither => false,
        }
    }

    /// Whether the atom is marked no.
    pub fn in_no(&self, j: u32) -> bool
        requires { j < length self.now.lits }
        ensures { result ≡ in_no (state_of self.now) j }
    {
        match self.lits.mark(j) {
            Mark::No => true,
            Mark::Yes => false,
            Mark::Neither => false,
        }
    }

    /// Whether the atom has no mark.
    #[tactic(auto, using(crate::proofs::OneMark::undecided_told))]
    pub fn undecided(&self, j: u32) -> bool
        requires { j < length self.now.lits }
        ensures { result ≡ undecided (state_of self.now) j }
    {
        match self.lits.mark(j) {
            Mark::Neither => true,
            Mark::Yes => false,
            Mark::No => false,
        }
    }
}
