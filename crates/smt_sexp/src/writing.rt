// Expressions that are being written.
ghost use Rattle.std.specs.Prelude.{◌≡◌, ◌↔◌, ℕ, ◌+◌, ◌^◌, ◌<◌, List, [], ◌∷◌, IsTrue, OnOk, length};
ghost use Rattle.script_model.specs.Sexp as sexp;
ghost use Rattle.smt_sexp.specs.Arena.{places_of};
ghost use Rattle.smt_sexp.specs.Building.{spelled};
ghost use Rattle.smt_sexp.specs.Lexicon.{Unclosed};
ghost use Rattle.smt_sexp.specs.Views.{leaf_of, place_of};
ghost use Rattle.smt_sexp.specs.Writing.{HasOpen, Keeps, Shuts, Writes, Written, tokens_in};

use crate::building::Building;
use crate::{Leaf, Sexps};
use script_fault::Place;
use std::alloc::{AllocError, Global};

/// Expressions that are being written, one after the other: leaves, and groups that are opened and closed.
#[derive(Debug, Drop)]
pub struct Writer {
    pub(crate) building: Building,
}

impl Writer {
    /// Nothing is written yet.
    pub fn new(alloc: Global) -> Writer
        ensures written { Written result [] [] }
        ensures empty { tokens_in result ≡ 0 }
    {
        Writer {
            building: Building::new(alloc),
        }
    }

    /// How many tokens were written: leaves and parentheses.
    pub fn len(&self) -> usize
        ensures count { result ≡ tokens_in self.now }
        ensures spelled { (us : List Unclosed) → (tops : List sexp.Sexp) → Written self.now us tops →
            result ≡ length (spelled us tops) }
    {
        self.building.nodes.len()
    }

    /// Whether nothing is written yet.
    pub fn is_empty(&self) -> bool
        ensures { IsTrue result ↔ (tokens_in self.now ≡ 0) }
    {
        self.building.nodes.is_empty()
    }

    /// Writes a leaf.
    ///
    /// # Errors
    ///
    /// Out of memory; what was written is then of no use.
    pub fn leaf(&mut self, place: Place, leaf: Leaf) -> Result<(), AllocError>
        ensures { OnOk result
            (Writes self.old self.new (sexp.leaf (place_of place) (leaf_of leaf))) }
    {
        self.building.leaf(place, leaf)
    }

    /// Begins a group.
    ///
    /// # Errors
    ///
    /// Out of memory; what was written is then of no use.
    pub fn open(&mut self, place: Place) -> Result<(), AllocError>
        ensures written { (us : List Unclosed) → (tops : List sexp.Sexp) →
            Written self.old us tops → OnOk result (Written self.new
            (record { opened = place_of place; before = [] } ∷ us) tops) }
        ensures count { OnOk result (tokens_in self.new ≡ tokens_in self.old + 1) }
    {
        self.building.open(place)
    }

    /// Ends the group that was begun last.
    ///
    /// # Errors
    ///
    /// Out of memory; what was written is then of no use.
    pub fn close(&mut self) -> Result<(), AllocError>
        requires some { HasOpen self.old }
        requires few { tokens_in self.old < 2 ^ 32 }
        ensures written { OnOk result (Shuts self.old self.new) }
        ensures count { OnOk result (tokens_in self.new ≡ tokens_in self.old + 1) }
    {
        self.building.close()?;
        Ok(())
    }

    /// What was written.
    pub fn finish(self) -> Sexps
        ensures found { Keeps self result }
        ensures count { places_of result ≡ tokens_in self }
    {
        Sexps {
            nodes: self.building.nodes,
        }
    }
}
