// Expressions that are being read.
ghost use Rattle.std.specs.Prelude.{◌≡◌, ℕ, ◌+◌, ◌^◌, ◌<◌, ◌≤◌, List, [], ◌∷◌, OnOk, IfOk, length, map, vec_len};
ghost use Rattle.script_model.specs.Sexp as sexp;
ghost use Rattle.smt_sexp.specs.Arena.{bead_of};
ghost use Rattle.smt_sexp.specs.Building.{Closes, IsOpen, Stands, is_exit_inside};
ghost use Rattle.smt_sexp.specs.Lexicon.{Unclosed, put};
ghost use Rattle.smt_sexp.specs.Views.{leaf_of, place_of};

use crate::sexps::Node;
use crate::{Leaf, Sexps};
use script_fault::Place;
use std::alloc::{AllocError, Global};

/// An opening parenthesis that is not closed: its bead and its place.
#[derive(Clone, Copy, Debug)]
pub(crate) struct Opened {
    pub(crate) at: usize,
    pub(crate) place: Place,
}

/// What was read so far.
#[derive(Debug, Drop)]
pub(crate) struct Building {
    pub(crate) nodes: Vec<Node>,
    pub(crate) open: Vec<Opened>,
}

impl Building {
    pub(crate) fn new(alloc: Global) -> Building
        ensures stands { Stands result [] [] }
        ensures empty { vec_len result.nodes ≡ 0 }
    {
        Building {
            nodes: Vec::new(alloc),
            open: Vec::new(alloc),
        }
    }

    /// Reads an opening parenthesis.
    pub(crate) fn open(&mut self, place: Place) -> Result<(), AllocError>
        ensures stands { (us : List Unclosed) → (tops : List sexp.Sexp) → Stands self.old us tops →
            OnOk result (Stands self.new
            (record { opened = place_of place; before = [] } ∷ us) tops) }
        ensures count { OnOk result (vec_len self.new.nodes ≡ vec_len self.old.nodes + 1) }
    {
        let at = self.nodes.len();
        self.nodes.push(Node::Open(place, 0))?;
        self.open.push(Opened { at, place })?;
        Ok(())
    }

    /// Reads a leaf.
    pub(crate) fn leaf(&mut self, place: Place, leaf: Leaf) -> Result<(), AllocError>
        ensures stands { (us : List Unclosed) → (tops : List sexp.Sexp) → Stands self.old us tops →
            OnOk result (Stands self.new
            (put (sexp.leaf (place_of place) (leaf_of leaf)) us tops).0
            (put (sexp.leaf (place_of place) (leaf_of leaf)) us tops).1) }
        ensures count { OnOk result (vec_len self.new.nodes ≡ vec_len self.old.nodes + 1) }
    {
        self.nodes.push(Node::Leaf(place, leaf))?;
        Ok(())
    }

    /// Reads a closing parenthesis, and says whether the text ends with it.
    pub(crate) fn close(&mut self) -> Result<bool, AllocError>
        requires some { IsOpen self.old }
        requires few { vec_len self.old.nodes < 2 ^ 32 }
        ensures stands { (u : Unclosed) → (us : List Unclosed) → (tops : List sexp.Sexp) →
            Stands self.old (u ∷ us) tops →
            IfOk result (λ ends. Closes self.new u us tops ends) }
        ensures count { OnOk result (vec_len self.new.nodes ≡ vec_len self.old.nodes + 1) }
    {
        let opened = self.open.pop().unwrap();
        let (_, inside) = self.nodes.split_at(opened.at + 1);
        let exits = is_exit(inside);
        let size = self.nodes.len() - opened.at;
        self.nodes.push(Node::Close)?;
        self.nodes[opened.at] = Node::Open(opened.place, size as u32);
        Ok(self.open.is_empty() && exits)
    }
}

// Whether a group of these beads is the command that ends a script.
fn is_exit(inside: &[Node]) -> bool
    ensures { result ≡ is_exit_inside (map bead_of inside.now) }
{
    match inside {
        [Node::Leaf(_, Leaf::Symbol(name))] => name.as_slice() == b"exit".as_slice(),
        _ => false,
    }
}
