// Expressions in parentheses, without recursion.
ghost use Rattle.std.specs.Prelude.{◌≡◌, ◌↔◌, IsTrue};
ghost use Rattle.smt_sexp.specs.Seen.{Shows};
ghost use Rattle.smt_sexp.specs.Arena.{places_of};

use crate::Leaf;
use script_fault::Place;

/// One bead: an opening parenthesis with the number of beads between it and what follows its group, a leaf, or a closing parenthesis.
#[derive(Debug, Drop)]
pub(crate) enum Node {
    Open(Place, u32),
    Leaf(Place, Leaf),
    Close,
}

/// The expressions of a text. They are walked by places, from 0 on; a place is looked at by `look`.
#[derive(Debug, Drop)]
pub struct Sexps {
    pub(crate) nodes: Vec<Node>,
}

/// What stands at a place.
#[derive(Clone, Copy, Debug)]
pub enum Seen<'a> {
    /// Nothing more in this group.
    End,
    /// A leaf, and the place behind it.
    Leaf(Place, &'a Leaf, usize),
    /// A group: where it begins, its first place, and the place behind it.
    Group(Place, usize, usize),
}

impl Sexps {
    /// What stands at a place. There is nothing past the last.
    pub fn look(&self, at: usize) -> Seen<'_>
        ensures { Shows self.now at result }
    {
        if at >= self.nodes.len() {
            return Seen::End;
        }
        match &self.nodes[at] {
            Node::Close => Seen::End,
            Node::Leaf(place, leaf) => Seen::Leaf(*place, leaf, at + 1),
            Node::Open(place, size) => Seen::Group(*place, at + 1, at + 1 + *size as usize),
        }
    }

    /// How many places there are.
    pub fn len(&self) -> usize
        ensures { result ≡ places_of self.now }
    {
        self.nodes.len()
    }

    pub fn is_empty(&self) -> bool
        ensures { IsTrue result ↔ (places_of self.now ≡ 0) }
    {
        self.nodes.is_empty()
    }
}
