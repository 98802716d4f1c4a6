// The bounds of Bool expressions, where expressions share parts.
ghost use Rattle.std.specs.Prelude.{◌≡◌, ℕ, ◌<◌, [], length, map, take};
ghost use Rattle.std.specs.List.{All};
ghost use Rattle.declared_box.specs.Calls.{AddsList, AddsNode, bound_on};
ghost use Rattle.declared_box.specs.Table.{all_of, bound_lists, AreInOrder};
ghost use Rattle.declared_box.specs.Views.{node_of};

use dyadic::Frac;
use std::alloc::{AllocError, Global};
use std::marker::Model;

/// Whether a bound is one from below or one from above.
#[derive(Clone, Copy, Debug, PartialEq, Eq)]
pub enum Side {
    Lower,
    Upper,
}

/// What a node stands for: one bound of an axis, or all bounds of earlier nodes.
#[derive(Debug, Drop)]
pub enum BoundNode {
    One(u32, Side, Frac),
    All(Vec<u32>),
}

/// Lists of bounds, by number. A list is kept as one bound, or as the numbers of the earlier lists that it joins, so
/// that what expressions share is kept once. Contracts see the lists.
#[derive(Drop)]
pub struct BoundTable {
    nodes: Vec<BoundNode>,
}

impl Model for BoundTable {
    ghost use Rattle.std.specs.Prelude.{List, map};
    ghost use Rattle.script_model.specs.Declared.{Bound};

    ghost Value = { List (List Bound) };

    ghost use Rattle.declared_box.specs.Table.{bound_lists, AreInOrder};
    ghost use Rattle.declared_box.specs.Views.{node_of};

    ghost view = { λ t. bound_lists (map node_of t.nodes.items) };

    ghost invariant = { λ t. AreInOrder 0 (map node_of t.nodes.items) };
}

// Adds a node at the end, with its number.
fn add(nodes: &mut Vec<BoundNode>, node: BoundNode) -> Result<u32, AllocError>
    ensures { AddsNode nodes.old nodes.new node result }
{
    let Ok(number) = u32::try_from(nodes.len()) else {
        return Err(AllocError);
    };
    nodes.push(node)?;
    Ok(number)
}

impl BoundTable {
    /// A table without lists.
    pub fn new(alloc: Global) -> Self
        ensures { result ≡ [] }
    {
        BoundTable {
            nodes: Vec::new(alloc),
        }
    }

    /// The number of a new list, of this bound alone: the axis is at least, or at most, the value.
    ///
    /// # Errors
    ///
    /// Where memory, or the numbers of 32 bits, run out; nothing is added then.
    pub fn one(&mut self, axis: u32, side: Side, value: Frac) -> Result<u32, AllocError>
        ensures { AddsList self.old self.new (bound_on axis side value) result }
    {
        add(&mut self.nodes, BoundNode::One(axis, side, value))
    }

    /// The number of a new list: that of the lists of these numbers, one after another.
    ///
    /// # Errors
    ///
    /// Where memory, or the numbers of 32 bits, run out; nothing is added then.
    pub fn all(&mut self, parts: Vec<u32>) -> Result<u32, AllocError>
        requires { All (λ (k : ℕ). k < length self.old) parts.items }
        ensures { AddsList self.old self.new (all_of self.old parts.items) result }
    {
        add(&mut self.nodes, BoundNode::All(parts))
    }

    /// Only the first n lists stay.
    pub fn truncate(&mut self, n: usize)
        ensures { self.new ≡ take n self.old }
    {
        self.nodes.truncate(n);
    }

    // The nodes, whose lists these are.
    pub(crate) fn nodes(&self) -> &[BoundNode]
        ensures lists { bound_lists (map node_of result.now) ≡ self.now }
        ensures order { AreInOrder 0 (map node_of result.now) }
    {
        &self.nodes
    }

    /// How many lists there are.
    pub fn len(&self) -> usize
        ensures { result ≡ length self.now }
    {
        self.nodes.len()
    }
}
