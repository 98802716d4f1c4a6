// The shared graph: each node once, its children before it.
ghost use Rattle.std.specs.Prelude.{◌≡◌, ◌<◌, ◌≤◌, [], ◌++◌, length, map, take, IfOk, IsTrue, Some, slice_get, ◌↔◌};
ghost use Rattle.poly_graph.specs.Views.{node_of};
ghost use Rattle.poly_graph.specs.Shared.{IsGraph, HaveSameTerm};

use crate::node::Node;
use std::alloc::{AllocError, Global};
use std::marker::Model;

/// A graph in which each node stands once, after its children.
#[derive(Drop)]
pub struct Graph {
    nodes: Vec<Node>,
}

impl Model for Graph {
    ghost use Rattle.std.specs.Prelude.{List, map};
    ghost use Rattle.poly_graph.specs.Term as term;
    ghost use Rattle.poly_graph.specs.Views.{node_of};
    ghost use Rattle.poly_graph.specs.Shared.{IsGraph};

    ghost Value = { List term.Node };

    ghost view = { λ g. map node_of g.nodes.items };

    ghost invariant = { λ g. IsGraph (map node_of g.nodes.items) };
}

impl Graph {
    /// A graph without nodes.
    pub fn new(alloc: Global) -> Self
        ensures { result ≡ [] }
    {
        Graph {
            nodes: Vec::new(alloc),
        }
    }

    /// The graph of these nodes.
    pub(crate) fn of(nodes: Vec<Node>) -> Self
        requires { IsGraph (map node_of nodes.items) }
        ensures { result ≡ map node_of nodes.items }
    {
        Graph { nodes }
    }

    /// The first `keep` nodes of a graph, and then these.
    pub fn joined(
        alloc: Global,
        first: &Graph,
        keep: usize,
        more: &[Node],
    ) -> Result<Self, AllocError>
        requires within { keep ≤ length first.now }
        requires graph { IsGraph (take keep first.now ++ map node_of more.now) }
        ensures { IfOk result (λ g. g ≡ take keep first.now ++ map node_of more.now) }
    {
        let mut nodes = Vec::from_slice(alloc, &first.nodes[..keep])?;
        nodes.extend_from_slice(more)?;
        Ok(Graph { nodes })
    }

    /// Whether the terms of two nodes are one and the same tree: in a graph where equal nodes are one,
    /// exactly where the numbers are equal.
    pub fn same_term(&self, a: u32, b: u32) -> bool
        requires first { a < length self.now }
        requires second { b < length self.now }
        ensures { IsTrue result ↔ HaveSameTerm self.now a b }
    {
        let _ = &self.nodes;
        a == b
    }

    /// The same graph once more, in memory of its own.
    pub fn try_clone(&self, alloc: Global) -> Result<Self, AllocError>
        ensures { IfOk result (λ g. g ≡ self.now) }
    {
        let nodes = Vec::from_slice(alloc, &self.nodes)?;
        Ok(Graph { nodes })
    }

    /// How many nodes there are, at most 1,048,576.
    pub fn len(&self) -> usize
        ensures len { result ≡ length self.now }
        ensures graph { IsGraph self.now }
    {
        self.nodes.len()
    }

    /// The node of this number.
    pub fn node(&self, n: u32) -> Node
        requires { n < length self.now }
        ensures { slice_get self.now n ≡ Some (node_of result) }
    {
        self.nodes[n as usize]
    }
}
