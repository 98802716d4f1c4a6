// The nodes of a graph that grows and goes back, with a map from each to its number.
ghost use Rattle.std.specs.Prelude.{◌≡◌, ℕ, ◌<◌, ◌≤◌, ◌^◌, ◌-◌, [], ◌∷◌, ◌++◌, length, map, take, MatchResult, OnOk, OnErr, IsTrue, Some, slice_get};
ghost use Rattle.std.specs.HashMap.{Updates, IsUnchanged};
ghost use Rattle.poly_graph.specs.Term.{comes_after};
ghost use Rattle.poly_graph.specs.Views.{node_of};
ghost use Rattle.poly_graph.specs.Shared.{same_node, IsGraph, Interned};
ghost use Rattle.poly_graph.specs.Refused.{NodeRefused};

use crate::graph::Graph;
use crate::node::Node;
use crate::refused::{Limit, NoNode};
use std::alloc::{AllocError, Global};
use std::collections::HashMap;
use std::marker::Model;

/// As many nodes as a graph may have.
pub const MOST_NODES: usize = 1_048_576;

/// The nodes of a graph, each once, after its children, with the number of each. It grows, and goes back.
#[derive(Drop)]
pub struct NodeTable {
    nodes: Vec<Node>,
    numbers: HashMap<Node, u32>,
}

impl Model for NodeTable {
    ghost use Rattle.std.specs.Prelude.{List, map};
    ghost use Rattle.poly_graph.specs.Term as term;
    ghost use Rattle.poly_graph.specs.Views.{node_of};
    ghost use Rattle.poly_graph.specs.Shared.{IsShared};

    ghost Value = { List term.Node };

    ghost view = { λ g. map node_of g.nodes.items };

    ghost invariant = { λ g. IsShared g.nodes.items g.numbers };
}

// Adds a node with its number at the end, or leaves both as they were.
fn add(
    nodes: &mut Vec<Node>,
    numbers: &mut HashMap<Node, u32>,
    node: Node,
    n: u32,
) -> Result<(), AllocError>
    ensures items { OnOk result (nodes.new.items ≡ nodes.old.items ++ (node ∷ [])) }
    ensures numbers { OnOk result (Updates same_node numbers.old numbers.new node (Some n)) }
    ensures items_stay { OnErr result (nodes.new.items ≡ nodes.old.items) }
    ensures numbers_stay { OnErr result (IsUnchanged numbers.old numbers.new) }
{
    nodes.push(node)?;
    if numbers.insert(node, n).is_err() {
        let _ = nodes.pop();
        return Err(AllocError);
    }
    Ok(())
}

impl NodeTable {
    /// No nodes.
    pub fn new(alloc: Global) -> Self
        ensures { result ≡ [] }
    {
        NodeTable {
            nodes: Vec::new(alloc),
            numbers: HashMap::new(alloc),
        }
    }

    /// The number of the node, which is added where it did not stand yet.
    pub fn intern(&mut self, node: Node) -> Result<u32, NoNode>
        requires { IsTrue (comes_after (length self.old) (node_of node)) }
        ensures { MatchResult result
            (Interned self.old self.new (node_of node))
            (NodeRefused self.old self.new (node_of node)) }
    {
        if let Some(n) = self.numbers.get(&node) {
            return Ok(*n);
        }
        let n = self.nodes.len();
        if n >= MOST_NODES {
            return Err(NoNode::TooMany(Limit::Nodes));
        }
        if add(&mut self.nodes, &mut self.numbers, node, n as u32).is_err() {
            return Err(NoNode::Memory);
        }
        Ok(n as u32)
    }

    // The last node is taken back, if there is one.
    fn drop_last(&mut self)
        ensures { self.new ≡ take (length self.old - 1) self.old }
    {
        if let Some(node) = self.nodes.pop() {
            self.numbers.remove(&node);
        }
    }

    /// Only the first n nodes stay. It takes the time of those that are taken back.
    pub fn truncate(&mut self, n: usize)
        ensures { self.new ≡ take n self.old }
    {
        while self.len() > n {
            self.drop_last();
        }
    }

    /// The nodes, by number; at most 1,048,576.
    pub fn nodes(&self) -> &[Node]
        ensures items { map node_of result.now ≡ self.now }
        ensures graph { IsGraph self.now }
    {
        &self.nodes
    }

    /// The graph of the nodes, without the numbers.
    pub fn into_graph(self) -> Graph
        ensures { result ≡ self }
    {
        Graph::of(self.nodes)
    }

    /// How many nodes there are, at most 1,048,576.
    pub fn len(&self) -> usize
        ensures len { result ≡ length self.now }
        ensures graph { IsGraph self.now }
    {
        self.nodes.len()
    }

    /// The node of this number.
    pub fn node(&self, n: u32) -> Node
        requires { n < length self.now }
        ensures { slice_get self.now n ≡ Some (node_of result) }
    {
        self.nodes[n as usize]
    }
}
