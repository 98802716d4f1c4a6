// The nodes of a form that grows and goes back, with a map from each to its number.
ghost use Rattle.std.specs.Prelude.{◌≡◌, ◌≤◌, ℕ, ◌<◌, ◌^◌, ◌-◌, [], ◌∷◌, ◌++◌, length, map, take, MatchResult, IfOk, OnOk, OnErr, IsTrue, Some};
ghost use Rattle.std.specs.HashMap.{IsUnchanged};
ghost use Rattle.poly_graph.specs.FormGraph.{form_comes_after, node_size, most_forms, IsFormGraph, FormInterned};
ghost use Rattle.poly_graph.specs.FormViews.{form_node_of, PutsLike, FormRefused};

use crate::form_graph::FormGraph;
use crate::form_node::FormNode;
use crate::refused::{Limit, NoNode};
use std::alloc::{AllocError, Global};
use std::collections::HashMap;
use std::marker::Model;

/// As many nodes and places of children as a form may have.
pub const MOST_FORMS: usize = 1_048_576;

/// The nodes of a form, each once, after its children, with the number of each and the size of all. It grows, and goes
/// back.
#[derive(Drop)]
pub struct FormTable {
    nodes: Vec<FormNode>,
    numbers: HashMap<FormNode, u32>,
    size: usize,
}

impl Model for FormTable {
    ghost use Rattle.std.specs.Prelude.{List, map};
    ghost use Rattle.poly_graph.specs.FormGraph as form;
    ghost use Rattle.poly_graph.specs.FormViews.{form_node_of, IsSharedForm};

    ghost Value = { List form.FormNode };

    ghost view = { λ g. map form_node_of g.nodes.items };

    ghost invariant = { λ g. IsSharedForm g.nodes.items g.numbers g.size };
}

// A node, and a place for each of its children.
fn size_of(node: &FormNode) -> usize
    ensures { result ≡ node_size (form_node_of node.now) }
{
    match node {
        FormNode::And(children) | FormNode::Or(children) => children.len() + 1,
        _ => 1,
    }
}

// The same node once more.
fn copy_of(node: &FormNode) -> Result<FormNode, AllocError>
    ensures { IfOk result (λ n. form_node_of n ≡ form_node_of node.now) }
{
    node.clone()
}

// Adds a node with its number at the end, or leaves both as they were.
fn add(
    nodes: &mut Vec<FormNode>,
    numbers: &mut HashMap<FormNode, u32>,
    node: FormNode,
    n: u32,
) -> Result<(), AllocError>
    ensures items { OnOk result (nodes.new.items ≡ nodes.old.items ++ (node ∷ [])) }
    ensures numbers { OnOk result (PutsLike numbers.old numbers.new node n) }
    ensures items_stay { OnErr result (nodes.new.items ≡ nodes.old.items) }
    ensures numbers_stay { OnErr result (IsUnchanged numbers.old numbers.new) }
{
    let key = copy_of(&node)?;
    nodes.push(node)?;
    if numbers.insert(key, n).is_err() {
        let _ = nodes.pop();
        return Err(AllocError);
    }
    Ok(())
}

impl FormTable {
    /// No nodes.
    pub fn new(alloc: Global) -> Self
        ensures { result ≡ [] }
    {
        FormTable {
            nodes: Vec::new(alloc),
            numbers: HashMap::new(alloc),
            size: 0,
        }
    }

    /// The number of the node, which is added where it did not stand yet.
    pub fn intern(&mut self, node: FormNode) -> Result<u32, NoNode>
        requires { IsTrue (form_comes_after (length self.old) (form_node_of node)) }
        ensures { MatchResult result
            (FormInterned self.old self.new (form_node_of node))
            (FormRefused self.old self.new (form_node_of node)) }
    {
        if let Some(n) = self.numbers.get(&node) {
            return Ok(*n);
        }
        let more = size_of(&node);
        if more > MOST_FORMS - self.size {
            return Err(NoNode::TooMany(Limit::Forms));
        }
        let n = self.nodes.len() as u32;
        if add(&mut self.nodes, &mut self.numbers, node, n).is_err() {
            return Err(NoNode::Memory);
        }
        self.size += more;
        Ok(n)
    }

    // The last node is taken back, if there is one.
    fn drop_last(&mut self)
        ensures { self.new ≡ take (length self.old - 1) self.old }
    {
        let Some(node) = self.nodes.pop() else {
            return;
        };
        self.numbers.remove(&node);
        self.size -= size_of(&node);
    }

    /// Only the first n nodes stay. It takes the time of those that are taken back.
    pub fn truncate(&mut self, n: usize)
        ensures { self.new ≡ take n self.old }
    {
        while self.len() > n {
            self.drop_last();
        }
    }

    /// The nodes, by number; at most 1,048,576.
    pub fn nodes(&self) -> &[FormNode]
        ensures items { map form_node_of result.now ≡ self.now }
        ensures graph { IsFormGraph self.now }
    {
        &self.nodes
    }

    /// The form of the nodes, without the numbers.
    pub fn into_graph(self) -> FormGraph
        ensures { result ≡ self }
    {
        FormGraph::of(self.nodes)
    }

    /// How many nodes there are, at most 1,048,576.
    pub fn len(&self) -> usize
        ensures len { result ≡ length self.now }
        ensures few { result ≤ most_forms }
        ensures graph { IsFormGraph self.now }
    {
        self.nodes.len()
    }
}
