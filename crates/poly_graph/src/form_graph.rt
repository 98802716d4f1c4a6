// The shared form: each node once, its children before it.
ghost use Rattle.std.specs.Prelude.{◌≡◌, ◌≤◌, ◌<◌, [], ◌++◌, length, map, take, IfOk, Some, slice_get};
ghost use Rattle.poly_graph.specs.FormGraph.{most_forms, IsFormGraph};
ghost use Rattle.poly_graph.specs.FormViews.{form_node_of};

use crate::form_node::FormNode;
use std::alloc::{AllocError, Global};
use std::marker::Model;

/// A form in which each node stands once, after its children.
#[derive(Drop)]
pub struct FormGraph {
    nodes: Vec<FormNode>,
}

impl Model for FormGraph {
    ghost use Rattle.std.specs.Prelude.{List, map};
    ghost use Rattle.poly_graph.specs.FormGraph as form;
    ghost use Rattle.poly_graph.specs.FormGraph.{IsFormGraph};
    ghost use Rattle.poly_graph.specs.FormViews.{form_node_of};

    ghost Value = { List form.FormNode };

    ghost view = { λ g. map form_node_of g.nodes.items };

    ghost invariant = { λ g. IsFormGraph (map form_node_of g.nodes.items) };
}

impl FormGraph {
    /// A form without nodes.
    pub fn new(alloc: Global) -> Self
        ensures { result ≡ [] }
    {
        FormGraph {
            nodes: Vec::new(alloc),
        }
    }

    /// The form of these nodes.
    pub(crate) fn of(nodes: Vec<FormNode>) -> Self
        requires { IsFormGraph (map form_node_of nodes.items) }
        ensures { result ≡ map form_node_of nodes.items }
    {
        FormGraph { nodes }
    }

    /// The first `keep` nodes of a form, and then these.
    pub fn joined(
        alloc: Global,
        first: &FormGraph,
        keep: usize,
        more: &[FormNode],
    ) -> Result<Self, AllocError>
        requires within { keep ≤ length first.now }
        requires graph { IsFormGraph (take keep first.now ++ map form_node_of more.now) }
        ensures { IfOk result (λ g. g ≡ take keep first.now ++ map form_node_of more.now) }
    {
        let mut nodes = Vec::from_clones(alloc, &first.nodes[..keep])?;
        nodes.extend_from_slice(more)?;
        Ok(FormGraph { nodes })
    }

    /// The same form once more, in memory of its own.
    pub fn try_clone(&self, alloc: Global) -> Result<Self, AllocError>
        ensures { IfOk result (λ g. g ≡ self.now) }
    {
        let nodes = Vec::from_clones(alloc, &self.nodes)?;
        Ok(FormGraph { nodes })
    }

    /// How many nodes there are, at most 1,048,576.
    pub fn len(&self) -> usize
        ensures len { result ≡ length self.now }
        ensures few { result ≤ most_forms }
        ensures graph { IsFormGraph self.now }
    {
        self.nodes.len()
    }

    /// The node of this number.
    pub fn node(&self, n: u32) -> &FormNode
        requires { n < length self.now }
        ensures { slice_get self.now n ≡ Some (form_node_of result.now) }
    {
        &self.nodes[n as usize]
    }
}
