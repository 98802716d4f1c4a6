// What a problem keeps of another one, and what is new in it.
ghost use Rattle.std.specs.Prelude.{◌≡◌, IfOk, map};
ghost use Rattle.poly_graph.specs.Views.{atom_of};
ghost use Rattle.problem_session.specs.Changes.{IsChange, changed, made_of};

use poly_graph::{Atom, Axis, FormGraph, FormNode, Graph, Node, Problem};
use std::alloc::{AllocError, Global};

/// How many of the nodes of terms, of the atoms and of the nodes of the form are kept, the first ones.
#[derive(Clone, Copy, Debug)]
pub struct Kept {
    pub nodes: usize,
    pub atoms: usize,
    pub forms: usize,
}

/// What a problem keeps of another one, and what is new in it.
#[derive(Drop)]
pub struct Change {
    kept: Kept,
    nodes: Vec<Node>,
    atoms: Vec<Atom>,
    forms: Vec<FormNode>,
    axes: Vec<Axis>,
    root: u32,
}

impl Change {
    /// So much is kept, and behind it stand these nodes of terms, atoms and nodes of the form; the axes and the root are
    /// these.
    pub fn new(
        kept: Kept,
        nodes: Vec<Node>,
        atoms: Vec<Atom>,
        forms: Vec<FormNode>,
        axes: Vec<Axis>,
        root: u32,
    ) -> Self
        ensures kept { result.kept ≡ kept }
        ensures nodes { result.nodes ≡ nodes }
        ensures atoms { result.atoms ≡ atoms }
        ensures forms { result.forms ≡ forms }
        ensures axes { result.axes ≡ axes }
        ensures root { result.root ≡ root }
    {
        Change {
            kept,
            nodes,
            atoms,
            forms,
            axes,
            root,
        }
    }

    // The problem that the change makes of these parts.
    pub(crate) fn after(
        &self,
        alloc: Global,
        graph: &Graph,
        atoms: &[Atom],
        forms: &FormGraph,
    ) -> Result<Problem, AllocError>
        requires { IsChange (made_of graph.now (map atom_of atoms.now) forms.now) self.now }
        ensures { IfOk result (λ p. p ≡
            changed (made_of graph.now (map atom_of atoms.now) forms.now) self.now) }
    {
        let graph = Graph::joined(alloc, graph, self.kept.nodes, &self.nodes)?;
        let forms = FormGraph::joined(alloc, forms, self.kept.forms, &self.forms)?;
        let mut all = Vec::from_slice(alloc, &atoms[..self.kept.atoms])?;
        all.extend_from_slice(&self.atoms)?;
        let axes = Vec::from_clones(alloc, &self.axes)?;
        Ok(Problem::new(axes, graph, all, forms, self.root))
    }
}

/// What is new in the problem of what is in force at a check.
#[derive(Drop)]
pub struct Checked {
    pub change: Change,
    /// Whether all commands that were in force at the check before are in force at this one.
    pub extends: bool,
}
