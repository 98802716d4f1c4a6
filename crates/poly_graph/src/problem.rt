// Problems.
ghost use Rattle.std.specs.Prelude.{◌≡◌, map, IfOk};
ghost use Rattle.poly_graph.specs.Views.{atom_of};
ghost use Rattle.poly_graph.specs.ProblemViews.{axis_of, parts_of, IsWhole};

use crate::axis::Axis;
use crate::form_graph::FormGraph;
use crate::graph::Graph;
use crate::node::Atom;
use std::alloc::{AllocError, Global};
use std::marker::Model;

/// Declared axes, a shared graph of terms, atoms by number, and the form that is to be met. Its bounds
/// stay finite when they are rounded, its atoms name nodes, and its form names atoms and Bool axes.
#[derive(Drop)]
pub struct Problem {
    axes: Vec<Axis>,
    graph: Graph,
    atoms: Vec<Atom>,
    forms: FormGraph,
    root: u32,
}

impl Model for Problem {
    ghost use Rattle.poly_graph.specs.ProblemViews.{Parts, IsWhole, parts_of};

    ghost Value = { Parts };

    ghost view = { λ p. parts_of p.axes.items p.graph p.atoms.items p.forms p.root };

    ghost invariant = { λ p. IsWhole (parts_of p.axes.items p.graph p.atoms.items p.forms p.root) };
}

impl Problem {
    /// The problem of these parts.
    pub fn new(axes: Vec<Axis>, graph: Graph, atoms: Vec<Atom>, forms: FormGraph, root: u32) -> Self
        requires { IsWhole (parts_of axes.items graph atoms.items forms root) }
        ensures { result ≡ parts_of axes.items graph atoms.items forms root }
    {
        Problem {
            axes,
            graph,
            atoms,
            forms,
            root,
        }
    }

    /// The axes, in the order of declaration.
    pub fn axes(&self) -> &[Axis]
        ensures axes { map axis_of result.now ≡ self.now.axes }
        ensures whole { IsWhole self.now }
    {
        &self.axes
    }

    /// The shared graph of the terms.
    pub fn graph(&self) -> &Graph
        ensures graph { result.now ≡ self.now.nodes }
        ensures whole { IsWhole self.now }
    {
        &self.graph
    }

    /// The atoms, by number.
    pub fn atoms(&self) -> &[Atom]
        ensures atoms { map atom_of result.now ≡ self.now.atoms }
        ensures whole { IsWhole self.now }
    {
        &self.atoms
    }

    /// The shared form.
    pub fn forms(&self) -> &FormGraph
        ensures forms { result.now ≡ self.now.forms }
        ensures whole { IsWhole self.now }
    {
        &self.forms
    }

    /// The number of the form's root.
    pub fn root(&self) -> u32
        ensures root { result ≡ self.now.root }
        ensures whole { IsWhole self.now }
    {
        self.root
    }

    /// An equal problem, in memory of its own.
    pub fn try_clone(&self, alloc: Global) -> Result<Self, AllocError>
        ensures { IfOk result (λ p. p ≡ self.now) }
    {
        let axes = Vec::from_clones(alloc, &self.axes)?;
        let atoms = Vec::from_slice(alloc, &self.atoms)?;
        let graph = self.graph.try_clone(alloc)?;
        let forms = self.forms.try_clone(alloc)?;
        Ok(Problem {
            axes,
            graph,
            atoms,
            forms,
            root: self.root,
        })
    }
}
