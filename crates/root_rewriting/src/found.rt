// Roots and quotients that become constants, each once.
ghost use Rattle.std.specs.Prelude.{◌<◌, List, [], IfOk, OnOk, length};
ghost use Rattle.root_rewriting.specs.Found.{AllHave, AreOwn, IsFound, IsSized, IsSource, inner_in, own_in};
ghost use Rattle.root_rewriting.specs.Nodes.{tree_at, trees_in};
ghost use Rattle.script_roots.specs.Fresh.{once};
ghost use Rattle.script_roots.specs.Ranges.{Ranges};
ghost use Rattle.script_roots.specs.Tree.{Tree};

use crate::unfold::Trees;
use std::alloc::{AllocError, Global};

/// Trees, with the class of each, and whether a constant is to stand for it.
#[derive(Clone, Copy)]
pub(crate) struct Source<'t, 'a> {
    pub(crate) trees: &'t Trees<'a>,
    pub(crate) classes: &'t [usize],
    pub(crate) own: &'t [bool],
}

/// The trees for which constants are to stand, as far as they are found.
#[derive(Drop)]
pub(crate) struct Found {
    /// By class: whether one of it is among them.
    pub(crate) listed: Vec<bool>,
    /// By tree: whether all that stand in it are.
    pub(crate) marked: Vec<bool>,
    pub(crate) order: Vec<usize>,
}

impl Found {
    /// None is found yet.
    pub(crate) fn new(alloc: Global, source: &Source<'_, '_>) -> Result<Self, AllocError>
        requires { IsSource source.now }
        ensures sized { IfOk result (IsSized (length source.now.trees.now)) }
        ensures found { (ranges : Ranges) →
            IfOk result (λ found. IsFound ranges source.now found []) }
    {
        let count = source.trees.len();
        Ok(Found {
            listed: vec![in alloc; false; count]?,
            marked: vec![in alloc; false; count]?,
            order: Vec::new(alloc),
        })
    }

    // Lists a tree, where a constant is to stand for it and none of its class is listed.
    fn list(&mut self, source: &Source<'_, '_>, at: usize) -> Result<(), AllocError>
        requires source { IsSource source.now }
        requires sized { IsSized (length source.now.trees.now) self.old }
        requires at { at < length source.now.trees.now }
        ensures sized { OnOk result (IsSized (length source.now.trees.now) self.new) }
        ensures found { (ranges : Ranges) (seen : List Tree) →
            AreOwn ranges (trees_in source.now.trees.now) source.now.own.now →
            IsFound ranges source.now self.old seen →
            OnOk result (IsFound ranges source.now self.new
            (once seen (own_in ranges (tree_at (trees_in source.now.trees.now) at)))) }
    {
        let class = source.classes[at];
        if source.own[at] && !self.listed[class] {
            self.order.push(at)?;
            self.listed[class] = true;
        }
        Ok(())
    }

    /// Goes on behind a tree whose parts are done.
    pub(crate) fn leave(&mut self, source: &Source<'_, '_>, at: usize) -> Result<(), AllocError>
        requires source { IsSource source.now }
        requires sized { IsSized (length source.now.trees.now) self.old }
        requires at { at < length source.now.trees.now }
        ensures sized { OnOk result (IsSized (length source.now.trees.now) self.new) }
        ensures found { (ranges : Ranges) (seen : List Tree) →
            AreOwn ranges (trees_in source.now.trees.now) source.now.own.now →
            IsFound ranges source.now self.old seen →
            AllHave seen (inner_in ranges (tree_at (trees_in source.now.trees.now) at)) →
            OnOk result (IsFound ranges source.now self.new
            (once seen (own_in ranges (tree_at (trees_in source.now.trees.now) at)))) }
    {
        self.list(source, at)?;
        self.marked[at] = true;
        Ok(())
    }
}
