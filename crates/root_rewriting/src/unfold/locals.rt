// The names that a `let` or a call binds, with a map of them: a look-up costs the same however many there are.
ghost use Rattle.std.specs.Prelude.{◌≡◌, [], ◌∷◌, ◌++◌, IfOk, OnOk, OnErr};
ghost use Rattle.root_rewriting.specs.Locals.{local_node};
ghost use Rattle.root_rewriting.specs.TreeNames.{bound_locals};

use script_fault::Name;
use smt_script::Parameter;
use std::alloc::{AllocError, Global};
use std::collections::HashMap;
use std::marker::Model;
use std::rc::Rc;

/// A name that a `let` or a parameter binds to a node.
#[derive(Clone, Copy, Debug)]
pub(crate) struct Local<'a> {
    pub(crate) name: &'a Name,
    pub(crate) node: usize,
}

/// The names that a `let` or a call binds, in order, with a map from each to the node of its first.
#[derive(Drop)]
pub(crate) struct Level<'a> {
    names: Vec<Local<'a>>,
    first: HashMap<&'a [u8], usize>,
}

impl<'a> Model for Level<'a> {
    ghost use Rattle.std.specs.Prelude.{List};
    ghost use Rattle.root_rewriting.specs.Locals.{IsIndexed};
    ghost use Rattle.root_rewriting.specs.declared.unfold.locals.Local.{Local};

    ghost Value = { List Local };

    ghost view = { λ l. l.names.items };

    ghost invariant = { λ l. IsIndexed l.names.items l.first };
}

impl<'a> Level<'a> {
    /// No names.
    pub(crate) fn new(alloc: Global) -> Self
        ensures { result ≡ [] }
    {
        Level {
            names: Vec::new(alloc),
            first: HashMap::new(alloc),
        }
    }

    /// The node of the first of this name.
    pub(crate) fn node_of(&self, name: &Name) -> Option<usize>
        ensures { result ≡ local_node name.now self.now }
    {
        self.first.get(name.as_slice()).copied()
    }

    /// Adds a name at the end.
    pub(crate) fn push(&mut self, local: Local<'a>) -> Result<(), AllocError>
        ensures added { OnOk result (self.new ≡ self.old ++ (local.entry ∷ [])) }
        ensures stay { OnErr result (self.new ≡ self.old) }
    {
        self.names.reserve(1)?;
        if self.first.contains_key(local.name.as_slice()) {
            self.names.push_reserved(local);
            return Ok(());
        }
        self.first.insert(local.name.as_slice(), local.node)?;
        self.names.push_reserved(local);
        Ok(())
    }
}

/// The names that are bound around an expression, those of the nearest `let` first.
#[derive(Drop)]
pub(crate) struct Locals<'a> {
    levels: Vec<Rc<Level<'a>>>,
}

impl<'a> Model for Locals<'a> {
    ghost use Rattle.std.specs.Prelude.{List, map};
    ghost use Rattle.std.specs.Rc.{rc_value};
    ghost use Rattle.root_rewriting.specs.Locals.{all_levels};
    ghost use Rattle.root_rewriting.specs.declared.unfold.locals.Local.{Local};

    ghost Value = { List Local };

    ghost view = { λ l. all_levels (map rc_value l.levels.items) };
}

impl<'a> Locals<'a> {
    /// No names.
    pub(crate) fn new(alloc: Global) -> Self
        ensures { result ≡ [] }
    {
        Locals {
            levels: Vec::new(alloc),
        }
    }

    /// These names, with all others behind them.
    pub(crate) fn behind(&self, alloc: Global, nearest: Level<'a>) -> Result<Self, AllocError>
        ensures { IfOk result (λ inner. inner ≡ nearest.entry ++ self.now) }
    {
        let nearest = Rc::new(alloc, nearest)?;
        let mut levels = Vec::new(alloc);
        levels.push(nearest)?;
        for i in 0..self.levels.len() {
            let next = self.levels[i].clone()?;
            levels.push(next)?;
        }
        Ok(Locals { levels })
    }

    /// The node of the nearest of this name.
    pub(crate) fn node_of(&self, name: &Name) -> Option<usize>
        ensures { result ≡ local_node name.now self.now }
    {
        for i in 0..self.levels.len() {
            if let Some(node) = self.levels[i].node_of(name) {
                return Some(node);
            }
        }
        None
    }
}

/// Parameters stand for nodes, as many as there are of both.
pub(crate) fn bound_locals<'a>(
    alloc: Global,
    parameters: &[Parameter<'a>],
    nodes: &[usize],
) -> Result<Level<'a>, AllocError>
    ensures { IfOk result (λ locals. locals ≡ bound_locals parameters.now nodes.now) }
{
    let mut locals = Level::new(alloc);
    let mut left = parameters;
    let mut given = nodes;
    while let [parameter, more @ ..] = left {
        let [node, later @ ..] = given else {
            return Ok(locals);
        };
        locals.push(Local {
            name: parameter.name,
            node: *node,
        })?;
        left = more;
        given = later;
    }
    Ok(locals)
}
