// The names that a `let` or a definition binds, with a map of them: a look-up costs the same however many there are.
ghost use Rattle.std.specs.Prelude.{◌≡◌, [], ◌∷◌, ◌++◌, IfOk, OnOk, OnErr};
ghost use Rattle.sort_check.specs.Locals.{local_sort};

use script_fault::Name;
use smt_script::{Parameter, Sort};
use std::alloc::{AllocError, Global};
use std::collections::HashMap;
use std::marker::Model;
use std::rc::Rc;

/// The names that a `let` or a definition binds, in order, with a map from each to the sort of its first.
#[derive(Drop)]
pub(crate) struct Level<'a> {
    names: Vec<Parameter<'a>>,
    first: HashMap<&'a [u8], Sort>,
}

impl<'a> Model for Level<'a> {
    ghost use Rattle.std.specs.Prelude.{List};
    ghost use Rattle.smt_script.specs.declared.command.Parameter.{Parameter};
    ghost use Rattle.sort_check.specs.Locals.{IsIndexed};

    ghost Value = { List Parameter };

    ghost view = { λ l. l.names.items };

    ghost invariant = { λ l. IsIndexed l.names.items l.first };
}

impl<'a> Level<'a> {
    /// No names.
    pub(crate) fn new(alloc: Global) -> Self
        ensures { result ≡ [] }
    {
        Level {
            names: Vec::new(alloc),
            first: HashMap::new(alloc),
        }
    }

    /// The sort of the first of this name.
    pub(crate) fn sort_of(&self, name: &Name) -> Option<Sort>
        ensures { result ≡ local_sort name.now self.now }
    {
        self.first.get(name.as_slice()).copied()
    }

    /// Adds a name at the end.
    pub(crate) fn push(&mut self, local: Parameter<'a>) -> Result<(), AllocError>
        ensures added { OnOk result (self.new ≡ self.old ++ (local.entry ∷ [])) }
        ensures stay { OnErr result (self.new ≡ self.old) }
    {
        self.names.reserve(1)?;
        if self.first.contains_key(local.name.as_slice()) {
            self.names.push_reserved(local);
            return Ok(());
        }
        self.first.insert(local.name.as_slice(), local.sort)?;
        self.names.push_reserved(local);
        Ok(())
    }
}

/// The names that are bound around an expression, those of the nearest `let` first.
#[derive(Drop)]
pub(crate) struct Locals<'a> {
    levels: Vec<Rc<Level<'a>>>,
}

impl<'a> Model for Locals<'a> {
    ghost use Rattle.std.specs.Prelude.{List, map};
    ghost use Rattle.std.specs.Rc.{rc_value};
    ghost use Rattle.smt_script.specs.declared.command.Parameter.{Parameter};
    ghost use Rattle.sort_check.specs.Locals.{all_levels};

    ghost Value = { List Parameter };

    ghost view = { λ l. all_levels (map rc_value l.levels.items) };
}

impl<'a> Locals<'a> {
    /// No names.
    pub(crate) fn new(alloc: Global) -> Self
        ensures { result ≡ [] }
    {
        Locals {
            levels: Vec::new(alloc),
        }
    }

    /// These names, with all others behind them.
    pub(crate) fn behind(&self, alloc: Global, nearest: Level<'a>) -> Result<Self, AllocError>
        ensures { IfOk result (λ inner. inner ≡ nearest.entry ++ self.now) }
    {
        let nearest = Rc::new(alloc, nearest)?;
        let mut levels = Vec::new(alloc);
        levels.push(nearest)?;
        for i in 0..self.levels.len() {
            let next = self.levels[i].clone()?;
            levels.push(next)?;
        }
        Ok(Locals { levels })
    }

    /// The sort of the nearest of this name.
    pub(crate) fn sort_of(&self, name: &Name) -> Option<Sort>
        ensures { result ≡ local_sort name.now self.now }
    {
        for i in 0..self.levels.len() {
            if let Some(sort) = self.levels[i].sort_of(name) {
                return Some(sort);
            }
        }
        None
    }
}
