// The names of the top: declared constants and definitions, in order.
ghost use Rattle.std.specs.Prelude.{◌≡◌, [], ◌∷◌, ◌++◌, length, OnOk, OnErr};
ghost use Rattle.root_rewriting.specs.TreeNames.{top_known};

use script_fault::{Name, Place};
use smt_script::Parameter;
use std::alloc::{AllocError, Global};
use std::collections::HashMap;
use std::marker::Model;

/// What a name of the top stands for: a declared constant, by its command's place and its name, or a definition, by its
/// parameters and the place of its body.
#[derive(Clone, Copy, Debug)]
pub(crate) enum Known<'p, 'a> {
    Constant(Place, &'a Name),
    Function(&'p [Parameter<'a>], usize),
}

/// A name of the top. The body of a definition sees those before it.
#[derive(Clone, Copy, Debug)]
pub(crate) struct Top<'p, 'a> {
    pub(crate) name: &'a Name,
    pub(crate) known: Known<'p, 'a>,
}

/// A name of the top, with the place of the last one before it that is the same.
#[derive(Clone, Copy, Debug)]
struct Entry<'p, 'a> {
    top: Top<'p, 'a>,
    earlier: Option<usize>,
}

/// The names of the top in order, with a map from each to the place of its last.
#[derive(Drop)]
pub(crate) struct TopTable<'p, 'a> {
    entries: Vec<Entry<'p, 'a>>,
    last: HashMap<&'a [u8], usize>,
}

impl<'p, 'a> Model for TopTable<'p, 'a> {
    ghost use Rattle.std.specs.Prelude.{List, map};
    ghost use Rattle.root_rewriting.specs.TreeNames.{IsTable, top_of};
    ghost use Rattle.root_rewriting.specs.declared.unfold.top.Top.{Top};

    ghost Value = { List Top };

    ghost view = { λ t. map top_of t.entries.items };

    ghost invariant = { λ t. IsTable t.entries.items t.last };
}

impl<'p, 'a> TopTable<'p, 'a> {
    /// No names.
    pub(crate) fn new(alloc: Global) -> Self
        ensures { result ≡ [] }
    {
        TopTable {
            entries: Vec::new(alloc),
            last: HashMap::new(alloc),
        }
    }

    /// How many names there are.
    pub(crate) fn len(&self) -> usize
        ensures { result ≡ length self.now }
    {
        self.entries.len()
    }

    /// Adds a name at the end.
    pub(crate) fn push(&mut self, top: Top<'p, 'a>) -> Result<(), AllocError>
        ensures added { OnOk result (self.new ≡ self.old ++ (top.entry ∷ [])) }
        ensures stay { OnErr result (self.new ≡ self.old) }
    {
        self.entries.reserve(1)?;
        let earlier = self.last.insert(top.name.as_slice(), self.entries.len())?;
        self.entries.push_reserved(Entry { top, earlier });
        Ok(())
    }

    /// The last of this name among the first names of the top: how many stand before it, and what it stands for.
    pub(crate) fn known(&self, visible: usize, name: &Name) -> Option<(usize, Known<'p, 'a>)>
        ensures { result ≡ top_known name.now self.now visible }
    {
        let mut found = self.last.get(name.as_slice()).copied();
        while let Some(place) = found {
            let entry = &self.entries[place];
            if place < visible {
                return Some((place, entry.top.known));
            }
            found = entry.earlier;
        }
        None
    }
}
