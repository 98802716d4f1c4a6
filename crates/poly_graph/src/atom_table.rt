// Atoms by number, each once.
ghost use Rattle.std.specs.Prelude.{◌≡◌, ℕ, ◌<◌, ◌^◌, ◌-◌, [], ◌∷◌, ◌++◌, length, map, take, MatchResult, OnOk, OnErr, Some};
ghost use Rattle.std.specs.HashMap.{Updates, IsUnchanged};
ghost use Rattle.poly_graph.specs.Views.{atom_of};
ghost use Rattle.poly_graph.specs.AtomTable.{same_atom, AreAtoms, AtomInterned, AtomRefused};

use crate::node::Atom;
use crate::refused::{Limit, NoNode};
use std::alloc::{AllocError, Global};
use std::collections::HashMap;
use std::marker::Model;

/// As many atoms as there may be.
pub const MOST_ATOMS: usize = 65_536;

/// Atoms by number, in the order of their first appearance: equal ones are one.
#[derive(Drop)]
pub struct AtomTable {
    atoms: Vec<Atom>,
    numbers: HashMap<Atom, u32>,
}

impl Model for AtomTable {
    ghost use Rattle.std.specs.Prelude.{ℕ, List, map};
    ghost use Rattle.poly_graph.specs.Term.{Kind};
    ghost use Rattle.poly_graph.specs.Views.{atom_of};
    ghost use Rattle.poly_graph.specs.AtomTable.{IsAtomTable};

    ghost Value = { List (ℕ × Kind) };

    ghost view = { λ t. map atom_of t.atoms.items };

    ghost invariant = { λ t. IsAtomTable t.atoms.items t.numbers };
}

// Adds an atom with its number at the end, or leaves both as they were.
fn add(
    atoms: &mut Vec<Atom>,
    numbers: &mut HashMap<Atom, u32>,
    atom: Atom,
    n: u32,
) -> Result<(), AllocError>
    ensures items { OnOk result (atoms.new.items ≡ atoms.old.items ++ (atom ∷ [])) }
    ensures numbers { OnOk result (Updates same_atom numbers.old numbers.new atom (Some n)) }
    ensures items_stay { OnErr result (atoms.new.items ≡ atoms.old.items) }
    ensures numbers_stay { OnErr result (IsUnchanged numbers.old numbers.new) }
{
    atoms.push(atom)?;
    if numbers.insert(atom, n).is_err() {
        let _ = atoms.pop();
        return Err(AllocError);
    }
    Ok(())
}

impl AtomTable {
    /// No atoms.
    pub fn new(alloc: Global) -> Self
        ensures { result ≡ [] }
    {
        AtomTable {
            atoms: Vec::new(alloc),
            numbers: HashMap::new(alloc),
        }
    }

    /// The number of the atom, which is added where it did not stand yet.
    pub fn intern(&mut self, atom: Atom) -> Result<u32, NoNode>
        ensures { MatchResult result
            (AtomInterned self.old self.new (atom_of atom))
            (AtomRefused self.old self.new (atom_of atom)) }
    {
        if let Some(n) = self.numbers.get(&atom) {
            return Ok(*n);
        }
        let n = self.atoms.len();
        if n >= MOST_ATOMS {
            return Err(NoNode::TooMany(Limit::Atoms));
        }
        if add(&mut self.atoms, &mut self.numbers, atom, n as u32).is_err() {
            return Err(NoNode::Memory);
        }
        Ok(n as u32)
    }

    // The last atom is taken back, if there is one.
    fn drop_last(&mut self)
        ensures { self.new ≡ take (length self.old - 1) self.old }
    {
        if let Some(atom) = self.atoms.pop() {
            self.numbers.remove(&atom);
        }
    }

    /// Only the first n atoms stay. It takes the time of those that are taken back.
    pub fn truncate(&mut self, n: usize)
        ensures { self.new ≡ take n self.old }
    {
        while self.atoms().len() > n {
            self.drop_last();
        }
    }

    /// The atoms, by number; at most 65,536.
    pub fn atoms(&self) -> &[Atom]
        ensures items { map atom_of result.now ≡ self.now }
        ensures atoms { AreAtoms self.now }
    {
        &self.atoms
    }

    /// The atoms, by number, without the table.
    pub fn into_atoms(self) -> Vec<Atom>
        ensures items { map atom_of result.items ≡ self }
        ensures atoms { AreAtoms self }
    {
        self.atoms
    }
}
