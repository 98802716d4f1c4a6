// A form as clauses.
ghost use Rattle.std.specs.Prelude.{◌≡◌, ◌<◌, ◌↔◌, length, Some, IsTrue, slice_get};
ghost use Rattle.clause_search.specs.Clauses.{AreNamed, HasVariablesIn};

use crate::clause_list::ClauseList;
use crate::literal::Literal;
use std::marker::Model;

/// Clauses of which every one is to have a true literal, over so many atoms, axes and helpers.
#[derive(Drop)]
pub struct Cnf {
    made: ClauseList,
    atom_count: u32,
    axis_count: u32,
    helper_count: u32,
}

impl Model for Cnf {
    ghost use Rattle.clause_search.specs.Clauses as words;
    ghost use Rattle.clause_search.specs.Clauses.{AreNamed};

    ghost Value = { words.Cnf };

    ghost view = { λ c. record {
      clauses = c.made;
      atoms = c.atom_count;
      axes = c.axis_count;
      helpers = c.helper_count;
    } };

    ghost invariant = { λ c. AreNamed c.atom_count c.axis_count c.helper_count c.made };
}

impl Cnf {
    // These clauses over so many atoms, axes and helpers.
    pub(crate) fn new(made: ClauseList, atom_count: u32, axis_count: u32, helper_count: u32) -> Self
        requires { AreNamed atom_count axis_count helper_count made }
        ensures { result ≡ record {
          clauses = made;
          atoms = atom_count;
          axes = axis_count;
          helpers = helper_count;
        } }
    {
        Cnf {
            made,
            atom_count,
            axis_count,
            helper_count,
        }
    }

    /// How many clauses there are.
    pub fn len(&self) -> usize
        ensures { result ≡ length self.now.clauses }
    {
        self.made.len()
    }

    /// Whether there are no clauses.
    pub fn is_empty(&self) -> bool
        ensures { IsTrue result ↔ (length self.now.clauses ≡ 0) }
    {
        self.made.len() == 0
    }

    /// The literals of clause i.
    pub fn clause(&self, i: usize) -> &[Literal]
        requires { i < length self.now.clauses }
        ensures clause { slice_get self.now.clauses i ≡ Some result.now }
        ensures named { HasVariablesIn self.now result.now }
    {
        self.made.clause(i)
    }

    /// How many atoms there are: each atom that a clause names has a smaller number.
    pub fn atoms(&self) -> u32
        ensures { result ≡ self.now.atoms }
    {
        self.atom_count
    }

    /// How many axes there are: each axis that a clause names has a smaller number.
    pub fn axes(&self) -> u32
        ensures { result ≡ self.now.axes }
    {
        self.axis_count
    }

    /// How many helpers there are: each helper that a clause names has a smaller number.
    pub fn helpers(&self) -> u32
        ensures { result ≡ self.now.helpers }
    {
        self.helper_count
    }
}
