// Clauses that are being gathered.
ghost use Rattle.std.specs.Prelude.{◌≡◌, ◌<◌, [], ◌∷◌, ◌++◌, length, OnOk, Some, slice_get};

use crate::literal::Literal;
use std::alloc::{AllocError, Global};
use std::marker::Model;

/// A list of clauses.
#[derive(Drop)]
pub struct ClauseList {
    clauses: Vec<Vec<Literal>>,
}

impl Model for ClauseList {
    ghost use Rattle.std.specs.Prelude.{List};
    ghost use Rattle.clause_search.specs.declared.literal.Literal.{Literal};
    ghost use Rattle.clause_search.specs.Kept.{clauses_of};

    ghost Value = { List (List Literal) };

    ghost view = { λ m. clauses_of m.clauses.items };
}

impl ClauseList {
    /// No clauses.
    pub fn new(alloc: Global) -> Self
        ensures { result ≡ [] }
    {
        ClauseList {
            clauses: Vec::new(alloc),
        }
    }

    /// Adds a clause at the end.
    pub fn add(&mut self, clause: Vec<Literal>) -> Result<(), AllocError>
        ensures { OnOk result (self.new ≡ self.old ++ (clause.items ∷ [])) }
    {
        self.clauses.push(clause)?;
        Ok(())
    }

    /// How many clauses there are.
    pub fn len(&self) -> usize
        ensures { result ≡ length self.now }
    {
        self.clauses.len()
    }

    /// The literals of clause i.
    pub fn clause(&self, i: usize) -> &[Literal]
        requires { i < length self.now }
        ensures { slice_get self.now i ≡ Some result.now }
    {
        &self.clauses[i]
    }
}
