// What was assumed, and what follows from it.
ghost use Rattle.std.specs.Prelude.{◌≡◌, ◌↔◌, IfOk, IsTrue};
ghost use Rattle.clause_search.specs.Clauses as clauses;
ghost use Rattle.clause_search.specs.Places.{HasPlaces};

use crate::table::Table;
use crate::watches::Watches;
use crate::{Cnf, Literal, Variable};
use std::alloc::{AllocError, Global};

/// Literals that were assumed, and those that clauses derived from them.
#[derive(Drop)]
pub struct Trail {
    pub(crate) atoms: u32,
    pub(crate) axes: u32,
    pub(crate) helpers: u32,
    // what is on the trail
    pub(crate) values: Table,
    pub(crate) assumed: Table,
    // a literal was assumed whose opposite had been derived
    pub(crate) failed: bool,
    pub(crate) watches: Watches,
    ghost places: { HasPlaces atoms axes helpers values assumed },
}

impl Trail {
    ghost use Rattle.clause_search.specs.Trail.{IsTrailOf, CanAssume, AssumesAlso, SameVariables, IsEmpty, stands_on, undecided_on};

    /// An empty trail over these clauses.
    pub fn new(alloc: Global, cnf: &Cnf) -> Result<Self, AllocError>
        ensures made { IfOk result (IsTrailOf cnf.now) }
        ensures empty { IfOk result IsEmpty }
    {
        let atoms = cnf.atoms();
        let axes = cnf.axes();
        let helpers = cnf.helpers();
        Ok(Trail {
            atoms,
            axes,
            helpers,
            values: Table::new(alloc, atoms, axes, helpers)?,
            assumed: Table::new(alloc, atoms, axes, 0)?,
            failed: false,
            watches: Watches::new(alloc, cnf)?,
        })
    }

    /// Forgets all that was assumed and derived.
    pub fn clear(&mut self)
        ensures empty { IsEmpty self.new }
        ensures same { SameVariables self.old self.new }
        ensures kept { (c : clauses.Cnf) → IsTrailOf c self.old → IsTrailOf c self.new }
    {
        self.values.clear();
        self.assumed.clear();
        self.failed = false;
        self.watches.restart();
    }

    /// Whether the literal may be assumed: it is one of an atom or a Bool value, and its opposite was not assumed.
    pub fn can_assume(&self, literal: Literal) -> bool
        ensures { IsTrue result ↔ CanAssume self.now literal }
    {
        let is_there = match literal.variable {
            Variable::Atom(j) => j < self.atoms,
            Variable::BoolIs(axis, _) => axis < self.axes,
            Variable::Helper(_) => false,
        };
        is_there && !self.assumed.is_false(literal)
    }

    /// Assumes a literal of an atom or a Bool value whose opposite was not assumed.
    pub fn assume(&mut self, literal: Literal)
        requires { CanAssume self.old literal }
        ensures assumed { AssumesAlso self.old self.new literal }
        ensures kept { (c : clauses.Cnf) → IsTrailOf c self.old → IsTrailOf c self.new }
    {
        self.assumed.make_true(literal);
        if self.values.is_open(literal.variable) {
            self.values.make_true(literal);
            self.watches.enqueue(literal);
        } else if self.values.is_false(literal) {
            self.failed = true;
        }
    }

    /// Whether the literal is on the trail.
    pub fn stands(&self, literal: Literal) -> bool
        ensures { result ≡ stands_on self.now literal }
    {
        self.values.is_true(literal)
    }

    /// Whether neither the variable nor its opposite is on the trail.
    pub fn is_undecided(&self, variable: Variable) -> bool
        ensures { result ≡ undecided_on self.now variable }
    {
        self.values.is_open(variable)
    }
}
