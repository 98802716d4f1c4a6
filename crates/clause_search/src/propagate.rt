// Propagation: what clauses derive one literal after another.
ghost use Rattle.std.specs.Prelude.{◌≡◌, ◌+◌, IfOk, IsTrue};
ghost use Rattle.std.specs.Result.{IsOk};
ghost use Rattle.clause_search.specs.Table.{is_true, open_count};
ghost use Rattle.clause_search.specs.Found.{UnitAmong};

use crate::clause::Found;
use crate::prop::Prop;
use crate::trail::Trail;
use crate::{Cnf, Literal, Variable};
use std::alloc::AllocError;

impl Trail {
    ghost use Rattle.clause_search.specs.Trail.{IsTrailOf, undecided_on};
    ghost use Rattle.clause_search.specs.Answers.{IsPropagation, Grows, IsUnit};

    // Puts a literal on the trail that a clause leaves alone.
    fn derive(&mut self, cnf: &Cnf, literal: Literal)
        requires made { IsTrailOf cnf.now self.old }
        requires unit { UnitAmong cnf.now self.old.values literal }
        ensures made { IsTrailOf cnf.now self.new }
        ensures grows { Grows self.old self.new }
        ensures unit { IsUnit cnf.now self.new literal }
        ensures stands { IsTrue (is_true self.new.values literal) }
        ensures fewer { open_count self.new.values + 1 ≡ open_count self.old.values }
    {
        self.values.make_true(literal);
        self.watches.enqueue(literal);
    }

    /// Derives literals by clauses that leave one literal alone, up to the first atom that comes onto the
    /// trail, a conflict, or nothing more to derive. It takes no memory, so it never fails.
    pub fn propagate(&mut self, cnf: &Cnf) -> Result<Prop, AllocError>
        requires { IsTrailOf cnf.now self.old }
        ensures made { IsTrailOf cnf.now self.new }
        ensures grows { Grows self.old self.new }
        ensures says { IfOk result (IsPropagation cnf.now self.old self.new) }
        ensures answers { IsOk result }
    {
        if self.failed {
            return Ok(Prop::Conflict);
        }
        loop {
            let literal = match self.watches.advance(&self.values, cnf) {
                Found::Settled => break,
                Found::Conflict => return Ok(Prop::Conflict),
                Found::Unit(literal) => literal,
            };
            self.derive(cnf, literal);
            if let Variable::Atom(j) = literal.variable {
                if literal.positive {
                    return Ok(Prop::Forced(j));
                }
            }
        }
        Ok(Prop::Rest)
    }
}
