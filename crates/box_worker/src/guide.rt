// What the clauses of a form say at a state: which atoms and Bool values it needs, and which cannot hold. It promises
// nothing: each line is tested by the patch, so a guide that is wrong costs time, and no answer.
ghost use Rattle.std.specs.Prelude.{◌≡◌, ◌<◌, length};

use crate::facts::may_hold_at;
use crate::fallen::changed_axes;
use clause_search::{Cnf, Literal, Prop, Trail, Variable, clauses, variable_at};
use cover_rule::{Patch, State};
use ival::{Domain, Space, Truths};
use poly_graph::{FormNode, Lits, Mark, Problem};
use std::alloc::{AllocError, Global};
use std::marker::Model;
use std::mem;

/// The clauses of a form, and a trail of what was seen of the last state that was looked at and of what follows from it.
#[derive(Drop)]
pub struct Guide {
    cnf: Cnf,
    trail: Trail,
    last: Option<State>,
}

impl Model for Guide {
    ghost use Rattle.clause_search.specs.Clauses as clauses;
    ghost use Rattle.clause_search.specs.Trail.{IsTrailOf};

    ghost Value = { clauses.Cnf };

    ghost view = { λ g. g.cnf };

    ghost invariant = { λ g. IsTrailOf g.cnf g.trail };
}

// Whether the problem's form has a disjunction.
fn has_disjunction(problem: &Problem) -> bool {
    let forms = problem.forms();
    for n in 0..forms.len() {
        if matches!(forms.node(n as u32), FormNode::Or(_)) {
            return true;
        }
    }
    false
}

// By their bits the axes in which a state differs from one that covers it; none where it does not.
fn changes(last: &State, state: &State) -> Option<u64> {
    let old = last.space();
    let new = state.space();
    if old.len() == new.len() && last.lits().len() == state.lits().len() && last.covers(state) {
        Some(changed_axes(old, new))
    } else {
        None
    }
}

// Whether there is such an atom, and it is marked.
fn is_marked(lits: &Lits, j: u32) -> bool {
    let marks = lits.marks();
    let j = j as usize;
    j < marks.len() && !matches!(marks[j], Mark::Neither)
}

// Whether atom j depends on an axis that has changed, if it is known which have.
fn is_due(masks: &[u64], changed: Option<u64>, j: usize) -> bool {
    match changed {
        Some(changed) => j < masks.len() && masks[j] & changed != 0,
        None => true,
    }
}

impl Guide {
    /// The clauses of the problem's form; none where it is a conjunction alone.
    pub fn of(alloc: Global, problem: &Problem) -> Result<Option<Guide>, AllocError> {
        if !has_disjunction(problem) {
            return Ok(None);
        }
        let cnf = clauses(alloc, problem)?;
        let trail = Trail::new(alloc, &cnf)?;
        Ok(Some(Guide {
            cnf,
            trail,
            last: None,
        }))
    }

    /// Whether the form needs the node to hold.
    pub fn needs(&self, problem: &Problem, n: u32) -> bool
        requires { n < length problem.now.forms }
    {
        self.stands(variable_at(problem, n), true)
    }

    /// Whether the node may hold.
    pub fn may(&self, problem: &Problem, n: u32) -> bool
        requires { n < length problem.now.forms }
    {
        !self.stands(variable_at(problem, n), false)
    }

    /// Whether the form needs atom j.
    pub fn needs_atom(&self, j: u32) -> bool {
        self.stands(Variable::Atom(j), true)
    }

    // Whether the variable, or where it is not positive its opposite, is on the trail.
    fn stands(&self, variable: Variable, positive: bool) -> bool {
        self.trail.stands(Literal { variable, positive })
    }

    // Assumes the variable, or where it is not positive its opposite, where it may be assumed.
    fn assume(&mut self, variable: Variable, positive: bool) {
        let literal = Literal { variable, positive };
        if self.trail.can_assume(literal) {
            self.trail.assume(literal);
        }
    }

    // By their bits the axes that have changed since the last state; none where it does not cover this one.
    fn changes_to(&self, state: &State) -> Option<u64> {
        match &self.last {
            Some(last) => changes(last, state),
            None => None,
        }
    }

    // Forgets what is known, unless the last state covers this one. By their bits the axes that have changed since
    // then; none where all was forgotten.
    fn go_to(&mut self, alloc: Global, state: &State) -> Result<Option<u64>, AllocError> {
        let next = state.try_clone(alloc)?;
        let changed = self.changes_to(state);
        if changed.is_none() {
            self.trail.clear();
        }
        drop(mem::replace(&mut self.last, Some(next)));
        Ok(changed)
    }

    // Assumes what the state says of atom j, of which nothing is on the trail. Where the atom is not marked, its
    // enclosure is looked at only if it is due.
    fn note_atom(&mut self, patch: &Patch, j: u32, is_due: bool) {
        let is_marked = is_marked(patch.reached().lits(), j);
        if !is_marked && !is_due {
            return;
        }
        if !may_hold_at(patch, j) {
            self.assume(Variable::Atom(j), false);
        } else if is_marked {
            self.assume(Variable::Atom(j), true);
        }
    }

    // Assumes what the state says of the atoms of which nothing is on the trail. Those are due that depend on an axis
    // that has changed, all where it is not known which have.
    fn note_atoms(&mut self, patch: &Patch, masks: &[u64], changed: Option<u64>) {
        for j in 0..self.cnf.atoms() {
            if self.trail.is_undecided(Variable::Atom(j)) {
                self.note_atom(patch, j, is_due(masks, changed, j as usize));
            }
        }
    }

    // Assumes the one value that is left to a Bool axis.
    fn note_value(&mut self, axis: u32, value: bool) {
        self.assume(Variable::BoolIs(axis, value), true);
        self.assume(Variable::BoolIs(axis, !value), false);
    }

    // Assumes what the space says of a Bool axis.
    fn note_axis(&mut self, space: &Space, axis: u32) {
        if axis as usize >= space.len() {
            return;
        }
        match space.get(axis as usize) {
            Domain::Bool(Truths::True) => self.note_value(axis, true),
            Domain::Bool(Truths::False) => self.note_value(axis, false),
            Domain::Bool(Truths::Either) => {}
            Domain::Real(_) => {}
        }
    }

    // Assumes what the space says of the Bool axes.
    fn note_axes(&mut self, space: &Space) {
        for axis in 0..self.cnf.axes() {
            self.note_axis(space, axis);
        }
    }

    // Derives what the clauses force, up to the first atom.
    fn derive_next(&mut self) -> Result<Prop, AllocError> {
        self.trail.propagate(&self.cnf)
    }

    // Derives what the clauses force; whether that is no contradiction.
    fn derive(&mut self) -> Result<bool, AllocError> {
        // each atom is forced once at most
        for _ in 0..u64::from(self.cnf.atoms()) + 1 {
            match self.derive_next()? {
                Prop::Forced(_) => {}
                Prop::Conflict => return Ok(false),
                Prop::Rest => return Ok(true),
            }
        }
        Ok(true)
    }

    /// Looks at the state that the patch has reached; whether the form may hold there. `masks` has for each atom the bits
    /// of the axes that it depends on.
    pub fn look(
        &mut self,
        alloc: Global,
        patch: &Patch,
        masks: &[u64],
    ) -> Result<bool, AllocError> {
        let state = patch.reached();
        let changed = self.go_to(alloc, state)?;
        self.note_axes(state.space());
        self.note_atoms(patch, masks, changed);
        self.derive()
    }
}
