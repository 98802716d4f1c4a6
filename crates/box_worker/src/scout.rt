// What guides the steps at a state. A heuristic that promises nothing: the patch tests each step.
use crate::common::Common;
use crate::fallen::{atom_masks, repeating_atoms, take_over};
use crate::guide::Guide;
use crate::needs::{Needs, is_set, needs_at};
use crate::patience::Patience;
use cover_rule::{Patch, State};
use dyadic::Dy;
use ival::Space;
use poly_graph::{Mark, Problem};
use std::alloc::{AllocError, Global};
use std::mem;

// Combinations of several atoms are left out for so many boxes in a row at most.
const MOST_LEFT_OUT: u32 = 8;

/// By what nothing is left of a state.
#[derive(Drop)]
pub enum Emptied {
    /// An atom.
    Atom(u32),
    /// Atoms with their multipliers.
    Combination(Vec<(u32, Dy), Global>),
    /// The form: it cannot hold with the marks and the enclosures of its atoms.
    Form,
}

/// What guides the steps: which atoms are due, what they depend on, in which an axis may repeat, the space as it was, by
/// what nothing is left, how long combinations of several atoms are left out, and what the form says.
#[derive(Drop)]
pub struct Scout {
    due: Vec<bool, Global>,
    masks: Vec<u64, Global>,
    repeating: Vec<bool, Global>,
    space: Space,
    void: Option<Emptied>,
    patience: Patience,
    // how long eliminations are left out
    elimination: Patience,
    // the axes that combinations of several atoms pass over at the next box
    passed: Vec<bool, Global>,
    // none where the form is a conjunction alone
    guide: Option<Guide>,
    common: Common,
    // how many nodes the form has
    forms: usize,
}

// Atom j is due.
fn make_due(due: &mut [bool], j: usize) {
    if j < due.len() {
        due[j] = true;
    }
}

// Whether atom j was due, which it is no more.
fn take_due(due: &mut [bool], j: usize) -> bool {
    if j < due.len() && due[j] {
        due[j] = false;
        true
    } else {
        false
    }
}

// Whether some atom is due.
fn any_due(due: &[bool]) -> bool {
    for is_due in due {
        if *is_due {
            return true;
        }
    }
    false
}

// Makes the atoms due that depend on an axis of the mask.
fn make_due_by(due: &mut [bool], masks: &[u64], fell: u64) {
    for j in 0..due.len() {
        if j < masks.len() && masks[j] & fell != 0 {
            due[j] = true;
        }
    }
}

// Puts each domain of a space into the other one, where it has the axis.
fn put(from: &Space, into: &mut Space) {
    for axis in 0..from.len() {
        if axis < into.len() {
            into.set(axis, from.get(axis));
        }
    }
}

// Makes each atom due.
fn make_all_due(due: &mut [bool]) {
    for is_due in due.iter_mut() {
        *is_due = true;
    }
}

impl Scout {
    /// A scout at the state of the patch, to which all atoms are due.
    pub fn new(alloc: Global, patch: &Patch) -> Result<Scout, AllocError> {
        let problem = patch.problem();
        let due = vec![in alloc; true; problem.atoms().len()]?;
        let masks = atom_masks(alloc, problem)?;
        let repeating = repeating_atoms(alloc, problem)?;
        let space = patch.reached().space().try_clone(alloc)?;
        Ok(Scout {
            due,
            masks,
            repeating,
            space,
            void: None,
            patience: Patience::new(MOST_LEFT_OUT),
            elimination: Patience::new(MOST_LEFT_OUT),
            passed: vec![in alloc; false; problem.axes().len()]?,
            guide: Guide::of(alloc, problem)?,
            common: Common::of(alloc, problem)?,
            forms: problem.forms().len(),
        })
    }

    /// Comes to the state of the patch, to which all atoms are due; whether it is a scout for the problem.
    pub fn renew(&mut self, patch: &Patch) -> bool {
        let problem = patch.problem();
        let space = patch.reached().space();
        if self.due.len() != problem.atoms().len()
            || self.space.len() != space.len()
            || self.forms != problem.forms().len()
        {
            return false;
        }
        make_all_due(&mut self.due);
        put(space, &mut self.space);
        drop(self.void.take());
        true
    }

    /// Whether an axis may stand more than once in the term of atom j.
    pub fn may_repeat(&self, j: usize) -> bool {
        is_set(&self.repeating, j)
    }

    /// Whether something is known by which nothing is left.
    pub fn is_void(&self) -> bool {
        self.void.is_some()
    }

    /// By what nothing is left, where that is known.
    pub fn take_void(&mut self) -> Option<Emptied> {
        self.void.take()
    }

    /// Notes by what nothing is left.
    pub fn note_void(&mut self, by: Emptied) {
        drop(mem::replace(&mut self.void, Some(by)));
    }

    /// Whether atom j was due, which it is no more.
    pub fn take_due(&mut self, j: usize) -> bool {
        take_due(&mut self.due, j)
    }

    /// Atom j is due.
    pub fn make_due(&mut self, j: usize) {
        make_due(&mut self.due, j);
    }

    /// Whether some atom is due.
    pub fn any_due(&self) -> bool {
        any_due(&self.due)
    }

    /// How long combinations of several atoms are left out.
    pub fn patience(&mut self) -> &mut Patience {
        &mut self.patience
    }

    /// How long eliminations are left out.
    pub fn elimination(&mut self) -> &mut Patience {
        &mut self.elimination
    }

    /// Whether combinations of several atoms narrow the axis at this box: one that gave nothing is passed over once.
    pub fn is_axis_due(&mut self, axis: usize) -> bool {
        !take_due(&mut self.passed, axis)
    }

    /// Notes whether narrowing the axis gave something.
    pub fn note_axis(&mut self, axis: usize, has_fallen: bool) {
        if !has_fallen {
            make_due(&mut self.passed, axis);
        }
    }

    /// Takes over the space, and makes the atoms due that depend on an axis that fell; whether one did.
    pub fn note_space(&mut self, space: &Space) -> bool {
        let fallen = take_over(&mut self.space, space);
        make_due_by(&mut self.due, &self.masks, fallen);
        fallen != 0
    }

    /// Whether atom j is to be marked: it is not marked, and the form needs it by its clauses or by what the children of a
    /// disjunction have in common.
    pub fn is_asked(&self, state: &State, j: u32) -> bool {
        let marks = state.lits().marks();
        if j as usize >= marks.len() || !matches!(marks[j as usize], Mark::Neither) {
            return false;
        }
        match &self.guide {
            Some(guide) => guide.needs_atom(j) || self.common.has(j),
            None => true,
        }
    }

    /// Looks at the state that the patch has reached, by the guide; whether the form may hold there.
    pub fn look(&mut self, alloc: Global, patch: &Patch) -> Result<bool, AllocError> {
        match &mut self.guide {
            Some(guide) => guide.look(alloc, patch, &self.masks),
            None => Ok(true),
        }
    }

    /// Finds what the children of disjunctions have in common, after a look that found that the form may hold.
    pub fn look_at_children(&mut self, alloc: Global, problem: &Problem) -> Result<(), AllocError> {
        match &self.guide {
            Some(guide) => self.common.look(alloc, problem, guide),
            None => Ok(()),
        }
    }

    /// What is needed at the state that the patch has reached.
    pub fn see(&mut self, alloc: Global, patch: &Patch) -> Result<Needs, AllocError> {
        self.look(alloc, patch)?;
        needs_at(alloc, patch, &self.guide)
    }
}
