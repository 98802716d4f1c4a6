// What the form still needs at a state: a heuristic that promises nothing. A need that is missed costs boxes, and no
// answer.
ghost use Rattle.std.specs.Prelude.{◌≡◌, length};

use crate::facts::is_sure_at;
use crate::guide::Guide;
use cover_rule::Patch;
use ival::{Domain, Space, Truths};
use poly_graph::FormNode;
use std::alloc::{AllocError, Global};

/// For each node of the form whether it may hold, whether nothing is left to do for it, and whether the form
/// can't hold without it. They guide the work, and nothing rests on them.
#[derive(Drop)]
pub struct Needs {
    pub may: Vec<bool, Global>,
    pub done: Vec<bool, Global>,
    pub needed: Vec<bool, Global>,
}

/// Whether there is such a flag and it is set.
pub fn is_set(flags: &[bool], n: usize) -> bool {
    n < flags.len() && flags[n]
}

// Puts the flag in its place, where there is such a one.
fn put(flags: &mut [bool], n: usize, flag: bool) {
    if n < flags.len() {
        flags[n] = flag;
    }
}

fn all_set(flags: &[bool], numbers: &[u32]) -> bool {
    for k in numbers {
        if !is_set(flags, *k as usize) {
            return false;
        }
    }
    true
}

fn any_set(flags: &[bool], numbers: &[u32]) -> bool {
    for k in numbers {
        if is_set(flags, *k as usize) {
            return true;
        }
    }
    false
}

/// How many of these are set, none counted past the largest number of 32 bits.
pub fn count_set(flags: &[bool], numbers: &[u32]) -> u32 {
    let mut count: u32 = 0;
    for k in numbers {
        if is_set(flags, *k as usize) {
            count = count.saturating_add(1);
        }
    }
    count
}

// Whether the Bool axis has this value alone.
fn is_value(space: &Space, axis: usize, value: bool) -> bool {
    if axis >= space.len() {
        return false;
    }
    match space.get(axis) {
        Domain::Real(_) => false,
        Domain::Bool(Truths::Either) => false,
        Domain::Bool(Truths::True) => value,
        Domain::Bool(Truths::False) => !value,
    }
}

// Whether nothing is left to do for atom j.
fn is_atom_done(patch: &Patch, j: u32) -> bool {
    let state = patch.reached();
    let yes = (j as usize) < state.lits().len() && state.is_yes(j);
    yes || is_sure_at(patch, j)
}

// Whether nothing is left to do for a node that may hold, by what is known of its children.
fn is_done(patch: &Patch, done: &[bool], node: &FormNode) -> bool {
    match node {
        FormNode::True => true,
        FormNode::False => false,
        FormNode::AtomIs(j) => is_atom_done(patch, *j),
        FormNode::BoolIs(axis, v) => is_value(patch.reached().space(), *axis as usize, *v),
        FormNode::And(children) => all_set(done, children),
        FormNode::Or(children) => any_set(done, children),
    }
}

/// What is needed at the state that the patch has reached, by a guide that has looked at it. Without one the form
/// is a conjunction alone, which needs each node.
pub fn needs_at(alloc: Global, patch: &Patch, guide: &Option<Guide>) -> Result<Needs, AllocError> {
    let problem = patch.problem();
    let forms = problem.forms();
    let mut needs = Needs {
        may: vec![in alloc; true; forms.len()]?,
        done: vec![in alloc; false; forms.len()]?,
        needed: vec![in alloc; true; forms.len()]?,
    };
    for n in 0..forms.len() {
        if let Some(guide) = guide {
            put(&mut needs.may, n, guide.may(problem, n as u32));
            put(&mut needs.needed, n, guide.needs(problem, n as u32));
        }
        if is_set(&needs.may, n) {
            let node = forms.node(n as u32);
            let done = is_done(patch, &needs.done, node);
            put(&mut needs.done, n, done);
        }
    }
    Ok(needs)
}
