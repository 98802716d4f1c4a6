// Which atom or Bool axis a state is split at: a heuristic that promises nothing.
use crate::contraction::any_unmarked;
use crate::needs::{Needs, count_set, is_set};
use cover_rule::State;
use floats::at;
use ival::{Domain, Truths};
use poly_graph::{FormNode, Problem};
use std::alloc::{AllocError, Global};

/// What a state is split at.
#[derive(Clone, Copy)]
pub enum Choice {
    Atom(u32),
    Flip(u32),
}

/// What was chosen, and the node of the disjunction below which it stands; none where the form needs it anyway.
#[derive(Clone, Copy)]
pub struct Chosen {
    pub choice: Choice,
    pub disjunction: Option<u32>,
}

/// Whether there is such a Bool axis, and it is not decided.
pub fn is_open_axis(state: &State, axis: u32) -> bool {
    let axis = axis as usize;
    axis < state.space().len() && matches!(state.space().get(axis), Domain::Bool(Truths::Either))
}

/// Whether there is such an atom, and it is not marked.
pub fn is_open_atom(state: &State, j: u32) -> bool {
    (j as usize) < state.lits().len() && state.is_undecided(j)
}

// Whether a Bool axis is not decided.
fn any_open_axis(state: &State) -> bool {
    for axis in 0..state.space().len() {
        if matches!(state.space().get(axis), Domain::Bool(Truths::Either)) {
            return true;
        }
    }
    false
}

/// Whether an atom is not marked, or a Bool axis not decided.
pub fn is_open(state: &State) -> bool {
    any_unmarked(state) || any_open_axis(state)
}

// The first Bool axis that the form needs at one value, and that is not decided.
fn needed_axis(problem: &Problem, needs: &Needs, state: &State) -> Option<u32> {
    let forms = problem.forms();
    for n in 0..forms.len() {
        if is_set(&needs.needed, n) {
            if let FormNode::BoolIs(axis, _) = forms.node(n as u32) {
                if is_open_axis(state, *axis) {
                    return Some(*axis);
                }
            }
        }
    }
    None
}

// What to branch at below a node, and the worth of the node: the greatest of its atoms.
#[derive(Clone, Copy)]
struct Best {
    choice: Choice,
    worth: f64,
}

// The one of more worth, or else the first.
fn better(first: Option<Best>, second: Option<Best>) -> Option<Best> {
    match (first, second) {
        (Some(a), Some(b)) if b.worth > a.worth => Some(b),
        (Some(a), _) => Some(a),
        (None, b) => b,
    }
}

// The Bool axis that was chosen.
fn axis_of(best: Option<Best>) -> Option<u32> {
    match best {
        Some(best) => match best.choice {
            Choice::Flip(axis) => Some(axis),
            Choice::Atom(_) => None,
        },
        None => None,
    }
}

// The best of two nodes under one disjunction: a Bool axis before atoms, since its value says which children are left.
fn joined(first: Option<Best>, second: Option<Best>) -> Option<Best> {
    let best = better(first, second)?;
    let choice = match axis_of(first).or(axis_of(second)) {
        Some(axis) => Choice::Flip(axis),
        None => best.choice,
    };
    Some(Best {
        choice,
        worth: best.worth,
    })
}

// Atom j, where it is open.
fn best_at_atom(worths: &[f64], state: &State, j: u32) -> Option<Best> {
    if !is_open_atom(state, j) {
        return None;
    }
    Some(Best {
        choice: Choice::Atom(j),
        worth: at(worths, j as usize),
    })
}

// The Bool axis, where it is open.
fn best_at_axis(state: &State, axis: u32) -> Option<Best> {
    if !is_open_axis(state, axis) {
        return None;
    }
    Some(Best {
        choice: Choice::Flip(axis),
        worth: 0.0,
    })
}

// The best of these nodes.
fn best_of(bests: &[Option<Best>], numbers: &[u32]) -> Option<Best> {
    let mut best = None;
    for k in numbers {
        let k = *k as usize;
        if k < bests.len() {
            best = joined(best, bests[k]);
        }
    }
    best
}

// For each node what is best below it, through nodes that may hold and for which something is left to do.
fn bests(
    alloc: Global,
    problem: &Problem,
    needs: &Needs,
    worths: &[f64],
    state: &State,
) -> Result<Vec<Option<Best>, Global>, AllocError> {
    let forms = problem.forms();
    let mut bests = Vec::new(alloc);
    for n in 0..forms.len() {
        let best = if is_set(&needs.may, n) && !is_set(&needs.done, n) {
            match forms.node(n as u32) {
                FormNode::AtomIs(j) => best_at_atom(worths, state, *j),
                FormNode::BoolIs(axis, _) => best_at_axis(state, *axis),
                FormNode::And(children) => best_of(&bests, children),
                FormNode::Or(children) => best_of(&bests, children),
                FormNode::True | FormNode::False => None,
            }
        } else {
            None
        };
        bests.push(best)?;
    }
    Ok(bests)
}

// What is best below the disjunction.
fn best_at(bests: &[Option<Best>], disjunction: u32) -> Option<Chosen> {
    let n = disjunction as usize;
    if n >= bests.len() {
        return None;
    }
    Some(Chosen {
        choice: bests[n]?.choice,
        disjunction: Some(disjunction),
    })
}

// The worth of what is best below the node; none where there is no such node.
fn worth_at(bests: &[Option<Best>], n: u32) -> Option<f64> {
    let n = n as usize;
    if n < bests.len() {
        Some(bests[n]?.worth)
    } else {
        None
    }
}

// Whether more is expected of the second node.
fn is_worth_more(bests: &[Option<Best>], first: Option<u32>, second: u32) -> bool {
    let Some(first) = first else {
        return true;
    };
    match (worth_at(bests, first), worth_at(bests, second)) {
        (Some(a), Some(b)) => b > a,
        (None, _) => true,
        (Some(_), None) => false,
    }
}

// The needed disjunction of most worth, among those with the fewest children that may hold, of at most so many.
fn best_of_narrowest(
    problem: &Problem,
    needs: &Needs,
    bests: &[Option<Best>],
    most: u32,
) -> Option<u32> {
    let forms = problem.forms();
    let mut best = None;
    let mut fewest = most;
    for n in 0..forms.len() {
        if n < bests.len() && bests[n].is_some() && is_set(&needs.needed, n) {
            if let FormNode::Or(children) = forms.node(n as u32) {
                let count = count_set(&needs.may, children);
                let is_better = count == fewest && is_worth_more(bests, best, n as u32);
                if count < fewest || is_better {
                    best = Some(n as u32);
                    fewest = count;
                }
            }
        }
    }
    best
}

/// A Bool axis that the form needs at one value, else what is below the needed disjunction of most worth, among those with
/// the fewest children that may hold, of at most so many: a Bool axis, or else the atom of most worth.
pub fn choose(
    alloc: Global,
    problem: &Problem,
    needs: &Needs,
    worths: &[f64],
    state: &State,
    most: u32,
) -> Result<Option<Chosen>, AllocError> {
    if let Some(axis) = needed_axis(problem, needs, state) {
        return Ok(Some(Chosen {
            choice: Choice::Flip(axis),
            disjunction: None,
        }));
    }
    let bests = bests(alloc, problem, needs, worths, state)?;
    let Some(disjunction) = best_of_narrowest(problem, needs, &bests, most) else {
        return Ok(None);
    };
    Ok(best_at(&bests, disjunction))
}
