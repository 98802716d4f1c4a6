// What it costs to make each node of the form hold: the squares of what the terms exceed their bounds by.
use crate::bounds::Bounds;
use floats::{at, set};
use poly_graph::{FormNode, Kind, Mark};
use std::alloc::{AllocError, Global};

/// The cost of what can't hold.
const FAR: f64 = 1e30;

/// The cost of a value that a Bool has not yet: less than an atom's that is missed, more than one's that holds.
const UNDECIDED: f64 = 1e-15;

// What a value exceeds the bound of a kind by.
fn excess(kind: Kind, value: f64) -> f64 {
    match kind {
        Kind::Le if value < 0.0 => 0.0,
        Kind::Ge if value > 0.0 => 0.0,
        _ => value,
    }
}

/// What a value exceeds the bound of an atom by; 0 where there is no such atom.
pub fn excess_over(bounds: &Bounds, j: usize, value: f64) -> f64 {
    let atoms = bounds.problem.atoms();
    if j < atoms.len() {
        excess(atoms[j].kind, value)
    } else {
        0.0
    }
}

/// What the term of an atom exceeds its bound by; 0 where there is no such atom.
pub fn excess_of(bounds: &Bounds, values: &[f64], j: usize) -> f64 {
    excess_over(bounds, j, bounds.term_value(values, j))
}

// Whether the atom is marked no.
fn is_no(bounds: &Bounds, j: usize) -> bool {
    let marks = bounds.lits.marks();
    j < marks.len() && matches!(marks[j], Mark::No)
}

// The cost of an atom.
fn atom_cost(bounds: &Bounds, values: &[f64], j: usize) -> f64 {
    if is_no(bounds, j) {
        return FAR;
    }
    let excess = excess_of(bounds, values, j);
    excess * excess
}

/// The value that a Bool axis has, if it has one.
pub fn bool_at(bools: &[Option<bool>], axis: u32) -> Option<bool> {
    let axis = axis as usize;
    if axis < bools.len() {
        bools[axis]
    } else {
        None
    }
}

// The sum of these entries.
fn sum(costs: &[f64], numbers: &[u32]) -> f64 {
    let mut total = 0.0;
    for k in numbers {
        total += at(costs, *k as usize);
    }
    total
}

/// The first of the least of these entries, with its number; none where all are too great.
pub fn cheapest(costs: &[f64], numbers: &[u32]) -> Option<(u32, f64)> {
    let mut best = None;
    let mut least = 1e300;
    for k in numbers {
        let cost = at(costs, *k as usize);
        if cost < least {
            least = cost;
            best = Some((*k, cost));
        }
    }
    best
}

// The cost of a node whose children have these costs.
fn cost(
    bounds: &Bounds,
    values: &[f64],
    bools: &[Option<bool>],
    costs: &[f64],
    node: &FormNode,
) -> f64 {
    match node {
        FormNode::True => 0.0,
        FormNode::False => FAR,
        FormNode::AtomIs(j) => atom_cost(bounds, values, *j as usize),
        FormNode::BoolIs(axis, value) => match bool_at(bools, *axis) {
            Some(other) if other != *value => FAR,
            Some(_) => 0.0,
            None => UNDECIDED,
        },
        FormNode::And(numbers) => sum(costs, numbers),
        FormNode::Or(numbers) => match cheapest(costs, numbers) {
            Some((_, cost)) => cost,
            None => FAR,
        },
    }
}

/// The costs of all nodes of the form where the terms have these values and the Bools these.
pub fn costs(
    alloc: Global,
    bounds: &Bounds,
    values: &[f64],
    bools: &[Option<bool>],
) -> Result<Vec<f64, Global>, AllocError> {
    let forms = bounds.problem.forms();
    let mut costs = vec![in alloc; 0.0; forms.len()]?;
    for n in 0..forms.len() {
        let cost = cost(bounds, values, bools, &costs, forms.node(n as u32));
        set(&mut costs, n, cost);
    }
    Ok(costs)
}
