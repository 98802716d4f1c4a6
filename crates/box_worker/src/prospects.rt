// What is known of the axes before one is cut: a heuristic that promises nothing.
use crate::combining::is_asking_at;
use cover_rule::Patch;
use floats::{Slopes, Span, span_of_domain};
use ival::{Domain, Space};
use poly_graph::Kind;
use std::alloc::{AllocError, Global};

/// The ends of a slope that is one number may differ by rounding, by this share of its size.
const BY_ROUNDING: f64 = 1e-12;

/// What is known of an axis.
#[derive(Clone, Copy)]
pub struct Prospect {
    /// Its side; that of a Bool axis is 0.
    pub side: f64,
    /// The sum of its shares in what the atoms may change by that ask for something (smear).
    pub share: f64,
    /// Whether one of them is an equation that defines it: it is the last of several axes there, and the slope along it
    /// is one number.
    pub is_defined: bool,
}

// An axis of this domain, of which no atom has told anything yet.
fn untold(domain: Domain) -> Prospect {
    let span = span_of_domain(domain);
    Prospect {
        side: span.high - span.low,
        share: 0.0,
        is_defined: false,
    }
}

// So many axes as the space has, of which no atom has told anything yet.
fn all_untold(alloc: Global, space: &Space) -> Result<Vec<Prospect, Global>, AllocError> {
    let mut prospects = Vec::new(alloc);
    for axis in 0..space.len() {
        prospects.push(untold(space.get(axis)))?;
    }
    Ok(prospects)
}

// By so much a term may change along an axis of this side; 0 where that is no moderate number.
fn change(slope: Span, side: f64) -> f64 {
    let change = slope.size() * side;
    if change > 0.0 && change < 1e300 {
        change
    } else {
        0.0
    }
}

// The same by places; 0 where there is no such axis.
fn change_at(slopes: &[Span], prospects: &[Prospect], axis: usize) -> f64 {
    if axis < slopes.len() && axis < prospects.len() {
        change(slopes[axis], prospects[axis].side)
    } else {
        0.0
    }
}

// Adds to each axis its share in all changes of a term.
fn add_shares(slopes: &[Span], prospects: &mut [Prospect]) {
    let mut sum = 0.0;
    for axis in 0..prospects.len() {
        sum += change_at(slopes, prospects, axis);
    }
    if sum > 0.0 {
        for axis in 0..prospects.len() {
            prospects[axis].share += change_at(slopes, prospects, axis) / sum;
        }
    }
}

// Whether the slope is one number, but for rounding.
fn is_one_number(slope: Span) -> bool {
    slope.high - slope.low <= BY_ROUNDING * slope.size()
}

// The last of several axes along which a term may change, if the slope along it is one number.
fn defined_axis(slopes: &[Span]) -> Option<usize> {
    let mut last = None;
    let mut count = 0_usize;
    for axis in 0..slopes.len() {
        if slopes[axis].size() > 0.0 {
            last = Some(axis);
            count = count.saturating_add(1);
        }
    }
    let axis = last?;
    if count > 1 && axis < slopes.len() && is_one_number(slopes[axis]) {
        Some(axis)
    } else {
        None
    }
}

// Notes what an atom that asks for something tells of the axes, by the slopes of its term.
fn note(kind: Kind, slopes: &[Span], prospects: &mut [Prospect]) {
    add_shares(slopes, prospects);
    if matches!(kind, Kind::Eq) {
        if let Some(axis) = defined_axis(slopes) {
            if axis < prospects.len() {
                prospects[axis].is_defined = true;
            }
        }
    }
}

/// What is known of each axis of the space that the patch has reached.
pub fn prospects(alloc: Global, patch: &Patch) -> Result<Vec<Prospect, Global>, AllocError> {
    let problem = patch.problem();
    let graph = problem.graph();
    let atoms = problem.atoms();
    let mut prospects = all_untold(alloc, patch.reached().space())?;
    let mut slopes = Slopes::of(alloc, graph, prospects.len())?;
    for j in 0..atoms.len() {
        if is_asking_at(patch, j) {
            let of_term = slopes.sweep(graph, atoms[j].term, patch.rows());
            note(atoms[j].kind, of_term, &mut prospects);
        }
    }
    Ok(prospects)
}
