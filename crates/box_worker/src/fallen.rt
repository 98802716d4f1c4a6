// Which axes of a space fell by about a tenth, and which atoms depend on them: a heuristic that promises nothing.
ghost use Rattle.std.specs.Prelude.{◌≡◌, length};

use crate::needs::is_set;
use dyadic::{Ext, add_down, at_most, mid};
use ival::{Domain, Range, Space};
use poly_graph::{Node, Problem};
use std::alloc::{AllocError, Global};

/// The bit of an axis: that of its number modulo 64.
pub fn bit_of(axis: u32) -> u64 {
    1 << (axis % 64)
}

// Whether the new side is at most 29/32 of the old one.
fn has_fallen(old: Range, new: Range) -> bool {
    let half = mid(old.low, old.high);
    let quarter = mid(old.low, half);
    let eighth = mid(old.low, quarter);
    let sixteenth = mid(old.low, eighth);
    let part = mid(sixteenth, eighth);
    at_most(
        add_down(Ext::Fin(new.high), Ext::Fin(part)),
        add_down(Ext::Fin(new.low), Ext::Fin(old.high)),
    )
}

// Whether a domain fell by about a tenth.
fn fell(old: Domain, new: Domain) -> bool {
    match (old, new) {
        (Domain::Real(old), Domain::Real(new)) => has_fallen(old, new),
        _ => true,
    }
}

/// Puts the new space into the old one, and gives by their bits which axes fell by about a tenth.
pub fn take_over(old: &mut Space, new: &Space) -> u64 {
    let mut fallen = 0;
    for axis in 0..new.len() {
        if axis < old.len() {
            let before = old.get(axis);
            let after = new.get(axis);
            if before != after {
                if fell(before, after) {
                    fallen |= bit_of((axis % 64) as u32);
                }
                old.set(axis, after);
            }
        }
    }
    fallen
}

/// By their bits the axes in which two spaces differ.
pub fn changed_axes(old: &Space, new: &Space) -> u64 {
    let mut changed = 0;
    for axis in 0..new.len() {
        if axis < old.len() && old.get(axis) != new.get(axis) {
            changed |= bit_of((axis % 64) as u32);
        }
    }
    changed
}

// The mask of a node, none where there is no such one.
fn mask_at(masks: &[u64], n: u32) -> u64 {
    let n = n as usize;
    if n < masks.len() { masks[n] } else { 0 }
}

// The mask of a node whose children have these.
fn mask_of(node: Node, masks: &[u64]) -> u64 {
    match node {
        Node::Const(_) => 0,
        Node::Var(axis) => bit_of(axis),
        Node::Neg(a) => mask_at(masks, a),
        Node::Sq(a) => mask_at(masks, a),
        Node::Add(a, b) => mask_at(masks, a) | mask_at(masks, b),
        Node::Mul(a, b) => mask_at(masks, a) | mask_at(masks, b),
    }
}

// For each node the bits of the axes that it depends on.
fn node_masks(alloc: Global, problem: &Problem) -> Result<Vec<u64, Global>, AllocError> {
    let graph = problem.graph();
    let mut masks = Vec::new(alloc);
    for n in 0..graph.len() {
        let mask = mask_of(graph.node(n as u32), &masks);
        masks.push(mask)?;
    }
    Ok(masks)
}

// Whether an axis may stand more than once under a node whose children have these masks and flags.
fn repeats_at(node: Node, masks: &[u64], flags: &[bool]) -> bool {
    match node {
        Node::Const(_) | Node::Var(_) => false,
        Node::Neg(a) | Node::Sq(a) => is_set(flags, a as usize),
        Node::Add(a, b) | Node::Mul(a, b) => {
            let both = mask_at(masks, a) & mask_at(masks, b);
            both != 0 || is_set(flags, a as usize) || is_set(flags, b as usize)
        }
    }
}

/// For each atom whether an axis may stand more than once in its term: where none does, narrowing by it alone cannot be
/// bettered.
pub fn repeating_atoms(alloc: Global, problem: &Problem) -> Result<Vec<bool, Global>, AllocError> {
    let graph = problem.graph();
    let masks = node_masks(alloc, problem)?;
    let mut flags = Vec::new(alloc);
    for n in 0..graph.len() {
        let repeats = repeats_at(graph.node(n as u32), &masks, &flags);
        flags.push(repeats)?;
    }
    let mut all = Vec::new(alloc);
    for atom in problem.atoms() {
        all.push(is_set(&flags, atom.term as usize))?;
    }
    Ok(all)
}

/// For each atom the bits of the axes that it depends on.
pub fn atom_masks(alloc: Global, problem: &Problem) -> Result<Vec<u64, Global>, AllocError> {
    let masks = node_masks(alloc, problem)?;
    let mut all = Vec::new(alloc);
    for atom in problem.atoms() {
        all.push(mask_at(&masks, atom.term))?;
    }
    Ok(all)
}
