// The two groups of atoms that a state may be parted by: a heuristic that promises nothing.
use crate::choice::{is_open_atom, is_open_axis};
use crate::needs::{Needs, is_set};
use cover_rule::State;
use poly_graph::{FormNode, Problem};
use std::alloc::{AllocError, Global};

// The atoms that are not marked among those below a node.
#[derive(Drop)]
struct Group {
    // for each atom whether it is one of them
    atoms: Vec<bool, Global>,
    // whether the node holds where they all do
    is_whole: bool,
}

// Notes that the node is looked at.
fn flag(flags: &mut [bool], n: usize) {
    if n < flags.len() {
        flags[n] = true;
    }
}

// Looks at a node: notes its children where it is a conjunction, and what it asks of the state where it is an atom.
fn look(needs: &Needs, state: &State, node: &FormNode, under: &mut [bool], group: &mut Group) {
    match node {
        FormNode::And(children) => {
            for k in children {
                if !is_set(&needs.done, *k as usize) {
                    flag(under, *k as usize);
                }
            }
        }
        FormNode::AtomIs(j) => {
            if is_open_atom(state, *j) {
                flag(&mut group.atoms, *j as usize);
            }
        }
        FormNode::BoolIs(axis, _) => {
            if is_open_axis(state, *axis) {
                group.is_whole = false;
            }
        }
        FormNode::Or(_) => group.is_whole = false,
        FormNode::True | FormNode::False => {}
    }
}

// The atoms that a child of a disjunction asks for and that are not marked; none where it asks for something else, too.
fn group_at(
    alloc: Global,
    problem: &Problem,
    needs: &Needs,
    state: &State,
    child: u32,
) -> Result<Option<Vec<u32>>, AllocError> {
    let forms = problem.forms();
    let mut under = vec![in alloc; false; forms.len()]?;
    let mut group = Group {
        atoms: vec![in alloc; false; problem.atoms().len()]?,
        is_whole: true,
    };
    flag(&mut under, child as usize);
    for n in (0..forms.len()).rev() {
        if is_set(&under, n) {
            look(needs, state, forms.node(n as u32), &mut under, &mut group);
        }
    }
    if !group.is_whole {
        return Ok(None);
    }
    let mut atoms = Vec::new(alloc);
    for j in 0..group.atoms.len() {
        if is_set(&group.atoms, j) {
            let Ok(atom) = u32::try_from(j) else {
                return Ok(None);
            };
            atoms.push(atom)?;
        }
    }
    Ok(Some(atoms))
}

// The two children that may hold, where there are two.
fn two_children(needs: &Needs, children: &[u32]) -> Option<(u32, u32)> {
    let mut first = None;
    let mut second = None;
    for k in children {
        if is_set(&needs.may, *k as usize) {
            if second.is_some() {
                return None;
            }
            if first.is_some() {
                second = Some(*k);
            } else {
                first = Some(*k);
            }
        }
    }
    Some((first?, second?))
}

/// What the two children of a needed disjunction that may hold ask for, each atoms that are not marked: more than one atom
/// in one of the two. None where there are other children or they ask for something else, too. (With one atom each, a branch
/// at one of them says more of its other side.)
pub fn groups(
    alloc: Global,
    problem: &Problem,
    needs: &Needs,
    state: &State,
    disjunction: u32,
) -> Result<Option<(Vec<u32>, Vec<u32>)>, AllocError> {
    let forms = problem.forms();
    if disjunction as usize >= forms.len() {
        return Ok(None);
    }
    let FormNode::Or(children) = forms.node(disjunction) else {
        return Ok(None);
    };
    let Some((one, other)) = two_children(needs, children) else {
        return Ok(None);
    };
    let Some(first) = group_at(alloc, problem, needs, state, one)? else {
        return Ok(None);
    };
    let Some(second) = group_at(alloc, problem, needs, state, other)? else {
        return Ok(None);
    };
    if first.len().max(second.len()) < 2 {
        return Ok(None);
    }
    Ok(Some((first, second)))
}
