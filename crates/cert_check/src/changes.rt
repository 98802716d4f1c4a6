// What makes one state of another.
ghost use Rattle.std.specs.Prelude.{◌≡◌, ◌<◌, ◌^◌, [], ◌∷◌, true, length, map, IfOk, IfSome};
ghost use Rattle.poly_graph.specs.MarkViews.{mark_of};
ghost use Rattle.ival.specs.SpaceViews.{domain_of, space_of};
ghost use Rattle.cert_check.specs.States.{state_of};
ghost use Rattle.cert_check.specs.Changed.{changed, placed};

use crate::state::State;
use ival::{Domain, Space};
use poly_graph::{Lits, Mark};
use std::alloc::{AllocError, Global};

/// Domains of axes and marks of atoms.
#[derive(Drop)]
pub struct Changes {
    pub axes: Vec<(usize, Domain)>,
    pub marks: Vec<(u32, Mark)>,
}

// Whether two domains are the same.
fn is_same_domain(a: Domain, b: Domain) -> bool
    ensures { result ≡ true → domain_of a ≡ domain_of b }
{
    match a {
        Domain::Real(a) => match b {
            Domain::Real(b) => a.low == b.low && a.high == b.high,
            Domain::Bool(_) => false,
        },
        Domain::Bool(a) => match b {
            Domain::Bool(b) => a == b,
            Domain::Real(_) => false,
        },
    }
}

// Whether two marks are the same.
fn is_same_mark(a: Mark, b: Mark) -> bool
    ensures { result ≡ true → mark_of a ≡ mark_of b }
{
    a == b
}

// The domains of the second space that are not those of the first one, which has as many axes.
fn axes_apart(alloc: Global, from: &Space, to: &Space) -> Result<Vec<(usize, Domain)>, AllocError>
    requires { length (space_of from.now) ≡ length (space_of to.now) }
    ensures { IfOk result (λ cs.
        placed domain_of cs.items (space_of from.now) ≡ space_of to.now) }
{
    let mut apart = Vec::new(alloc);
    for axis in 0..to.len() {
        let domain = to.get(axis);
        if !is_same_domain(from.get(axis), domain) {
            apart.push((axis, domain))?;
        }
    }
    Ok(apart)
}

// The marks of the second list that are not those of the first one, which is as long.
fn marks_apart(alloc: Global, from: &[Mark], to: &[Mark]) -> Result<Vec<(u32, Mark)>, AllocError>
    requires same { length from.now ≡ length to.now }
    requires few { length to.now < 2 ^ 32 }
    ensures { IfOk result (λ cs.
        placed mark_of cs.items (map mark_of from.now) ≡ map mark_of to.now) }
{
    let mut apart = Vec::new(alloc);
    for j in 0..to.len() {
        if !is_same_mark(from[j], to[j]) {
            apart.push((j as u32, to[j]))?;
        }
    }
    Ok(apart)
}

// Leaves to an axis this domain, if there is such an axis.
fn put_axis(space: &mut Space, change: (usize, Domain))
    ensures { space_of space.new ≡ placed domain_of (change ∷ []) (space_of space.old) }
{
    if change.0 < space.len() {
        space.set(change.0, change.1);
    }
}

// Gives an atom this mark, if there is such an atom.
fn put_mark(lits: &mut Lits, change: (u32, Mark))
    ensures { lits.new ≡ placed mark_of (change ∷ []) lits.old }
{
    if (change.0 as usize) < lits.len() {
        lits.set(change.0, change.1);
    }
}

// Leaves to the axes these domains.
#[tactic(auto, using(crate::proofs::Placed::placed_next, crate::proofs::Placed::placed_done))]
fn put_axes(space: &mut Space, changes: &[(usize, Domain)])
    ensures { space_of space.new ≡ placed domain_of changes.now (space_of space.old) }
{
    for change in changes {
        put_axis(space, *change);
    }
}

// Gives the atoms these marks.
#[tactic(auto, using(crate::proofs::Placed::placed_next, crate::proofs::Placed::placed_done))]
fn put_marks(lits: &mut Lits, changes: &[(u32, Mark)])
    ensures { lits.new ≡ placed mark_of changes.now lits.old }
{
    for change in changes {
        put_mark(lits, *change);
    }
}

/// What makes the second state of the first one; none where they are not of one problem.
pub fn difference(alloc: Global, from: &State, to: &State) -> Result<Option<Changes>, AllocError>
    ensures { IfOk result (λ o. IfSome o (λ c.
        changed c (state_of from.now) ≡ state_of to.now)) }
{
    let (old, new) = (from.lits.marks(), to.lits.marks());
    if from.space.len() != to.space.len()
        || old.len() != new.len()
        || new.len() > u32::MAX as usize
    {
        return Ok(None);
    }
    let axes = axes_apart(alloc, &from.space, &to.space)?;
    let marks = marks_apart(alloc, old, new)?;
    Ok(Some(Changes { axes, marks }))
}

impl Changes {
    /// The state that they make of this one.
    pub fn apply(&self, alloc: Global, state: &State) -> Result<State, AllocError>
        ensures { IfOk result (λ s. state_of s ≡ changed self.now (state_of state.now)) }
    {
        let mut state = state.try_clone(alloc)?;
        put_axes(&mut state.space, &self.axes);
        put_marks(&mut state.lits, &self.marks);
        Ok(state)
    }
}
