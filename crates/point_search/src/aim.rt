// What is aimed at: the atoms that are to hold, and the Bools' values, by the cheapest child of each disjunction.
use crate::bounds::{Bounds, bool_left};
use crate::costs::{bool_at, cheapest, costs};
use floats::at;
use poly_graph::FormNode;
use std::alloc::{AllocError, Global};

/// At most so many Bools are settled that were to have both values.
const MOST_SETTLED: u32 = 8;

/// The atoms that are to hold, and the Bools' values.
#[derive(Drop)]
pub struct Aim {
    pub atoms: Vec<bool, Global>,
    pub bools: Vec<Option<bool>, Global>,
    /// A Bool that was to have both values.
    pub clash: Option<u32>,
}

// Sets the flag, where there is such a one.
fn set_flag(flags: &mut [bool], n: usize) {
    if n < flags.len() {
        flags[n] = true;
    }
}

/// Whether there is such a flag and it is set.
pub fn is_set(flags: &[bool], n: usize) -> bool {
    n < flags.len() && flags[n]
}

// Sets these flags.
fn set_flags(flags: &mut [bool], numbers: &[u32]) {
    for k in numbers {
        set_flag(flags, *k as usize);
    }
}

impl Aim {
    // Gives the value to a Bool, or notes that it has the other one.
    fn give(&mut self, axis: u32, value: bool) {
        match bool_at(&self.bools, axis) {
            Some(other) if other != value => self.clash = Some(axis),
            _ => {
                let axis = axis as usize;
                if axis < self.bools.len() {
                    self.bools[axis] = Some(value);
                }
            }
        }
    }

    // Takes a node of the form that is to hold: its children, or what it says of an atom or a Bool.
    fn take(&mut self, node: &FormNode, costs: &[f64], wanted: &mut [bool]) {
        match node {
            FormNode::True | FormNode::False => {}
            FormNode::AtomIs(j) => set_flag(&mut self.atoms, *j as usize),
            FormNode::BoolIs(axis, value) => self.give(*axis, *value),
            FormNode::And(numbers) => set_flags(wanted, numbers),
            FormNode::Or(numbers) => {
                if let Some((k, _)) = cheapest(costs, numbers) {
                    set_flag(wanted, k as usize);
                }
            }
        }
    }
}

// The Bools' values that are left to the box.
fn bools_of(alloc: Global, bounds: &Bounds) -> Result<Vec<Option<bool>, Global>, AllocError> {
    let mut bools = Vec::new(alloc);
    for axis in 0..bounds.space.len() {
        bools.push(bool_left(bounds.space.get(axis)))?;
    }
    Ok(bools)
}

// The atoms and Bools of the cheapest children, where some Bools have values already.
fn choose(
    alloc: Global,
    bounds: &Bounds,
    values: &[f64],
    bools: &[Option<bool>],
) -> Result<Aim, AllocError> {
    let forms = bounds.problem.forms();
    let costs = costs(alloc, bounds, values, bools)?;
    let mut wanted = vec![in alloc; false; forms.len()]?;
    set_flag(&mut wanted, bounds.problem.root() as usize);
    let mut aim = Aim {
        atoms: vec![in alloc; false; bounds.problem.atoms().len()]?,
        bools: Vec::from_slice(alloc, bools)?,
        clash: None,
    };
    for above in 0..forms.len() {
        let n = forms.len() - 1 - above;
        if is_set(&wanted, n) {
            aim.take(forms.node(n as u32), &costs, &mut wanted);
        }
    }
    Ok(aim)
}

// Gives a value to a Bool axis, where there is such a one.
fn set_bool(bools: &mut [Option<bool>], axis: u32, value: bool) {
    let axis = axis as usize;
    if axis < bools.len() {
        bools[axis] = Some(value);
    }
}

// What the form costs.
fn root_cost(
    alloc: Global,
    bounds: &Bounds,
    values: &[f64],
    bools: &[Option<bool>],
) -> Result<f64, AllocError> {
    let costs = costs(alloc, bounds, values, bools)?;
    Ok(at(&costs, bounds.problem.root() as usize))
}

// Gives that value to a Bool at which the form costs less.
fn settle(
    alloc: Global,
    bounds: &Bounds,
    values: &[f64],
    bools: &mut [Option<bool>],
    axis: u32,
) -> Result<(), AllocError> {
    set_bool(bools, axis, true);
    let with = root_cost(alloc, bounds, values, bools)?;
    set_bool(bools, axis, false);
    let without = root_cost(alloc, bounds, values, bools)?;
    if with < without {
        set_bool(bools, axis, true);
    }
    Ok(())
}

/// What is aimed at where the terms have these values.
pub fn aim_at(alloc: Global, bounds: &Bounds, values: &[f64]) -> Result<Aim, AllocError> {
    let mut bools = bools_of(alloc, bounds)?;
    for _ in 0..MOST_SETTLED {
        let aim = choose(alloc, bounds, values, &bools)?;
        match aim.clash {
            None => return Ok(aim),
            Some(axis) => settle(alloc, bounds, values, &mut bools, axis)?,
        }
    }
    choose(alloc, bounds, values, &bools)
}
