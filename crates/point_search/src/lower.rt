// Descents along a goal from a point at which the form holds.
use crate::bounds::{Bounds, small};
use crate::descent::{Descent, Hill, Slide};
use crate::exact::space_at;
use crate::lagrangian::Lagrangian;
use crate::search::{MOST_AXES, MOST_NODES};
use crate::stand::Stand;
use ival::{Domain, Space};
use poly_graph::{Lits, Problem};
use std::alloc::{AllocError, Global};

/// At most so many times it goes down.
const MOST_ROUNDS: u32 = 12;

/// Going down ends after so much work, in nodes that are evaluated.
const MOST_WORK: u64 = 1 << 24;

/// It goes down where a point and the slopes there are at most so much work.
const MOST_POINT_WORK: u64 = 1 << 20;

/// The atoms are held well enough where their slack is less than this part of delta.
const ENOUGH: f64 = 0.3;

/// A fall by less than this part of the gap counts as none.
const PART_OF_GAP: f64 = 0.0625;

/// What is to fall: the term of an atom of the problem, whose form is to hold with its atoms loosened by 2 to the power of
/// minus `delta_bits`. A fall by far less than 2 to the power of minus `gap_bits` counts as none.
#[derive(Clone, Copy)]
pub struct Goal<'a> {
    pub problem: &'a Problem,
    pub atom: u32,
    pub gap_bits: u32,
    pub delta_bits: u32,
}

// The box where the Bools are as in the point.
fn box_around(alloc: Global, root: &Space, from: &Space) -> Result<Space, AllocError> {
    let mut space = root.try_clone(alloc)?;
    for axis in 0..from.len() {
        if let Domain::Bool(truths) = from.get(axis) {
            if axis < space.len() {
                space.set(axis, Domain::Bool(truths));
            }
        }
    }
    Ok(space)
}

// How much work a point and the slopes there are.
fn point_work(bounds: &Bounds, lagrangian: &Lagrangian) -> u64 {
    let terms = (lagrangian.len() as u64).saturating_add(1);
    terms.saturating_mul(bounds.problem.graph().len() as u64)
}

// Goes down along the Lagrangian from a point.
fn slide_down<'a>(
    alloc: Global,
    bounds: &'a Bounds<'a>,
    lagrangian: &'a Lagrangian,
    x: Vec<f64, Global>,
) -> Result<Descent, AllocError> {
    let hill = Hill::Lagrangian(lagrangian);
    let slide = Slide { bounds, hill };
    slide.go(alloc, x)
}

// The best of the points so far: the value of the goal there, and its space once there is a better one than the first.
#[derive(Drop)]
struct Best {
    value: f64,
    space: Option<Space>,
}

impl Best {
    // Takes a point where the form may be sure, if the goal's value is lower there.
    fn take(
        &mut self,
        alloc: Global,
        bounds: &Bounds,
        goal: usize,
        there: &Stand,
    ) -> Result<(), AllocError> {
        let value = bounds.term_value(&there.values, goal);
        if there.is_met(bounds) && value < self.value {
            self.value = value;
            self.space = Some(space_at(alloc, bounds, there)?);
        }
        Ok(())
    }
}

// The best of the points to which rounds of going down lead; none where none of them is better.
fn go_down(
    alloc: Global,
    bounds: &Bounds,
    goal: usize,
    mut lagrangian: Lagrangian,
    first: Stand,
) -> Result<Option<Space>, AllocError> {
    let point_work = point_work(bounds, &lagrangian);
    let mut best = Best {
        value: bounds.term_value(&first.values, goal),
        space: None,
    };
    let mut x = first.x;
    let mut slack = 1e300;
    let mut work = 0;
    for round in 0..MOST_ROUNDS {
        let descent = slide_down(alloc, &*bounds, &lagrangian, x)?;
        work = point_work
            .saturating_mul(u64::from(descent.points))
            .saturating_add(work);
        let there = Stand::at(alloc, bounds, descent.x)?;
        best.take(alloc, bounds, goal, &there)?;
        let left = lagrangian.slack(bounds, &there.values);
        if work > MOST_WORK || round > 0 && !(left.plain >= ENOUGH * bounds.delta) {
            return Ok(best.space);
        }
        lagrangian.learn(bounds, &there.values);
        if left.scaled > 0.5 * slack {
            lagrangian.stiffen();
        }
        slack = left.scaled;
        x = there.x;
    }
    Ok(best.space)
}

/// Goes down along the goal from a point of the box at which the form holds: a point of the box with a lower value at which
/// the form may be sure; none where none is found. Nothing is searched of many axes or terms.
pub fn descend(
    alloc: Global,
    goal: Goal<'_>,
    root: &Space,
    from: &Space,
) -> Result<Option<Space>, AllocError> {
    let problem = goal.problem;
    if root.len() > MOST_AXES || problem.graph().len() > MOST_NODES {
        return Ok(None);
    }
    let lits = Lits::new(alloc, problem.atoms().len())?;
    let delta = small(goal.delta_bits);
    let x = Bounds::of(alloc, problem, &lits, from, delta)?.middle(alloc)?;
    let space = box_around(alloc, root, from)?;
    let bounds = Bounds::of(alloc, problem, &lits, &space, delta)?;
    let first = Stand::at(alloc, &bounds, x)?;
    let atom = goal.atom as usize;
    let least_fall = PART_OF_GAP * small(goal.gap_bits);
    let lagrangian = Lagrangian::of(
        alloc,
        &bounds,
        &first.values,
        atom,
        least_fall,
        &first.aim.atoms,
    )?;
    if !first.is_of_numbers() || point_work(&bounds, &lagrangian) > MOST_POINT_WORK {
        return Ok(None);
    }
    go_down(alloc, &bounds, atom, lagrangian, first)
}
