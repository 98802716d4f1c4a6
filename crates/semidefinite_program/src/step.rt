// How far a step can go, and the step.
use crate::block::Block;
use crate::column::Scalar;
use crate::factor::factor;
use crate::lists::{add_multiple, lesser};
use crate::matrix::{add_all, copy_all, inner};
use crate::program::SemidefiniteProgram;
use crate::schur::FREE_WEIGHT;
use std::alloc::Global;

/// So often the part of a step that stays inside is halved.
const HALVINGS: u32 = 7;

/// The parts of their steps that the values and the dual ones go.
#[derive(Clone, Copy)]
pub(crate) struct Reach {
    pub primal: f64,
    pub dual: f64,
}

// Whether a matrix is positive definite after so many times its step, over a matrix and a line
// for trials.
fn is_inside(
    matrix: &[Vec<f64, Global>],
    step: &[Vec<f64, Global>],
    by: f64,
    trial: &mut [Vec<f64, Global>],
    line: &mut [f64],
) -> bool {
    copy_all(trial, matrix);
    add_all(trial, by, step);
    factor(trial, line)
}

// The part of a step, up to the most, that a matrix can go, so that it stays inside even where it
// goes further by the inverse of the damping.
fn reach_of_matrix(
    matrix: &[Vec<f64, Global>],
    step: &[Vec<f64, Global>],
    most: f64,
    damping: f64,
    trial: &mut [Vec<f64, Global>],
    line: &mut [f64],
) -> f64 {
    if is_inside(matrix, step, most / damping, trial, line) {
        return most;
    }
    let mut low = 0.0;
    let mut high = most;
    for _ in 0..HALVINGS {
        let middle = if low == 0.0 {
            0.4 * high
        } else {
            0.5 * (low + high)
        };
        if is_inside(matrix, step, middle / damping, trial, line) {
            low = middle;
        } else {
            high = middle;
        }
    }
    low
}

// The same of a number that is to stay above 0.
fn reach_of_number(number: f64, step: f64, most: f64, damping: f64) -> f64 {
    if step < 0.0 {
        lesser(most, -damping * number / step)
    } else {
        most
    }
}

impl Block {
    // How far the block can go, up to this.
    fn reach(&mut self, most: Reach, damping: f64) -> Reach {
        let room = &mut self.room;
        let point = &self.point;
        let step = &self.step;
        let primal = reach_of_matrix(
            &point.primal,
            &step.primal,
            most.primal,
            damping,
            &mut room.product,
            &mut room.line,
        );
        let dual = reach_of_matrix(
            &point.dual,
            &step.dual,
            most.dual,
            damping,
            &mut room.product,
            &mut room.line,
        );
        Reach { primal, dual }
    }

    // The product of X and Z after the step.
    fn gap_after(&self, reach: Reach) -> f64 {
        let point = &self.point;
        let step = &self.step;
        let there = inner(&point.primal, &point.dual);
        let primal = inner(&step.primal, &point.dual);
        let dual = inner(&point.primal, &step.dual);
        let both = inner(&step.primal, &step.dual);
        there + reach.primal * (primal + reach.dual * both) + reach.dual * dual
    }

    // Makes the step.
    fn go(&mut self, reach: Reach) {
        add_all(&mut self.point.primal, reach.primal, &self.step.primal);
        add_all(&mut self.point.dual, reach.dual, &self.step.dual);
    }
}

impl Scalar {
    // How far the scalar can go, up to this.
    fn reach(&self, most: Reach, damping: f64) -> Reach {
        Reach {
            primal: reach_of_number(self.primal, self.primal_step, most.primal, damping),
            dual: reach_of_number(self.dual, self.dual_step, most.dual, damping),
        }
    }

    // The product of the scalar with its dual after the step.
    fn gap_after(&self, reach: Reach) -> f64 {
        let primal = self.primal + reach.primal * self.primal_step;
        primal * (self.dual + reach.dual * self.dual_step)
    }

    // Makes the step.
    fn go(&mut self, reach: Reach) {
        self.primal += reach.primal * self.primal_step;
        self.dual += reach.dual * self.dual_step;
    }
}

impl SemidefiniteProgram {
    /// How far all can go together.
    pub(crate) fn reach(&mut self, damping: f64) -> Reach {
        let mut reach = Reach {
            primal: 1.0,
            dual: 1.0,
        };
        for block in self.blocks.iter_mut() {
            reach = block.reach(reach, damping);
        }
        for scalar in &self.scalars {
            reach = scalar.reach(reach, damping);
        }
        reach
    }

    /// The sum of the products with the duals after the step.
    pub(crate) fn gap_after(&self, reach: Reach) -> f64 {
        let mut total = 0.0;
        for block in &self.blocks {
            total += block.gap_after(reach);
        }
        for scalar in &self.scalars {
            total += scalar.gap_after(reach);
        }
        total
    }

    /// Makes the step, with this one of the multipliers.
    pub(crate) fn go(&mut self, reach: Reach, multipliers: &[f64]) {
        for block in self.blocks.iter_mut() {
            block.go(reach);
        }
        for scalar in self.scalars.iter_mut() {
            scalar.go(reach);
        }
        for free in self.free.iter_mut() {
            let step = free.column.product(multipliers) - free.residual;
            free.value += reach.primal * FREE_WEIGHT * step;
        }
        add_multiple(&mut self.multipliers, reach.dual, multipliers);
    }
}
