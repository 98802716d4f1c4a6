// The direction of a turn: the steps of all matrices and numbers towards a point whose products
// with the duals are all the same (Helmberg, Rendl, Vanderbei and Wolkowicz 1996).
use crate::block::{Block, add_products, add_sums};
use crate::column::Scalar;
use crate::factor::solve;
use crate::lists::{copy, set};
use crate::matrix::{add_all, clear_all, copy_all, entry, multiply};
use crate::program::SemidefiniteProgram;
use crate::schur::FREE_WEIGHT;
use std::alloc::Global;

// Makes a matrix the step of X: so many times the inverse of Z, less X and a product, made
// symmetric.
fn find_step(
    step: &mut [Vec<f64, Global>],
    centre: f64,
    inverse: &[Vec<f64, Global>],
    primal: &[Vec<f64, Global>],
    product: &[Vec<f64, Global>],
) {
    for i in 0..step.len() {
        for k in 0..step.len() {
            let taken = 0.5 * (entry(product, i, k) + entry(product, k, i));
            let x = centre * entry(inverse, i, k) - entry(primal, i, k) - taken;
            set(&mut step[i], k, x);
        }
    }
}

impl Block {
    // Finds X times the dual residual times the inverse of Z.
    fn find_base(&mut self) {
        let room = &mut self.room;
        multiply(&mut room.half_product, &self.point.primal, &room.residual);
        multiply(&mut room.base, &room.half_product, &room.inverse);
    }

    // Finds what the step's second order takes from X.
    fn find_corrector(&mut self) {
        let room = &mut self.room;
        multiply(&mut room.half_product, &self.step.primal, &self.step.dual);
        multiply(&mut room.corrector, &room.half_product, &room.inverse);
    }

    // Adds its part of the right side of the equations for the multipliers' step.
    fn add_right(&self, centre: f64, rights: &mut [f64]) {
        let room = &self.room;
        add_products(&self.terms, &room.base, 1.0, rights);
        add_products(&self.terms, &room.inverse, -centre, rights);
        add_products(&self.terms, &self.point.primal, 1.0, rights);
        add_products(&self.terms, &room.corrector, 1.0, rights);
    }

    // Finds the step of Z.
    fn find_dual_step(&mut self, multipliers: &[f64]) {
        let step = &mut self.step;
        copy_all(&mut step.dual, &self.room.residual);
        add_sums(&self.terms, multipliers, -1.0, &mut step.dual);
    }

    // Finds the step of X, by that of Z.
    fn find_primal_step(&mut self, centre: f64) {
        let room = &mut self.room;
        let step = &mut self.step;
        let point = &self.point;
        multiply(&mut room.half_product, &point.primal, &step.dual);
        multiply(&mut room.product, &room.half_product, &room.inverse);
        add_all(&mut room.product, 1.0, &room.corrector);
        find_step(
            &mut step.primal,
            centre,
            &room.inverse,
            &point.primal,
            &room.product,
        );
    }
}

impl Scalar {
    // Its part of the right side.
    fn right(&self, centre: f64) -> f64 {
        self.ratio() * self.residual - centre / self.dual + self.primal + self.corrector
    }

    // Finds the steps of the scalar and of its dual.
    fn find_step(&mut self, multipliers: &[f64], centre: f64) {
        let step = self.residual - self.column.product(multipliers);
        self.dual_step = step;
        let taken = self.primal + self.ratio() * step + self.corrector;
        self.primal_step = centre / self.dual - taken;
    }

    // Finds what the step's second order takes from the scalar.
    fn find_corrector(&mut self) {
        self.corrector = self.primal_step * self.dual_step / self.dual;
    }
}

impl SemidefiniteProgram {
    /// Begins a turn: what does not depend on the centre.
    pub(crate) fn begin_direction(&mut self) {
        for block in self.blocks.iter_mut() {
            block.find_base();
            clear_all(&mut block.room.corrector);
        }
        for scalar in self.scalars.iter_mut() {
            scalar.corrector = 0.0;
        }
    }

    /// Takes the present step's second order into account.
    pub(crate) fn find_correctors(&mut self) {
        for block in self.blocks.iter_mut() {
            block.find_corrector();
        }
        for scalar in self.scalars.iter_mut() {
            scalar.find_corrector();
        }
    }

    // Makes the list the right side of the equations for the multipliers' step, from what is left
    // of the rows.
    fn find_rights(&self, centre: f64, rests: &[f64], rights: &mut [f64]) {
        copy(rights, rests);
        for block in &self.blocks {
            block.add_right(centre, rights);
        }
        for scalar in &self.scalars {
            scalar.column.add_to(rights, scalar.right(centre));
        }
        for free in &self.free {
            free.column.add_to(rights, FREE_WEIGHT * free.residual);
        }
    }

    /// Finds the direction towards this centre, by the factor of the complement; the list gets
    /// the step of the multipliers.
    pub(crate) fn find_direction(
        &mut self,
        centre: f64,
        factor: &[Vec<f64, Global>],
        rests: &[f64],
        multipliers: &mut [f64],
    ) {
        self.find_rights(centre, rests, multipliers);
        solve(factor, multipliers);
        for block in self.blocks.iter_mut() {
            block.find_dual_step(multipliers);
            block.find_primal_step(centre);
        }
        for scalar in self.scalars.iter_mut() {
            scalar.find_step(multipliers, centre);
        }
    }
}
