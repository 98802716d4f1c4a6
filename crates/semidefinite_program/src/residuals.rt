// What is left of the equations of a programme and of its dual.
use crate::block::{Block, add_products, add_sums};
use crate::column::{Free, Scalar};
use crate::lists::{at, greater, product, size, sum_of_sizes};
use crate::matrix::{add_all, copy_all, greatest_size, inner};
use crate::program::SemidefiniteProgram;
use std::num::nearest_usize_to_f64;

/// What is left at a point, and how far it is from an optimum.
#[derive(Clone, Copy)]
pub(crate) struct Residuals {
    /// the sum of what the rows are off by
    pub rest: f64,
    /// the objective
    pub objective: f64,
    /// the most that the dual equations are off by
    pub dual_rest: f64,
    /// the dual objective, which no objective is below where nothing is left
    pub dual_objective: f64,
    /// the mean of the products of matrices' eigenvalues, and scalars, with their duals
    pub centre: f64,
}

impl Block {
    // Finds what the costs are more than the dual matrix and the rows' multipliers account for.
    fn find_residual(&mut self, multipliers: &[f64]) {
        let room = &mut self.room;
        copy_all(&mut room.residual, &self.costs);
        add_all(&mut room.residual, -1.0, &self.point.dual);
        add_sums(&self.terms, multipliers, -1.0, &mut room.residual);
    }
}

impl Scalar {
    // Finds the same of a scalar.
    fn find_residual(&mut self, multipliers: &[f64]) {
        self.residual = self.column.cost - self.dual - self.column.product(multipliers);
    }
}

impl Free {
    // Finds the same of a free number.
    fn find_residual(&mut self, multipliers: &[f64]) {
        self.residual = self.column.cost - self.column.product(multipliers);
    }
}

impl SemidefiniteProgram {
    /// The objective at the present values.
    pub fn objective(&self) -> f64 {
        let mut total = 0.0;
        for block in &self.blocks {
            total += inner(&block.costs, &block.point.primal);
        }
        for scalar in &self.scalars {
            total += scalar.column.cost * scalar.primal;
        }
        for free in &self.free {
            total += free.column.cost * free.value;
        }
        total
    }

    // Makes the list what each right side is more than its row.
    fn find_rests(&self, rests: &mut [f64]) {
        for k in 0..rests.len() {
            rests[k] = at(&self.rights, k);
        }
        for block in &self.blocks {
            add_products(&block.terms, &block.point.primal, -1.0, rests);
        }
        for scalar in &self.scalars {
            scalar.column.add_to(rests, -scalar.primal);
        }
        for free in &self.free {
            free.column.add_to(rests, -free.value);
        }
    }

    // Finds what is left of the dual equations.
    fn find_dual_rests(&mut self) {
        for block in self.blocks.iter_mut() {
            block.find_residual(&self.multipliers);
        }
        for scalar in self.scalars.iter_mut() {
            scalar.find_residual(&self.multipliers);
        }
        for free in self.free.iter_mut() {
            free.find_residual(&self.multipliers);
        }
    }

    // The most that those of blocks and scalars are off by.
    fn dual_rest(&self) -> f64 {
        let mut greatest = 0.0;
        for block in &self.blocks {
            greatest = greater(greatest, greatest_size(&block.room.residual));
        }
        for scalar in &self.scalars {
            greatest = greater(greatest, size(scalar.residual));
        }
        greatest
    }

    // The sum of the products of matrices and scalars with their duals.
    fn gap(&self) -> f64 {
        let mut total = 0.0;
        for block in &self.blocks {
            total += inner(&block.point.primal, &block.point.dual);
        }
        for scalar in &self.scalars {
            total += scalar.primal * scalar.dual;
        }
        total
    }

    /// The number of eigenvalues of all matrices, and of scalars.
    pub(crate) fn degree(&self) -> f64 {
        let mut total = nearest_usize_to_f64(self.scalars.len());
        for block in &self.blocks {
            total += nearest_usize_to_f64(block.costs.len());
        }
        total
    }

    /// Finds what is left at the present point; the list gets what is left of the rows.
    pub(crate) fn find_residuals(&mut self, rests: &mut [f64]) -> Residuals {
        self.find_rests(rests);
        self.find_dual_rests();
        Residuals {
            rest: sum_of_sizes(rests),
            objective: self.objective(),
            dual_rest: self.dual_rest(),
            dual_objective: product(&self.rights, &self.multipliers),
            centre: self.gap() / self.degree(),
        }
    }
}
