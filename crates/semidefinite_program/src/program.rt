// A programme: its rows, blocks, scalars and free numbers, and how it is built and read.
use crate::block::Block;
use crate::column::{Free, Scalar};
use crate::matrix::{Matrix, entry};
use std::alloc::{AllocError, Global};

/// A programme has at most so many rows.
pub const MOST_ROWS: usize = 1024;

/// A block's matrix has at most so many rows.
pub const MOST_SIZE: usize = 128;

/// A number of a programme.
#[derive(Clone, Copy)]
pub enum Variable {
    /// The entry of a block in this row and this column, and in this column and this row, which
    /// are one.
    Entry(usize, usize, usize),
    /// A scalar, which is at least 0.
    Scalar(usize),
    /// A free number.
    Free(usize),
}

/// A semidefinite programme in standard form: the least of a linear objective, the sum of costs
/// times numbers, where each row, a sum of coefficients times numbers, is its right side; the
/// blocks are positive semidefinite matrices, the scalars at least 0. Each has its present value,
/// and one of the dual programme.
#[derive(Drop)]
pub struct SemidefiniteProgram {
    /// the right sides of the rows
    pub(crate) rights: Vec<f64, Global>,
    /// the rows' multipliers, the numbers of the dual programme
    pub(crate) multipliers: Vec<f64, Global>,
    pub(crate) blocks: Vec<Block, Global>,
    pub(crate) scalars: Vec<Scalar, Global>,
    pub(crate) free: Vec<Free, Global>,
    /// the turns that were made
    pub(crate) turns: usize,
}

impl SemidefiniteProgram {
    /// The programme of these right sides of rows, without numbers; none where there are more
    /// than [`MOST_ROWS`].
    pub fn new(alloc: Global, rights: &[f64]) -> Result<Option<SemidefiniteProgram>, AllocError> {
        if rights.len() > MOST_ROWS {
            return Ok(None);
        }
        let multipliers = vec![in alloc; 0.0; rights.len()]?;
        let rights = Vec::from_slice(alloc, rights)?;
        Ok(Some(SemidefiniteProgram {
            rights,
            multipliers,
            blocks: Vec::new(alloc),
            scalars: Vec::new(alloc),
            free: Vec::new(alloc),
            turns: 0,
        }))
    }

    /// Adds a block of this size, and gives its number; none where it is greater than
    /// [`MOST_SIZE`].
    pub fn add_block(&mut self, alloc: Global, size: usize) -> Result<Option<usize>, AllocError> {
        if size > MOST_SIZE {
            return Ok(None);
        }
        let number = self.blocks.len();
        self.blocks.push(Block::of(alloc, size)?)?;
        Ok(Some(number))
    }

    /// Adds a scalar with this cost, and gives its number.
    pub fn add_scalar(&mut self, alloc: Global, cost: f64) -> Result<usize, AllocError> {
        let number = self.scalars.len();
        self.scalars.push(Scalar::of(alloc, cost))?;
        Ok(number)
    }

    /// Adds a free number with this cost, and gives its number.
    pub fn add_free(&mut self, alloc: Global, cost: f64) -> Result<usize, AllocError> {
        let number = self.free.len();
        self.free.push(Free::of(alloc, cost))?;
        Ok(number)
    }

    /// Adds a coefficient of a number to a row. Of a row or a number that is not there it says
    /// nothing.
    pub fn add_coefficient(
        &mut self,
        row: usize,
        variable: Variable,
        coefficient: f64,
    ) -> Result<(), AllocError> {
        match variable {
            Variable::Entry(b, first, second) => {
                if b < self.blocks.len() {
                    self.blocks[b].add(row, first, second, coefficient)?;
                }
            }
            Variable::Scalar(i) => {
                if i < self.scalars.len() {
                    self.scalars[i].column.add(row, coefficient)?;
                }
            }
            Variable::Free(i) => {
                if i < self.free.len() {
                    self.free[i].column.add(row, coefficient)?;
                }
            }
        }
        Ok(())
    }

    /// Adds to the cost of an entry of a block, and of its mirror, which are one number.
    pub fn add_cost(&mut self, block: usize, first: usize, second: usize, cost: f64) {
        if block < self.blocks.len() {
            self.blocks[block].add_cost(first, second, cost);
        }
    }

    /// The present value of a number; 0 of one that is not there.
    pub fn value(&self, variable: Variable) -> f64 {
        match variable {
            Variable::Entry(b, first, second) => {
                if b < self.blocks.len() {
                    let block = &self.blocks[b];
                    entry(&block.point.primal, first, second)
                } else {
                    0.0
                }
            }
            Variable::Scalar(i) => {
                if i < self.scalars.len() {
                    self.scalars[i].primal
                } else {
                    0.0
                }
            }
            Variable::Free(i) => {
                if i < self.free.len() {
                    self.free[i].value
                } else {
                    0.0
                }
            }
        }
    }

    /// The Cholesky factor U, upper triangular, of the present matrix U' U of a block; none where
    /// that is not positive definite in floats, or not there.
    pub fn factor(&self, alloc: Global, block: usize) -> Result<Option<Matrix>, AllocError> {
        if block < self.blocks.len() {
            self.blocks[block].factor(alloc)
        } else {
            Ok(None)
        }
    }

    /// The number of turns that were made.
    pub fn turns(&self) -> usize {
        self.turns
    }
}
