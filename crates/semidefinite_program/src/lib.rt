//! Small semidefinite programmes in floats: symmetric matrices that are positive semidefinite,
//! numbers of at least 0 and free numbers, of which linear equations hold and a linear objective
//! is to become small. They are solved by a primal-dual interior point method from infeasible
//! points on, with a predictor and a corrector (Mehrotra 1992), in the direction of Helmberg,
//! Rendl, Vanderbei and Wolkowicz (1996; Kojima, Shindoh and Hara 1997; Monteiro 1997).
//!
//! A programme is built by [`SemidefiniteProgram::new`], `add_block`, `add_scalar`, `add_free`,
//! `add_coefficient` and `add_cost`; its main call is [`SemidefiniteProgram::run`], after which
//! [`SemidefiniteProgram::value`] reads what was found. Nothing is promised of what it answers:
//! it guides a search, which tests exactly what it makes of it. Values that are no numbers end a
//! call without harm.
#![tactic(auto)]

mod block;
mod column;
mod direction;
mod factor;
mod lists;
mod matrix;
mod program;
mod residuals;
mod run;
mod schur;
mod step;

pub use matrix::Matrix;
pub use program::{MOST_ROWS, MOST_SIZE, SemidefiniteProgram, Variable};
pub use run::Outcome;
