//! The linear relaxation of a box's marked atoms, in floats, which chooses the multipliers of their combinations.
//!
//! Each atom's term is expanded at the box's centre: linear in the axes' differences to it, with one more variable for each
//! product and each square, which stands for the product of its factors' differences and is shared by all atoms. So each atom
//! is a row of a linear programme (McCormick 1976 bounds such products by planes; here they have bounds alone). The main
//! calls are [`Relaxation::of`], [`Relaxation::refutation`] and [`Relaxation::narrowing`]. Nothing is promised: what a
//! combination with these multipliers leaves of the box is computed exactly by whoever makes it.
//!
//! Where many equations are marked, as in a system that is unrolled over steps, [`Elimination`] solves them for one axis
//! each by their slopes at the centre (Gauss and Jordan), so that what is left of the other axes is small: the combination
//! is a step of the interval Newton method (Hansen and Sengupta 1981) for that axis.
#![tactic(auto)]

mod columns;
mod elimination;
mod relaxed;

pub use columns::{is_constant, nodes_under};
pub use elimination::{Elimination, are_many_equations};
pub use linear_program::Side;
pub use relaxed::{Refutation, Relaxation, Weights, is_asking, margin_of};
