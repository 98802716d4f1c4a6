//! Sums of squares, computed: polynomials about the centre of a space with intervals for coefficients.
//!
//! [`is_positive`] tells whether a combination of atoms, less blocks of squares, is above all that its atoms' ranges allow.
//! [`Polynomial`] has sums, products and opposites, and [`polynomial_range`] its range over a space. [`expand_nodes`] gives
//! the polynomials of a graph's marked nodes, and [`block_polynomial`] that of a block of squares. Steps are taken from a
//! [`Budget`], and where too few are left there is no polynomial.
#![tactic(auto)]

mod block;
mod budget;
mod combination;
mod conditions;
mod count;
mod expand;
mod marks;
mod monomial;
mod node;
mod number;
mod pairs;
mod polynomial;
mod positive;
mod range;
mod rest;
mod sum;

pub use block::block_polynomial;
pub use budget::Budget;
pub use combination::Combination;
pub use count::are_few;
pub use expand::expand_nodes;
pub use node::constant;
pub use polynomial::Polynomial;
pub use positive::is_positive;
pub use range::polynomial_range;
