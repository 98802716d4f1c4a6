//! What a sum of squares means: polynomials with intervals for coefficients about the centre of a space, blocks of squares,
//! and the condition by which the space has no point at which each atom's value lies in its range.
//!
//! The crate holds definitions, in `specs/`, and the laws between them, each the contract of an empty function of [`laws`].
#![tactic(auto)]

pub mod laws;
