//! Sums of squares that may refute what is marked of a box, found in floats by semidefinite programmes.
//!
//! In the differences of axes to the box's middle, each divided by half its side, a combination of atoms' terms is sought that
//! is a positive number and sums of squares, some of them times a factor that is at least 0 over the box (Putinar 1993; Lasserre
//! 2001). Monomials are those of cliques of axes that stand together in one (Waki, Kim, Kojima and Muramatsu 2006). What is
//! found is rounded to few bits, first to few, then to more.
//!
//! The main calls are [`Proposals::of`] and [`Proposals::next`]. Nothing is promised of a proposal: whoever asks for it decides
//! exactly whether it closes the box.
#![tactic(auto)]

mod attempt;
mod axes;
mod bases;
mod blocks;
mod candidates;
mod cliques;
mod closed;
mod columns;
mod expansion;
mod marks;
mod monomials;
mod numbers;
mod places;
mod proposals;
mod rest;
mod rounding;
mod sets;
mod sides;
mod solution;
mod statement;

pub use candidates::Boxed;
pub use proposals::Proposals;
pub use rounding::Proposal;
