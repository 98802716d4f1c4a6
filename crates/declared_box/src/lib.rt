//! The declared box of a script: the bounds that its assertions give, and the tightest end of each axis on each side.
//!
//! `declare` answers the axes of the constants, or the first constant without an end. It contracts nothing: only
//! bounds that an assertion states by itself are taken.
#![tactic(auto)]

ghost use Rattle.declared_box.specs.Laws.{BoxIsThatOfBounds};

mod axes;
mod interval;
mod kept;
mod sweep;
mod table;

pub use axes::{Constant, declare};
pub use table::{BoundTable, Side};

/// The declared interval of an axis is the one that the bounds of the script's assertions give it.
pub fn box_is_that_of_bounds()
    ensures { BoxIsThatOfBounds }
{}
