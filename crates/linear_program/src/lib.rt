//! Linear programmes over bounded variables, in floats: whether rows can meet their bounds together, and how far one
//! variable can go; in either case with the rows' multipliers that show it (a dense simplex with bounds on every
//! variable: Dantzig 1963; multipliers of an infeasible row: Farkas' lemma).
//!
//! Its main calls are [`LinearProgram::feasibility`] and [`LinearProgram::optimum`]. Nothing is promised of what they answer:
//! it guides a search, which tests exactly what it makes of it. Values that are no numbers end a call without harm.
#![tactic(auto)]

mod feasibility;
mod lists;
mod optimum;
mod tableau;

pub use feasibility::Feasibility;
pub use optimum::{Optimum, Side};
pub use tableau::LinearProgram;
