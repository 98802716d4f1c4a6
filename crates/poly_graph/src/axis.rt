// Declared constants.
ghost use Rattle.std.specs.Prelude.{◌≡◌};
ghost use Rattle.poly_graph.specs.Problem.{is_crossed};
ghost use Rattle.poly_graph.specs.ProblemViews.{declared_of};

use dyadic::{Frac, cmp_frac};
use std::cmp::Ordering;

/// What is declared of an axis.
#[derive(Clone, Copy, Debug, PartialEq, Eq)]
pub enum Declared {
    /// A Real axis, with its lower and its upper bound.
    Real(Frac, Frac),
    Bool,
}

impl Declared {
    /// Whether the declared lower bound is above the upper one.
    pub fn is_crossed(self) -> bool
        ensures { result ≡ is_crossed (declared_of self) }
    {
        match self {
            Declared::Real(low, high) => match cmp_frac(low, high) {
                Ordering::Greater => true,
                Ordering::Less => false,
                Ordering::Equal => false,
            },
            Declared::Bool => false,
        }
    }
}

/// A declared constant: its name's bytes, and its sort with bounds.
#[derive(Clone, Debug, PartialEq, Eq, Drop)]
pub struct Axis {
    pub name: Vec<u8>,
    pub declared: Declared,
}
