//! What an interval and a space mean: operations with outward rounding and their inverses, the middle and the widest axis
//! of a space, with the laws between them. Definitions and laws alone; `ival` computes them.
//!
//! Each function here does nothing, and its contract is a law of the definitions.
#![tactic(auto)]

ghost use Rattle.interval_model.specs.Laws.{SumHolds, NegationHolds, ProductHolds, SquareHolds, InverseSumHolds, InverseProductHolds, InverseSquareHolds, SumIsIsotone, NegationIsIsotone, ProductIsIsotone, SquareIsIsotone, InverseSumIsIsotone, InverseProductIsIsotone, InverseSquareIsIsotone};

/// An operation's interval holds every exact result over its arguments.
pub fn operations_hold()
    ensures sum { SumHolds }
    ensures negation { NegationHolds }
    ensures product { ProductHolds }
    ensures square { SquareHolds }
{}

/// What an operation's result leaves to an operand holds that operand.
pub fn inverses_hold()
    ensures sum { InverseSumHolds }
    ensures product { InverseProductHolds }
    ensures square { InverseSquareHolds }
{}

/// Smaller arguments give an interval inside.
pub fn operations_are_isotone()
    ensures sum { SumIsIsotone }
    ensures negation { NegationIsIsotone }
    ensures product { ProductIsIsotone }
    ensures square { SquareIsIsotone }
{}

/// Smaller arguments leave an interval inside.
pub fn inverses_are_isotone()
    ensures sum { InverseSumIsIsotone }
    ensures product { InverseProductIsIsotone }
    ensures square { InverseSquareIsIsotone }
{}
