//! What a script means: expressions, their values and truth at a point, the declared box.
#![tactic(auto)]

ghost use Rattle.script_model.specs.Laws.{ExactIsLoosened};

/// A point that satisfies a script as SMT-LIB has it satisfies the script loosened by any number that is not negative
/// (SMT-LIB 2.6, theories Core and Reals).
#[tactic(auto, using(crate::proofs::Exactly::exact_loosened))]
pub fn exact_is_loosened()
    ensures { ExactIsLoosened }
{}
