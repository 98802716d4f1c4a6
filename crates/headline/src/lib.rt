//! What an accepted certificate says of the script that it was written for, whoever wrote it.
//!
//! No code runs here: each function is a law about definitions, and its contract is the law.
#![tactic(auto)]

ghost use Rattle.headline.specs.Laws.{UnsatMeans, UnsatIsExact, DeltaSatMeans};
ghost use Rattle.headline.specs.Least.{LowerMeans, UpperMeans};

/// A cover that leaves nothing: no point of the declared box satisfies the script at the margin.
#[tactic(auto, using(crate::proofs::Headline::unsat_is))]
pub fn unsat_means()
    ensures { UnsatMeans }
{}

/// A cover that leaves nothing: no point of the declared box satisfies the script as SMT-LIB has it (SMT-LIB 2.6,
/// theories Core and Reals).
pub fn unsat_is_exact()
    ensures { UnsatIsExact }
{}

/// A point: it satisfies the script at delta, and lies within delta of the declared box (delta-satisfiability of Gao,
/// Avigad, Clarke 2012).
pub fn delta_sat_means()
    ensures { DeltaSatMeans }
{}

/// A lower bound of the goal: no point of the declared box that satisfies the script at the margin has a value of the goal
/// below it.
#[tactic(auto, using(crate::proofs::Least::lower_means))]
pub fn lower_means()
    ensures { LowerMeans }
{}

/// The point of a least value: it satisfies the script at delta, lies within delta of the declared box, and the goal's
/// value there is at most the upper bound.
pub fn upper_means()
    ensures { UpperMeans }
{}
