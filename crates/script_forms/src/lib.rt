//! The terms, atoms and form of a script, and why they mean what the script means.
//!
//! No code runs here: each function is a law about the definitions in `specs/`, and its contract is the law.
#![tactic(auto)]

ghost use Rattle.script_forms.specs.Laws.{FormMeansScript, ProblemMeansScript, AtomsAreGood, BoxIsDeclared, AxesAreBounds, LowestIsSame, FaultlessUnfolds, GoalIsAtom, GoalOfProblem};

/// The form of a script is true at a point, its atoms loosened, exactly where the point satisfies the script so
/// loosened (SMT-LIB 2.6, theories Core and Reals; the loosening is that of Gao, Avigad, Clarke 2012).
#[tactic(auto, using(crate::proofs::Numbered::script_means))]
pub fn form_means_script()
    ensures { FormMeansScript }
{}

/// The form of each problem of a script means what the script means.
#[tactic(auto, using(crate::proofs::Box::problem_means))]
pub fn problem_means_script()
    ensures { ProblemMeansScript }
{}

/// The terms of a script's atoms have fractions for constants and Real constants for variables.
#[tactic(auto, using(crate::proofs::Good::script_good))]
pub fn atoms_are_good()
    ensures { AtomsAreGood }
{}

/// The declared box of a script is that of each problem of it.
#[tactic(auto, using(crate::proofs::Box::box_declared))]
pub fn box_is_declared()
    ensures { BoxIsDeclared }
{}

/// The declared ends of a script's problem are bounds: rounding leaves them finite and moves them by little.
pub fn axes_are_bounds()
    ensures { AxesAreBounds }
{}

/// A fraction in lowest terms has the same value.
#[tactic(auto, using(crate::proofs::Lowest::lowest_same))]
pub fn lowest_is_same()
    ensures { LowestIsSame }
{}

/// A script whose building has no fault has none of its unfolding and of its bounds.
#[tactic(auto, using(crate::proofs::Walks::faultless_unfolds))]
pub fn faultless_unfolds()
    ensures { FaultlessUnfolds }
{}

/// The atom of a script's goal is one of its atoms, and its term has the goal's value at each point.
#[tactic(auto, using(crate::proofs::Goals::goal_is_atom))]
pub fn goal_is_atom()
    ensures { GoalIsAtom }
{}

/// The same of each problem of a script: the goal is the term of one of its atoms.
#[tactic(auto, using(crate::proofs::Goals::goal_of_problem))]
pub fn goal_of_problem()
    ensures { GoalOfProblem }
{}
