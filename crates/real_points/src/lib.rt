//! Real points: what is said of the rational points of a script holds of its real points.
//!
//! No code runs here: each function is a law about definitions, and its contract is the law. A real number is a sequence
//! of fractions (Bishop, Foundations of Constructive Analysis, 1967, chapter 2).
#![tactic(auto)]

ghost use Rattle.real_points.specs.Laws.{
  TruthIsOfThePoint,
  RationalIsReal,
  RationalBoxIsReal,
  RationalPointsSuffice,
  UnsatIsOfReals,
  RationalBoundsSuffice,
  LowerIsOfReals,
  OverRealsIsLoosened,
  LooselyIsLoosened,
  UnsatIsExactOverReals,
};
ghost use Rattle.real_points.specs.RootOfTwo.{RootSatisfies, NoFractionSatisfies, RootIsNoUnsat, EdgeIsIn};

/// Whether a real point satisfies a script does not depend on the fractions that give the point.
pub fn truth_is_of_the_point()
    ensures { TruthIsOfThePoint }
{}

/// A rational point is a real point, with the same truth.
pub fn rational_is_real()
    ensures { RationalIsReal }
{}

/// It lies in the declared box as a real point exactly where it does as a rational one.
pub fn rational_box_is_real()
    ensures { RationalBoxIsReal }
{}

/// Where no rational point of the declared box satisfies the script at a margin, no real point satisfies it below the
/// margin.
pub fn rational_points_suffice()
    ensures { RationalPointsSuffice }
{}

/// A cover that leaves nothing: no real point of the declared box satisfies the script below the margin.
pub fn unsat_is_of_reals()
    ensures { UnsatIsOfReals }
{}

/// A lower bound of the goal at the rational points of the declared box that satisfy the script at a margin is one at its
/// real points that satisfy it below the margin.
pub fn rational_bounds_suffice()
    ensures { RationalBoundsSuffice }
{}

/// A certificate of a least value: its lower bound is one at the real points of the declared box that satisfy the script
/// below the margin.
pub fn lower_is_of_reals()
    ensures { LowerIsOfReals }
{}

/// What is true at a real point as SMT-LIB has it is true there loosened by 0 (SMT-LIB 2.6, theories Core and Reals).
pub fn over_reals_is_loosened()
    ensures { OverRealsIsLoosened }
{}

/// What is true at a real point by recursion over the script, each comparison loosened and closed, is true there loosened.
pub fn loosely_is_loosened()
    ensures { LooselyIsLoosened }
{}

/// A cover that leaves nothing: no real point of the declared box satisfies the script as SMT-LIB has it.
pub fn unsat_is_exact_over_reals()
    ensures { UnsatIsExactOverReals }
{}

/// The square root of 2 satisfies `(= (* x x) 2)` with x in [1, 2].
pub fn root_of_two_satisfies()
    ensures { RootSatisfies }
{}

/// No rational number does.
pub fn no_fraction_satisfies()
    ensures { NoFractionSatisfies }
{}

/// That script is unsat at no margin.
pub fn root_of_two_is_no_unsat()
    ensures { RootIsNoUnsat }
{}

/// The number 1, given by fractions below it, lies in [1, 2].
pub fn edge_is_in()
    ensures { EdgeIsIn }
{}
