//! Square roots, and quotients by terms: what a script with them means, by one without them.
//!
//! Each root and each quotient becomes a constant of its own, of which its relation is asserted; the crate says which
//! script that is, and what it says of points. Definitions and laws alone.
#![tactic(auto)]

ghost use Rattle.script_roots.specs.Laws.{BoxIsExtended, RewrittenMeansScript, UnsatIsOfScript};

/// At a point of the declared box at which the roots are fractions: with the values of roots and quotients behind it, it
/// is a point of the declared box of the rewritten script,
pub fn box_is_extended()
    ensures { BoxIsExtended }
{}

/// and it satisfies the rewritten script exactly where the point satisfies the script as it is written.
pub fn rewritten_means_script()
    ensures { RewrittenMeansScript }
{}

/// Where no point of its declared box satisfies the rewritten script at a margin, no point of the script's at which the
/// roots are fractions satisfies the script as it is written.
pub fn unsat_is_of_script()
    ensures { UnsatIsOfScript }
{}
