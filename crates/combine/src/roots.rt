// What a sweep begins with: the adjoints of the roots, the combination's range at the centre and its allowed range.
// The checker has the same for itself (`plain_eval`, start): it shares no code with the search.
ghost use Rattle.std.specs.Prelude.{◌≡◌, ◌<◌, ◌≤◌, length};
ghost use Rattle.dyadic.specs.Rounding.{two_to_minus};
ghost use Rattle.cover_model.specs.OffRange.{off_range};
ghost use Rattle.cover_model.specs.Space.{range};
ghost use Rattle.poly_graph.specs.Problem.{atom_at};
ghost use Rattle.poly_graph.specs.ProblemViews.{problem_of};
ghost use Rattle.poly_graph.specs.Views.{atom_of, kind_of};
ghost use Rattle.ival.specs.Views.{interval_of};
ghost use Rattle.ival.specs.RowViews.{rows_of};
ghost use Rattle.combine.specs.Combined.{NamesAtoms};
ghost use Rattle.combine.specs.Hands.{StandsFor, adjoints_of, central_of, allowed_of};
ghost use Rattle.combine.specs.Hands.{IsRootHanded, central_with, allowed_with, range_by_mark};

use crate::combination::Combination;
use crate::hand::hand;
use crate::ranges::only;
use cover_model::{off_range_ends, range_ends};
use dyadic::Dy;
use ival::{Ival, Rows};
use poly_graph::{Atom, Kind, Mark, Problem};

/// The ranges of a combination: at the centre, and what its atoms allow to it.
#[derive(Clone, Copy)]
pub struct Ranges {
    pub central: Ival,
    pub allowed: Ival,
}

// The atom of this number.
fn atom_at(problem: &Problem, j: u32) -> Atom
    requires { j < length problem.now.atoms }
    ensures atom { atom_of result ≡ atom_at (problem_of problem.now) j }
    ensures place { result.term < length problem.now.nodes }
{
    let atoms = problem.atoms();
    atoms[j as usize]
}

// The range of a kind, loosened by 2 to the power of minus `loosen`.
fn kind_range(kind: Kind, loosen: u32) -> Ival
    requires { loosen ≤ 120 }
    ensures { interval_of result ≡ range (two_to_minus loosen) (kind_of kind) }
{
    let (low, high) = range_ends(kind, loosen);
    Ival::new(low, high)
}

// The off-range of a kind, loosened by 2 to the power of minus `loosen`.
fn kind_off_range(kind: Kind, loosen: u32) -> Ival
    requires { loosen ≤ 120 }
    ensures { interval_of result ≡ off_range (two_to_minus loosen) (kind_of kind) }
{
    let (low, high) = off_range_ends(kind, loosen);
    Ival::new(low, high)
}

/// Where the value of atom j's term lies, by the atom's mark.
pub fn marked_range(combination: &Combination<'_>, j: u32) -> Ival
    requires loosen { combination.now.loosen ≤ 120 }
    requires atom { j < length combination.now.problem.now.atoms }
    requires lits { length combination.now.lits.now ≡ length combination.now.problem.now.atoms }
    ensures { interval_of result ≡ range_by_mark combination.now j }
{
    let kind = atom_at(combination.problem, j).kind;
    match combination.lits.mark(j) {
        Mark::No => kind_off_range(kind, combination.loosen),
        Mark::Yes | Mark::Neither => kind_range(kind, combination.loosen),
    }
}

// Hands the root of atom j this multiplier, and adds what it adds to the ranges.
fn hand_root(
    combination: &Combination<'_>,
    j: u32,
    multiplier: Dy,
    centre_rows: &Rows,
    ranges: Ranges,
    adjoints: &mut Rows,
) -> Ranges
    requires loosen { combination.now.loosen ≤ 120 }
    requires atom { j < length combination.now.problem.now.atoms }
    requires lits { length combination.now.lits.now ≡ length combination.now.problem.now.atoms }
    requires centre_rows { length (rows_of centre_rows.now) ≡
        length combination.now.problem.now.nodes }
    requires adjoints { length (rows_of adjoints.old) ≡ length combination.now.problem.now.nodes }
    ensures root { IsRootHanded combination.now.problem.now j multiplier adjoints.old adjoints.new }
    ensures central { interval_of result.central ≡
        central_with combination.now centre_rows.now j multiplier ranges.central }
    ensures allowed { interval_of result.allowed ≡
        allowed_with combination.now j multiplier ranges.allowed }
    ensures count { length (rows_of adjoints.new) ≡ length combination.now.problem.now.nodes }
{
    let factor = only(multiplier);
    let root = atom_at(combination.problem, j).term;
    let value = centre_rows.get(root as usize);
    let range = marked_range(combination, j);
    hand(root, factor, adjoints);
    Ranges {
        central: ranges.central.add(factor.mul(value)),
        allowed: ranges.allowed.add(factor.mul(range)),
    }
}

/// Hands each root its multipliers, and gives the ranges.
pub fn hand_roots(combination: &Combination<'_>, centre_rows: &Rows, adjoints: &mut Rows) -> Ranges
    requires loosen { combination.now.loosen ≤ 120 }
    requires atoms { NamesAtoms combination.now }
    requires lits { length combination.now.lits.now ≡ length combination.now.problem.now.atoms }
    requires centre_rows { length (rows_of centre_rows.now) ≡
        length combination.now.problem.now.nodes }
    requires adjoints { length (rows_of adjoints.old) ≡ length combination.now.problem.now.nodes }
    ensures roots { StandsFor adjoints.new (adjoints_of combination.now) }
    ensures central { interval_of result.central ≡ central_of combination.now centre_rows.now }
    ensures allowed { interval_of result.allowed ≡ allowed_of combination.now }
    ensures count { length (rows_of adjoints.new) ≡ length combination.now.problem.now.nodes }
{
    adjoints.clear_marks();
    let mut ranges = Ranges {
        central: only(Dy::ZERO),
        allowed: only(Dy::ZERO),
    };
    let multipliers = combination.multipliers;
    for k in (0..multipliers.len()).rev() {
        let pair = multipliers[k];
        ranges = hand_root(combination, pair.0, pair.1, centre_rows, ranges, adjoints);
    }
    ranges
}
