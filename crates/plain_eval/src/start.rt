// Where a sweep begins: the coefficients of the roots, the combination's range at the centre, and what is allowed to it.
// The search has the same for itself (`combine`, roots): the checker shares no code with it.
ghost use Rattle.std.specs.Prelude.{◌≡◌, ◌<◌, ◌≤◌, All, length};
ghost use Rattle.dyadic.specs.Rounding.{two_to_minus};
ghost use Rattle.cover_model.specs.Combination.{marked_range};
ghost use Rattle.cover_model.specs.OffRange.{off_range};
ghost use Rattle.cover_model.specs.Space.{range};
ghost use Rattle.poly_graph.specs.ProblemViews.{problem_of};
ghost use Rattle.poly_graph.specs.Problem.{atom_at};
ghost use Rattle.poly_graph.specs.Views.{atom_of, kind_of};
ghost use Rattle.ival.specs.Views.{interval_of};
ghost use Rattle.ival.specs.RowViews.{rows_of};
ghost use Rattle.ival.specs.Options.{option_at};
ghost use Rattle.plain_eval.specs.Calls.{adjoints_of, allowed_by, central_of, range_by_mark};

use crate::give::give;
use crate::quadratic::only;
use cover_model::{off_range_ends, range_ends};
use dyadic::Dy;
use ival::{Ival, Rows};
use poly_graph::{Atom, Kind, Lits, Mark, Problem};

// The atom of this number.
fn atom_at(problem: &Problem, j: u32) -> Atom
    requires { j < length problem.now.atoms }
    ensures atom { atom_of result ≡ atom_at (problem_of problem.now) j }
    ensures place { result.term < length problem.now.nodes }
{
    let atoms = problem.atoms();
    atoms[j as usize]
}

// The range of a kind.
fn range(kind: Kind, loosen: u32) -> Ival
    requires { loosen ≤ 120 }
    ensures { interval_of result ≡ range (two_to_minus loosen) (kind_of kind) }
{
    let (low, high) = range_ends(kind, loosen);
    Ival::new(low, high)
}

// The off-range of a kind.
fn off_range(kind: Kind, loosen: u32) -> Ival
    requires { loosen ≤ 120 }
    ensures { interval_of result ≡ off_range (two_to_minus loosen) (kind_of kind) }
{
    let (low, high) = off_range_ends(kind, loosen);
    Ival::new(low, high)
}

/// The range of an atom's term by its mark: its off-range where it is marked no. The atom is loosened by 2 to the power
/// of minus `loosen`.
pub fn marked_range(problem: &Problem, loosen: u32, lits: &Lits, j: u32) -> Ival
    requires loosen { loosen ≤ 120 }
    requires atom { j < length problem.now.atoms }
    requires lits { length lits.now ≡ length problem.now.atoms }
    ensures { interval_of result ≡ range_by_mark problem.now loosen lits.now j }
{
    let kind = atom_at(problem, j).kind;
    match lits.mark(j) {
        Mark::No => off_range(kind, loosen),
        Mark::Yes => range(kind, loosen),
        Mark::Neither => range(kind, loosen),
    }
}

/// Begins with the multipliers as the coefficients of their atoms' terms. The answer is the combination's range at the
/// centre, with the range that the atoms leave to it.
pub fn start(
    problem: &Problem,
    loosen: u32,
    lits: &Lits,
    multipliers: &[(u32, Dy)],
    centre_rows: &Rows,
    linear: &mut Rows,
) -> (Ival, Ival)
    requires loosen { loosen ≤ 120 }
    requires atoms { All (λ x. x.0 < length problem.now.atoms) multipliers.now }
    requires lits { length lits.now ≡ length problem.now.atoms }
    requires centre_rows { length (rows_of centre_rows.now) ≡ length problem.now.nodes }
    requires linear { length (rows_of linear.old) ≡ length problem.now.nodes }
    ensures roots { option_at linear.new ≡ adjoints_of problem.now multipliers.now }
    ensures central { interval_of result.0 ≡
        central_of problem.now centre_rows.now multipliers.now }
    ensures allowed { interval_of result.1 ≡
        allowed_by problem.now loosen lits.now multipliers.now }
    ensures count { length (rows_of linear.new) ≡ length problem.now.nodes }
{
    linear.clear_marks();
    let mut central = only(Dy::ZERO);
    let mut allowed = only(Dy::ZERO);
    for i in (0..multipliers.len()).rev() {
        let (j, multiplier) = multipliers[i];
        let term = atom_at(problem, j).term;
        let factor = only(multiplier);
        give(term, factor, linear);
        central = central.add(factor.mul(centre_rows.get(term as usize)));
        allowed = allowed.add(factor.mul(marked_range(problem, loosen, lits, j)));
    }
    (central, allowed)
}
