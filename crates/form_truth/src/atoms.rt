// The truth of atoms over a space.
ghost use Rattle.std.specs.Prelude.{◌≡◌, ◌<◌, ◌≤◌, length};
ghost use Rattle.dyadic.specs.Rounding.{two_to_minus};
ghost use Rattle.cover_model.specs.Space.{range};
ghost use Rattle.poly_graph.specs.Views.{kind_of};
ghost use Rattle.ival.specs.Views.{interval_of};
ghost use Rattle.ival.specs.RowViews.{rows_of};
ghost use Rattle.ival.specs.SpaceViews.{space_of};
ghost use Rattle.form_truth.specs.Truth.{HasRows, atom_may_hold, atom_is_sure};
ghost use Rattle.cover_model.specs.State.{state_of};

use cover_model::range_ends;
use ival::{Ival, Rows, Space};
use poly_graph::{Kind, Lits, Mark, Problem};

/// The range of a kind, loosened by 2 to the power of minus `loosen`.
pub fn kind_range(kind: Kind, loosen: u32) -> Ival
    requires { loosen ≤ 120 }
    ensures { interval_of result ≡ range (two_to_minus loosen) (kind_of kind) }
{
    let (low, high) = range_ends(kind, loosen);
    Ival::new(low, high)
}

/// Whether the atom may hold at a point of the space with these marks; not where there is no such atom.
pub fn may_atom(
    problem: &Problem,
    rows: &Rows,
    space: &Space,
    lits: &Lits,
    margin: u32,
    j: u32,
) -> bool
    requires margin { margin ≤ 120 }
    requires rows { HasRows problem.now (space_of space.now) (rows_of rows.now) }
    requires lits { length lits.now ≡ length problem.now.atoms }
    ensures { result ≡ atom_may_hold problem.now margin (state_of (space_of space.now) lits.now) j }
{
    let atoms = problem.atoms();
    if j as usize >= atoms.len() {
        return false;
    }
    let atom = atoms[j as usize];
    let range = kind_range(atom.kind, margin);
    let misses = rows.get(atom.term as usize).meet(range).is_empty();
    match lits.mark(j) {
        Mark::No => false,
        Mark::Yes => !misses,
        Mark::Neither => !misses,
    }
}

/// Whether the atom surely holds at each point of the space; not where there is no such atom.
pub fn sure_atom(problem: &Problem, rows: &Rows, space: &Space, delta: u32, j: u32) -> bool
    requires delta { delta ≤ 120 }
    requires rows { HasRows problem.now (space_of space.now) (rows_of rows.now) }
    ensures { result ≡ atom_is_sure problem.now delta (space_of space.now) j }
{
    let atoms = problem.atoms();
    if j as usize >= atoms.len() {
        return false;
    }
    let atom = atoms[j as usize];
    let range = kind_range(atom.kind, delta);
    rows.get(atom.term as usize).within(range)
}
