// Combinations of marked atoms: which may be made, and what they leave of the space.
ghost use Rattle.std.specs.Prelude.{◌≡◌, ◌<◌, ◌≤◌, IsTrue, length, true};
ghost use Rattle.poly_graph.specs.ProblemViews.{problem_of};
ghost use Rattle.cover_model.specs.Fits.{FitsProblem};
ghost use Rattle.cover_model.specs.Rules.{can_combine, combining};
ghost use Rattle.cover_model.specs.Views.{multipliers_of};
ghost use Rattle.ival.specs.Narrows.{IsNarrowed};
ghost use Rattle.ival.specs.SpaceViews.{space_of};
ghost use Rattle.cover_data.specs.Margins.{AreMargins, loosenings_of};
ghost use Rattle.cover_rule.specs.Serves.{HasRowsOf, IsReady};

use crate::truth::find_centre;
use crate::workspace::Workspace;
use combine::{Combination, combine};
use cover_data::{Margins, State};
use dyadic::Dy;
use ival::Narrowed;
use poly_graph::Problem;

/// Whether these atoms may be combined at the state, each with its multiplier.
pub fn can_combine(
    problem: &Problem,
    margins: &Margins,
    state: &State,
    multipliers: &[(u32, Dy)],
) -> bool
    requires state { FitsProblem (problem_of problem.now) state.now }
    ensures may { let ms = multipliers_of multipliers.now in
        result ≡ can_combine (problem_of problem.now) (loosenings_of margins.now) state.now ms }
    ensures some { result ≡ true → 0 < length multipliers.now }
    ensures few { result ≡ true → length multipliers.now ≤ 512 }
{
    form_truth::can_combine(problem, state.lits(), multipliers, margins.version)
}

// Narrows the spare space, a copy of the state's, by a combination of atoms that may be made.
fn narrow_combined(
    problem: &Problem,
    margins: &Margins,
    state: &State,
    multipliers: &[(u32, Dy)],
    work: &mut Workspace,
) -> Narrowed
    requires margins { AreMargins margins.now }
    requires state { FitsProblem (problem_of problem.now) state.now }
    requires may { let ms = multipliers_of multipliers.now in
        IsTrue (can_combine (problem_of problem.now) (loosenings_of margins.now) state.now ms) }
    requires work { IsReady problem.now margins.now state.now.space work.old }
    ensures narrowed { let ms = multipliers_of multipliers.now in
        let narrow = combining (problem_of problem.now) (loosenings_of margins.now) state.now ms in
        IsNarrowed state.now.space (space_of work.new.spare) narrow result }
    ensures work { HasRowsOf problem.now margins.now state.now.space work.new }
{
    find_centre(problem, state.space(), &mut work.centre);
    let combination = Combination {
        problem,
        loosen: margins.margin_bits,
        lits: state.lits(),
        multipliers,
    };
    combine(
        &combination,
        &work.rows,
        &work.centre.middle,
        &work.centre.rows,
        &mut work.room,
        &mut work.spare,
    )
}

/// Narrows the spare space, a copy of the state's, by a combination of atoms that may be made, and notes where that
/// leaves nothing.
pub fn combine_spare(
    problem: &Problem,
    margins: &Margins,
    state: &State,
    multipliers: &[(u32, Dy)],
    work: &mut Workspace,
) -> Narrowed
    requires margins { AreMargins margins.now }
    requires state { FitsProblem (problem_of problem.now) state.now }
    requires may { let ms = multipliers_of multipliers.now in
        IsTrue (can_combine (problem_of problem.now) (loosenings_of margins.now) state.now ms) }
    requires work { IsReady problem.now margins.now state.now.space work.old }
    ensures narrowed { let ms = multipliers_of multipliers.now in
        let narrow = combining (problem_of problem.now) (loosenings_of margins.now) state.now ms in
        IsNarrowed state.now.space (space_of work.new.spare) narrow result }
    ensures work { HasRowsOf problem.now margins.now state.now.space work.new }
{
    let narrowed = narrow_combined(problem, margins, state, multipliers, work);
    work.voiding.note(narrowed, state.lits(), multipliers);
    narrowed
}
