// Atoms that are stuck.
ghost use Rattle.std.specs.Prelude.{◌≡◌, ◌<◌, length};
ghost use Rattle.poly_graph.specs.ProblemViews.{problem_of};
ghost use Rattle.cover_model.specs.Fits.{FitsProblem};
ghost use Rattle.cover_model.specs.Rules.{is_stuck_atom};
ghost use Rattle.cover_model.specs.Honest.{none_below, settled};
ghost use Rattle.cover_data.specs.Margins.{AreMargins, loosenings_of};
ghost use Rattle.cover_rule.specs.Serves.{HasRowsOf, IsReady, IsNumbered};

use crate::facts::problem_is_whole;
use crate::narrowing::none_leaves_nothing;
use crate::workspace::Workspace;
use cover_data::{Margins, State};
use form_truth::{conjuncts_in_yes, may_atom, sure_atom};
use poly_graph::Problem;

/// Whether atom j may hold at the state, and does not surely hold.
pub fn is_stuck_atom(
    problem: &Problem,
    margins: &Margins,
    state: &State,
    work: &Workspace,
    j: u32,
) -> bool
    requires margins { AreMargins margins.now }
    requires atom { j < length problem.now.atoms }
    requires state { FitsProblem (problem_of problem.now) state.now }
    requires work { HasRowsOf problem.now margins.now state.now.space work.now }
    ensures { result ≡
        is_stuck_atom (problem_of problem.now) (loosenings_of margins.now) state.now j }
{
    problem_is_whole(problem);
    let space = state.space();
    may_atom(
        problem,
        &work.rows,
        space,
        state.lits(),
        margins.margin_bits,
        j,
    ) && !sure_atom(problem, &work.rows, space, margins.delta_bits, j)
}

/// Whether no atom below j is stuck.
pub fn none_stuck_below(
    problem: &Problem,
    margins: &Margins,
    state: &State,
    work: &Workspace,
    j: u32,
) -> bool
    requires margins { AreMargins margins.now }
    requires atom { j < length problem.now.atoms }
    requires state { FitsProblem (problem_of problem.now) state.now }
    requires work { HasRowsOf problem.now margins.now state.now.space work.now }
    ensures { result ≡ none_below (problem_of problem.now) (loosenings_of margins.now) state.now j }
{
    let mut i = j;
    while i > 0 {
        i -= 1;
        if is_stuck_atom(problem, margins, state, work, i) {
            return false;
        }
    }
    true
}

/// Whether each conjunct is marked yes, and narrowing by no atom marked yes leaves nothing.
pub fn is_settled(problem: &Problem, margins: &Margins, state: &State, work: &mut Workspace) -> bool
    requires margins { AreMargins margins.now }
    requires numbered { IsNumbered problem.now }
    requires state { FitsProblem (problem_of problem.now) state.now }
    requires work { IsReady problem.now margins.now state.now.space work.old }
    ensures settled { result ≡
        settled (problem_of problem.now) (loosenings_of margins.now) state.now }
    ensures work { IsReady problem.now margins.now state.now.space work.new }
{
    conjuncts_in_yes(problem, state.lits(), &mut work.marks)
        && none_leaves_nothing(problem, margins, state, work)
}
