// Facts that types of other crates keep, each shown by a call that does nothing else, since a proof here sees them only
// as what a call ensures; and what a patch says of an atom.
ghost use Rattle.std.specs.Prelude.{IsTrue};
ghost use Rattle.interval_model.specs.Space.{is_upright};
ghost use Rattle.poly_graph.specs.ProblemViews.{IsWhole};
ghost use Rattle.cover_model.specs.Space.{IsGridSpace};
ghost use Rattle.cover_rule.specs.Patch.{problem_in};
ghost use Rattle.cover_data.specs.Runs.{IsRun};

use cover_rule::Patch;
use form_truth::{may_atom, sure_atom};
use poly_graph::Problem;

/// Shows that the atoms and axes which a problem names are there.
pub fn problem_is_whole(problem: &Problem)
    ensures { IsWhole problem.now }
{
    problem.root();
}

/// Shows that the steps of a patch are lawful.
pub fn run_is_lawful(patch: &Patch)
    ensures { IsRun (problem_in patch.now) patch.now.margins patch.now.kept }
{
    patch.reached();
}

/// Shows that the numbers of the state's space are on the grid, its lower ends not above its upper ones.
pub fn space_is_upright(patch: &Patch)
    ensures grid { IsGridSpace patch.now.kept.reached.space }
    ensures upright { IsTrue (is_upright patch.now.kept.reached.space) }
{
    patch.reached().space();
}

/// Whether atom j may hold at the state that the patch has reached.
pub fn may_hold_at(patch: &Patch, j: u32) -> bool {
    let problem = patch.problem();
    problem_is_whole(problem);
    let margin_bits = patch.margins().margin_bits;
    let state = patch.reached();
    may_atom(
        problem,
        patch.rows(),
        state.space(),
        state.lits(),
        margin_bits,
        j,
    )
}

/// Whether atom j is sure at the state that the patch has reached.
pub fn is_sure_at(patch: &Patch, j: u32) -> bool {
    let problem = patch.problem();
    problem_is_whole(problem);
    let delta_bits = patch.margins().delta_bits;
    let space = patch.reached().space();
    sure_atom(problem, patch.rows(), space, delta_bits, j)
}
