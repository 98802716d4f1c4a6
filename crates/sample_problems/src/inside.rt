// States that are those of a problem.
ghost use Rattle.std.specs.Prelude.{IsTrue};
ghost use Rattle.cover_model.specs.Fits.{FitsProblem};
ghost use Rattle.poly_graph.specs.ProblemViews.{problem_of};

use cover_data::State;
use form_truth::{Root, root_space};
use poly_graph::Problem;
use std::alloc::Global;

/// Whether the state is one of the problem, within the declared box.
pub fn lies_within(alloc: Global, problem: &Problem, state: &State) -> bool
    ensures { IsTrue result → FitsProblem (problem_of problem.now) state.now }
{
    let Ok(Root::Space(root)) = root_space(alloc, problem) else {
        return false;
    };
    let space = state.space();
    if space.len() != root.len() || state.lits().len() != problem.atoms().len() {
        return false;
    }
    space.within(&root)
}
