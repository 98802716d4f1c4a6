// Whether a problem has room for a limit.
ghost use Rattle.std.specs.Prelude.{◌≡◌};
ghost use Rattle.poly_graph.specs.ProblemViews.{problem_of};
ghost use Rattle.goal_limit.specs.Limits.{has_room};

use poly_graph::{MOST_ATOMS, MOST_NODES, Problem};

// Whether there is room for four nodes in the graph, and for one more atom.
pub(crate) fn has_room(problem: &Problem) -> bool
    ensures { result ≡ has_room (problem_of problem.now) }
{
    problem.graph().len() + 4 <= MOST_NODES && problem.atoms().len() < MOST_ATOMS
}
