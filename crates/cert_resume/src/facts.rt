// A fact of problems that a proof here sees only as what a call ensures: it is shown by a call that does nothing else.
ghost use Rattle.poly_graph.specs.ProblemViews.{IsWhole};

use poly_graph::Problem;

/// Shows that a problem is whole.
pub fn is_whole(problem: &Problem)
    ensures { IsWhole problem.now }
{
    problem.atoms();
}
