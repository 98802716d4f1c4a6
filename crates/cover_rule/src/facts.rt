// A fact that the type of a problem keeps. A proof here sees it only as what a call ensures, so it is shown by a call
// that does nothing else.
ghost use Rattle.poly_graph.specs.ProblemViews.{IsWhole};

use poly_graph::Problem;

/// Shows that the atoms and axes which a problem names are there.
pub fn problem_is_whole(problem: &Problem)
    ensures { IsWhole problem.now }
{
    problem.root();
}
