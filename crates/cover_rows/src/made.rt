// The problems of scripts.
ghost use Rattle.std.specs.Prelude.{IfSome};
ghost use Rattle.sample_problems.specs.Small.{IsSmall};

use poly_graph::Problem;
use problem_build::read_problem;
use sample_problems::small;
use std::alloc::Global;

// The problem of a script's text.
pub(crate) fn problem(alloc: Global, text: &str) -> Option<Problem>
    ensures { IfSome result (λ p. IsSmall p) }
{
    small(read_problem(alloc, text.as_bytes(), None).ok()?)
}
