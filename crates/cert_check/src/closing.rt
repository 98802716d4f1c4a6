// The rules that leave nothing.
ghost use Rattle.std.specs.Prelude.{[], IfOk};
ghost use Rattle.cover_model.specs.Rules.{make_false, by};
ghost use Rattle.cover_model.specs.State.{Loosenings as StateLoosenings};
ghost use Rattle.poly_graph.specs.ProblemViews.{problem_of};
ghost use Rattle.cert_check.specs.States.{state_of, loosenings_of, Fits};
ghost use Rattle.cert_check.specs.Dues.{AllFit};
ghost use Rattle.cert_check.specs.Steps.{IsLeftBy};
ghost use Rattle.cert_check.specs.Serving.{Serves};

use crate::left::Left;
use crate::lemmas::Lemmas;
use crate::loosenings::Loosenings;
use crate::moves::lemma_covers;
use crate::state::State;
use crate::tools::Tools;
use poly_graph::Problem;
use std::alloc::{AllocError, Global};

/// Closed, where the form can't hold.
pub fn make_false(problem: &Problem, tools: &mut Tools, s: Loosenings, state: State) -> Option<Left>
    requires serves { Serves problem.now tools.old }
    requires fits { Fits problem.now (state_of state) }
    ensures rule { IsLeftBy make_false problem.now (loosenings_of s) [] state result }
    ensures serves { Serves problem.now tools.new }
{
    if tools.may(problem, s.margin, &state) {
        None
    } else {
        Some(Left::Closed)
    }
}

/// Closed, where the lemma covers the state.
pub fn by(
    alloc: Global,
    problem: &Problem,
    lemmas: &Lemmas,
    state: State,
    i: u32,
) -> Result<Option<Left>, AllocError>
    requires lemmas { AllFit problem.now lemmas.now }
    requires fits { Fits problem.now (state_of state) }
    ensures { (s : StateLoosenings) →
        IfOk result (IsLeftBy (by i) problem.now s lemmas.now state) }
{
    if lemma_covers(alloc, problem, lemmas, i, &state)? {
        Ok(Some(Left::Closed))
    } else {
        Ok(None)
    }
}
