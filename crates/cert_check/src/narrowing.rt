// The rules that narrow the space of a state, or close it where nothing is left.
ghost use Rattle.std.specs.Prelude.{◌≡◌, [], IsTrue};
ghost use Rattle.poly_graph.specs.ProblemViews.{problem_of};
ghost use Rattle.ival.specs.Narrows.{IsNarrowed};
ghost use Rattle.ival.specs.SpaceViews.{space_of};
ghost use Rattle.cover_line.specs.Views.{narrowing_of};
ghost use Rattle.cover_line.specs.Words.{narrowing_operands};
ghost use Rattle.cover_model.specs.Rules.{can_narrow, end_by, narrow_by, narrowed_to, void_by};
ghost use Rattle.cert_model.specs.Due.{are_there};
ghost use Rattle.cert_check.specs.States.{state_of, loosenings_of, Fits};
ghost use Rattle.cert_check.specs.Steps.{IsLeftBy};
ghost use Rattle.cert_check.specs.Serving.{Serves};

use crate::combination::can_combine;
use crate::left::Left;
use crate::loosenings::Loosenings;
use crate::moves::can_push;
use crate::state::State;
use crate::tools::Tools;
use cover_line::Narrowing;
use ival::Narrowed;
use poly_graph::Problem;

// Whether the marks of the state allow it.
fn can_narrow(problem: &Problem, s: Loosenings, state: &State, narrowing: &Narrowing) -> bool
    requires fits { Fits problem.now (state_of state.now) }
    requires atoms { IsTrue
        (are_there (problem_of problem.now) (narrowing_operands (narrowing_of narrowing.now))) }
    ensures { result ≡ can_narrow (problem_of problem.now) (loosenings_of s)
        (state_of state.now) (narrowing_of narrowing.now) }
{
    match narrowing {
        Narrowing::Pull(j) => state.in_yes(*j),
        Narrowing::Push(j) => can_push(problem, s, state, *j),
        Narrowing::Combine(pairs) => can_combine(problem, s, state, pairs),
    }
}

// Leaves of the state's space what is left of it.
fn contract(
    problem: &Problem,
    tools: &mut Tools,
    s: Loosenings,
    state: &mut State,
    narrowing: &Narrowing,
) -> Narrowed
    requires serves { Serves problem.now tools.old }
    requires fits { Fits problem.now (state_of state.old) }
    requires atoms { IsTrue
        (are_there (problem_of problem.now) (narrowing_operands (narrowing_of narrowing.now))) }
    ensures space { IsNarrowed (space_of state.old.space) (space_of state.new.space)
        (narrowed_to (problem_of problem.now) (loosenings_of s) (state_of state.old)
        (narrowing_of narrowing.now))
        result }
    ensures marks { state.new.lits ≡ state.old.lits }
    ensures serves { Serves problem.now tools.new }
{
    match narrowing {
        Narrowing::Pull(j) => tools.narrow(problem, s.margin, *j, &mut state.space),
        Narrowing::Push(j) => tools.narrow_off(problem, s.margin, *j, &mut state.space),
        Narrowing::Combine(pairs) => {
            tools.combine(problem, s.margin, &state.lits, pairs, &mut state.space)
        }
    }
}

/// The state narrowed, where something is left.
pub fn narrowed(
    problem: &Problem,
    tools: &mut Tools,
    s: Loosenings,
    state: State,
    narrowing: &Narrowing,
) -> Option<Left>
    requires serves { Serves problem.now tools.old }
    requires fits { Fits problem.now (state_of state) }
    requires atoms { IsTrue
        (are_there (problem_of problem.now) (narrowing_operands (narrowing_of narrowing.now))) }
    ensures rule { IsLeftBy (narrow_by (narrowing_of narrowing.now))
        problem.now (loosenings_of s) [] state result }
    ensures serves { Serves problem.now tools.new }
{
    if !can_narrow(problem, s, &state, narrowing) {
        return None;
    }
    let mut state = state;
    match contract(problem, tools, s, &mut state, narrowing) {
        Narrowed::Empty => None,
        Narrowed::Less | Narrowed::Same => Some(Left::One(state)),
    }
}

/// Closed, where nothing is left of the space.
pub fn emptied(
    problem: &Problem,
    tools: &mut Tools,
    s: Loosenings,
    state: State,
    narrowing: &Narrowing,
) -> Option<Left>
    requires serves { Serves problem.now tools.old }
    requires fits { Fits problem.now (state_of state) }
    requires atoms { IsTrue
        (are_there (problem_of problem.now) (narrowing_operands (narrowing_of narrowing.now))) }
    ensures rule { IsLeftBy (end_by (void_by (narrowing_of narrowing.now)))
        problem.now (loosenings_of s) [] state result }
    ensures serves { Serves problem.now tools.new }
{
    if !can_narrow(problem, s, &state, narrowing) {
        return None;
    }
    let mut state = state;
    match contract(problem, tools, s, &mut state, narrowing) {
        Narrowed::Empty => Some(Left::Closed),
        Narrowed::Less | Narrowed::Same => None,
    }
}
