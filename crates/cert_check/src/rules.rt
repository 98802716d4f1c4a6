// The rules of a tree.
ghost use Rattle.std.specs.Prelude.{IfOk, IsTrue};
ghost use Rattle.poly_graph.specs.ProblemViews.{problem_of};
ghost use Rattle.cover_line.specs.Views.{line_of as rule_of};
ghost use Rattle.cert_model.specs.Due.{names_well};
ghost use Rattle.cert_check.specs.States.{state_of, loosenings_of, Fits};
ghost use Rattle.cert_check.specs.Dues.{AllFit};
ghost use Rattle.cert_check.specs.Steps.{IsLeftBy};
ghost use Rattle.cert_check.specs.Serving.{Serves};

use crate::branches::{case, cut, either, flip, stuck};
use crate::closing::{by, make_false};
use crate::left::Left;
use crate::lemmas::Lemmas;
use crate::loosenings::Loosenings;
use crate::moves::{ban, unit};
use crate::narrowing::{emptied, narrowed};
use crate::squaring::squares;
use crate::state::State;
use crate::tools::Tools;
use cover_line::{Branching, Ending, Marking, Rule, Staying};
use poly_graph::Problem;
use std::alloc::{AllocError, Global};

/// What the line leaves of the state; none where its condition fails.
pub fn rule(
    alloc: Global,
    problem: &Problem,
    tools: &mut Tools,
    s: Loosenings,
    lemmas: &Lemmas,
    state: State,
    step: &Rule,
) -> Result<Option<Left>, AllocError>
    requires serves { Serves problem.now tools.old }
    requires lemmas { AllFit problem.now lemmas.now }
    requires fits { Fits problem.now (state_of state) }
    requires names { IsTrue (names_well (problem_of problem.now) (rule_of step.now)) }
    ensures rule { IfOk result
        (IsLeftBy (rule_of step.now) problem.now (loosenings_of s) lemmas.now state) }
    ensures serves { Serves problem.now tools.new }
{
    match step {
        Rule::Narrow(narrowing) => Ok(narrowed(problem, tools, s, state, narrowing)),
        Rule::End(Ending::Void(narrowing)) => Ok(emptied(problem, tools, s, state, narrowing)),
        Rule::End(Ending::Squares(pairs, blocks)) => {
            squares(alloc, problem, s, &state, pairs, blocks)
        }
        Rule::End(Ending::False) => Ok(make_false(problem, tools, s, state)),
        Rule::End(Ending::By(i)) => by(alloc, problem, lemmas, state, *i),
        Rule::Mark(Marking::Unit(j)) => Ok(unit(problem, tools, s, state, *j)),
        Rule::Mark(Marking::Ban(j, i)) => ban(alloc, problem, lemmas, state, *j, *i),
        Rule::Branch(Branching::Cut(axis, place)) => cut(alloc, state, *axis, *place),
        Rule::Branch(Branching::Flip(axis)) => flip(alloc, state, *axis),
        Rule::Branch(Branching::Case(j)) => case(alloc, state, *j),
        Rule::Branch(Branching::Either(first, second)) => {
            either(alloc, problem, tools, s, state, first, second)
        }
        Rule::Stay(Staying::Open) => Ok(Some(Left::Stays)),
        Rule::Stay(Staying::Stuck(j)) => Ok(stuck(problem, tools, s, state, *j)),
    }
}
