// A goal among the steps of a script.
ghost use Rattle.std.specs.Prelude.{◌≡◌, map};
ghost use Rattle.smt_script.specs.Views.{step_of};
ghost use Rattle.smt_sexp.specs.declared.sexps.Sexps as arena;
ghost use Rattle.problem_build.specs.GoalStep.{has_goal, is_goal};

use smt_script::{Command, Step};

// Whether a step is a goal.
fn is_goal(step: &Step<'_>) -> bool
    ensures { (s : arena.Sexps) → result ≡ is_goal (step_of s step.now) }
{
    matches!(step, Step::Command(Command::Minimize(_, _)))
}

/// Whether a goal is among steps.
pub(crate) fn has_goal(steps: &[Step<'_>]) -> bool
    ensures { (s : arena.Sexps) → result ≡ has_goal (map (step_of s) steps.now) }
{
    let mut rest = steps;
    while let [step, later @ ..] = rest {
        if is_goal(step) {
            return true;
        }
        rest = later;
    }
    false
}
