// The atom whose term is the goal of a script, as the script's problem tells it.
ghost use Rattle.std.specs.Prelude.{◌≡◌, ◌<◌, ℕ, Option, length, map};
ghost use Rattle.poly_graph.specs.FormGraph.{form_at, graph_forms};
ghost use Rattle.poly_graph.specs.ProblemViews.{problem_of};
ghost use Rattle.problem_build.specs.Goal.{before_goal, first_atom};
ghost use Rattle.script_forms.specs.Atoms.{goal_atom};
ghost use Rattle.script_reading.specs.Built.{IsBuiltOf};
ghost use Rattle.smt_script.specs.Views.{command_of, commands_in};
ghost use Rattle.smt_sexp.specs.declared.sexps.Sexps as arena;

use poly_graph::{FormGraph, FormNode, Problem};
use smt_script::{Command, Script};

// The number of assertions before the first goal among commands.
fn before_goal(commands: &[Command<'_>]) -> Option<usize>
    ensures { (s : arena.Sexps) → result ≡ before_goal (map (command_of s) commands.now) }
{
    let mut before = 0;
    let mut rest = commands;
    while let [command, later @ ..] = rest {
        match command {
            Command::Minimize(_, _) => return Some(before),
            Command::Assert(_, _) => before += 1,
            _ => {}
        }
        rest = later;
    }
    None
}

// The atom that is the first part of this node, where the node is a disjunction.
fn first_atom(forms: &FormGraph, n: u32) -> Option<u32>
    requires { n < length forms.now }
    ensures { result ≡ first_atom (form_at (graph_forms forms.now) n) }
{
    // Its type keeps the order of its nodes.
    let _ = forms.len();
    let FormNode::Or(parts) = forms.node(n) else {
        return None;
    };
    let [first, ..] = parts.as_slice() else {
        return None;
    };
    match forms.node(*first) {
        FormNode::AtomIs(atom) => Some(*atom),
        _ => None,
    }
}

/// The number of the atom whose term is the goal of a script, where the script's problem is this: none where it has no
/// goal, and where its goal holds a Real `ite`.
pub fn goal_of(script: &Script<'_>, problem: &Problem) -> Option<u32>
    requires { (bound : Option ℕ) ×
        IsBuiltOf bound (commands_in script.now) (problem_of problem.now) }
    ensures { result ≡ goal_atom (commands_in script.now) }
{
    let Some(before) = before_goal(script.commands.as_slice()) else {
        return None;
    };
    let forms = problem.forms();
    // Its type keeps the order of its nodes.
    let _ = forms.len();
    let FormNode::And(claims) = forms.node(problem.root()) else {
        return None;
    };
    first_atom(forms, claims[before])
}
