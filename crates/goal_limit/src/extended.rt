// The problem with a limit, made of its parts.
ghost use Rattle.std.specs.Prelude.{◌≡◌, ◌+◌, ◌<◌, ◌≤◌, [], ◌∷◌, ◌++◌, length, map, true, false, IfOk};
ghost use Rattle.dyadic.specs.Views.{fraction_of_frac};
ghost use Rattle.poly_graph.specs.Term.{constant_node, le};
ghost use Rattle.poly_graph.specs.Shared.{most_nodes};
ghost use Rattle.poly_graph.specs.ProblemViews.{problem_of};
ghost use Rattle.poly_graph.specs.Views.{atom_of};
ghost use Rattle.cert_model.specs.Limited.{has_constant, limit_nodes, with_limit};
ghost use Rattle.goal_limit.specs.Limits.{has_room};

use crate::constants::Constants;
use crate::forms::forms_with;
use poly_graph::{Atom, Graph, Kind, Node, Problem};
use std::alloc::{AllocError, Global};

// The graph with the nodes of the limit of node `term`.
fn graph_with(
    alloc: Global,
    graph: &Graph,
    term: u32,
    constants: Constants,
) -> Result<Graph, AllocError>
    requires room { length graph.now + 4 ≤ most_nodes }
    requires term { term < length graph.now }
    requires scale { has_constant graph.now (fraction_of_frac constants.scale) ≡ false }
    requires offset { has_constant (constant_node (fraction_of_frac constants.scale) ∷ graph.now)
        (fraction_of_frac constants.offset) ≡ false }
    ensures { IfOk result (λ g. g ≡ graph.now ++ limit_nodes (length graph.now) term
        (fraction_of_frac constants.scale) (fraction_of_frac constants.offset)) }
{
    let n = graph.len() as u32;
    let more = [
        Node::Const(constants.scale),
        Node::Mul(n, term),
        Node::Const(constants.offset),
        Node::Add(n + 1, n + 2),
    ];
    Graph::joined(alloc, graph, graph.len(), &more)
}

// The atoms with one more, that this term is at most 0.
fn atoms_with(alloc: Global, atoms: &[Atom], term: u32) -> Result<Vec<Atom>, AllocError>
    ensures { IfOk result (λ v.
        map atom_of v.items ≡ map atom_of atoms.now ++ ((term, le) ∷ [])) }
{
    let mut all = Vec::from_slice(alloc, atoms)?;
    all.push(Atom {
        term,
        kind: Kind::Le,
    })?;
    Ok(all)
}

/// The problem with the limit of these constants.
pub(crate) fn extended(
    alloc: Global,
    problem: &Problem,
    goal: u32,
    constants: Constants,
) -> Result<Problem, AllocError>
    requires goal { goal < length problem.now.atoms }
    requires room { has_room (problem_of problem.now) ≡ true }
    requires scale { has_constant problem.now.nodes (fraction_of_frac constants.scale) ≡ false }
    requires offset { has_constant
        (constant_node (fraction_of_frac constants.scale) ∷ problem.now.nodes)
        (fraction_of_frac constants.offset) ≡ false }
    ensures { IfOk result (λ r. problem_of r ≡ with_limit (problem_of problem.now) goal
        (fraction_of_frac constants.scale) (fraction_of_frac constants.offset)) }
{
    let atom = problem.atoms().len() as u32;
    let term = problem.atoms()[goal as usize].term;
    let nodes = problem.graph().len() as u32;
    let graph = graph_with(alloc, problem.graph(), term, constants)?;
    let atoms = atoms_with(alloc, problem.atoms(), nodes + 3)?;
    let (forms, root) = forms_with(alloc, problem.forms(), problem.root(), atom)?;
    let axes = Vec::from_clones(alloc, problem.axes())?;
    Ok(Problem::new(axes, graph, atoms, forms, root))
}
