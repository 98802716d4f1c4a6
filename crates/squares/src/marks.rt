// The nodes that are expanded: those of the atoms' terms.
ghost use Rattle.std.specs.Prelude.{◌≡◌, ◌<◌, Some, false, length, replicate, IfOk, IsTrue};
ghost use Rattle.cover_line.specs.Views.{multipliers_of};
ghost use Rattle.poly_graph.specs.Problem.{atom_at};
ghost use Rattle.poly_graph.specs.ProblemViews.{problem_of};
ghost use Rattle.poly_graph.specs.Term.{comes_after, in_order};
ghost use Rattle.poly_graph.specs.Views.{atom_of, node_of};
ghost use Rattle.square_model.specs.Positive.{expanded_nodes, marked_below, root_marks, with_children};
ghost use Rattle.squares.specs.Marks.{visited};
ghost use Rattle.squares.specs.Pairs.{NamesAtoms};

use crate::combination::Combination;
use poly_graph::{Atom, Graph, Node, Problem};
use std::alloc::{AllocError, Global};

/// The atom of this number.
pub fn atom_at(problem: &Problem, j: u32) -> Atom
    requires { j < length problem.now.atoms }
    ensures atom { atom_of result ≡ atom_at (problem_of problem.now) j }
    ensures place { result.term < length problem.now.nodes }
{
    let atoms = problem.atoms();
    atoms[j as usize]
}

// Marks the root of each atom.
fn mark_roots(combination: &Combination<'_>, marks: &mut [bool])
    requires atoms { NamesAtoms combination.now }
    requires none { marks.old ≡ replicate (length combination.now.problem.now.nodes) false }
    ensures { marks.new ≡ root_marks (problem_of combination.now.problem.now)
        (multipliers_of combination.now.multipliers.now) }
{
    let multipliers = combination.multipliers;
    for k in (0..multipliers.len()).rev() {
        let pair = multipliers[k];
        let atom = atom_at(combination.problem, pair.0);
        marks[atom.term as usize] = true;
    }
}

// Marks the children of a node.
fn mark_children(node: Node, marks: &mut [bool])
    requires { IsTrue (comes_after (length marks.old) (node_of node)) }
    ensures { marks.new ≡ with_children (Some (node_of node)) marks.old }
{
    match node {
        Node::Const(_) | Node::Var(_) => {}
        Node::Neg(a) | Node::Sq(a) => marks[a as usize] = true,
        Node::Add(a, b) | Node::Mul(a, b) => {
            marks[a as usize] = true;
            marks[b as usize] = true;
        }
    }
}

// Marks the children of the node of this number, where it is marked.
fn visit(graph: &Graph, n: u32, marks: &mut [bool])
    requires order { IsTrue (in_order 0 graph.now) }
    requires node { n < length graph.now }
    requires count { length marks.old ≡ length graph.now }
    ensures { marks.new ≡ visited graph.now n marks.old }
{
    let node = graph.node(n);
    if marks[n as usize] {
        mark_children(node, marks);
    }
}

// From the highest node down, marks the children of each marked one.
fn mark_below(graph: &Graph, marks: &mut [bool])
    requires { length marks.old ≡ length graph.now }
    ensures { marks.new ≡ marked_below graph.now (length graph.now) marks.old }
{
    let mut left = graph.len();
    while left > 0 {
        left -= 1;
        visit(graph, left as u32, marks);
    }
}

/// Marks at the nodes of the atoms' terms.
pub fn expanded_nodes(alloc: Global, combination: &Combination<'_>) -> Result<Vec<bool>, AllocError>
    requires { NamesAtoms combination.now }
    ensures { IfOk result (λ marks. marks.items ≡
        expanded_nodes (problem_of combination.now.problem.now)
        (multipliers_of combination.now.multipliers.now)) }
{
    let graph = combination.problem.graph();
    let mut marks = vec![in alloc; false; graph.len()]?;
    mark_roots(combination, &mut marks);
    mark_below(graph, &mut marks);
    Ok(marks)
}
