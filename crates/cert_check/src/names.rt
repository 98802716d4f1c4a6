// What a line names.
ghost use Rattle.std.specs.Prelude.{◌≡◌, length, map};
ghost use Rattle.cert_model.specs.Due.{all_below, are_all_axes, are_atoms, are_axes, are_blocks_there, are_there, is_factor_there, is_atom, is_axis, is_crossed_box, names_well, Next};
ghost use Rattle.cover_model.specs.Views.{multipliers_of};
ghost use Rattle.cert_model.specs.Accepted.{no_crossing};
ghost use Rattle.poly_graph.specs.ProblemViews.{problem_of};
ghost use Rattle.poly_graph.specs.Problem.{crosses};
ghost use Rattle.cert_check.specs.Faults.{IsLineRefusal};
ghost use Rattle.cover_line.specs.Views.{axes_of, blocks_of, factor_of, line_of as rule_of, narrowing_of};
ghost use Rattle.cover_line.specs.Words.{narrowing_operands};

use crate::lists::all_below;
use crate::refusal::Refusal;
use cover_line::{Block, Branching, Ending, Factor, Marking, Narrowing, Rule, Staying, Word};
use dyadic::Dy;
use poly_graph::Problem;

// Whether there is such an atom.
fn is_atom(problem: &Problem, j: u32) -> bool
    ensures { result ≡ is_atom (problem_of problem.now) j }
{
    (j as usize) < problem.atoms().len()
}

// Whether there is such an axis.
fn is_axis(problem: &Problem, axis: u32) -> bool
    ensures { result ≡ is_axis (problem_of problem.now) axis }
{
    (axis as usize) < problem.axes().len()
}

// Whether there are all these atoms.
fn are_atoms(problem: &Problem, pairs: &[(u32, Dy)]) -> bool
    ensures { result ≡ are_atoms (problem_of problem.now) (multipliers_of pairs.now) }
{
    for i in 0..pairs.len() {
        if !is_atom(problem, pairs[i].0) {
            return false;
        }
    }
    true
}

// Whether there are all atoms of the group.
fn is_group_there(problem: &Problem, group: &[u32]) -> bool
    ensures { result ≡ all_below (length problem.now.atoms) group.now }
{
    all_below(problem.atoms().len(), group)
}

// Whether there are all these axes.
fn are_axes(problem: &Problem, monomial: &[u32]) -> bool
    ensures { result ≡ are_axes (problem_of problem.now) monomial.now }
{
    for i in 0..monomial.len() {
        if !is_axis(problem, monomial[i]) {
            return false;
        }
    }
    true
}

// Whether there are the axes of all these monomials.
fn are_all_axes(problem: &Problem, monomials: &[Vec<u32>]) -> bool
    ensures { result ≡ are_all_axes (problem_of problem.now) (map axes_of monomials.now) }
{
    for i in 0..monomials.len() {
        if !are_axes(problem, &monomials[i]) {
            return false;
        }
    }
    true
}

// Whether there is the axis of a factor, if it has one.
fn is_factor_there(problem: &Problem, factor: Factor) -> bool
    ensures { result ≡ is_factor_there (problem_of problem.now) (factor_of factor) }
{
    match factor {
        Factor::One => true,
        Factor::BoundOf(axis) => is_axis(problem, axis),
    }
}

// Whether there are the axes of all these blocks.
fn are_blocks_there(problem: &Problem, blocks: &[Block]) -> bool
    ensures { result ≡ are_blocks_there (problem_of problem.now) (blocks_of blocks.now) }
{
    for i in 0..blocks.len() {
        let block = &blocks[i];
        if !is_factor_there(problem, block.factor) || !are_all_axes(problem, &block.monomials) {
            return false;
        }
    }
    true
}

// Whether the atoms that it narrows by are there.
fn names_atoms(problem: &Problem, narrowing: &Narrowing) -> bool
    ensures { result ≡ are_there (problem_of problem.now)
        (narrowing_operands (narrowing_of narrowing.now)) }
{
    match narrowing {
        Narrowing::Pull(j) | Narrowing::Push(j) => is_atom(problem, *j),
        Narrowing::Combine(pairs) => are_atoms(problem, pairs),
    }
}

/// Whether the atoms and axes that the line names are there.
pub fn names_well(problem: &Problem, step: &Rule) -> bool
    ensures { result ≡ names_well (problem_of problem.now) (rule_of step.now) }
{
    match step {
        Rule::Narrow(narrowing) => names_atoms(problem, narrowing),
        Rule::End(Ending::Void(narrowing)) => names_atoms(problem, narrowing),
        Rule::End(Ending::Squares(pairs, blocks)) => {
            are_atoms(problem, pairs) && are_blocks_there(problem, blocks)
        }
        Rule::End(Ending::False | Ending::By(_)) => true,
        Rule::Mark(Marking::Unit(j) | Marking::Ban(j, _)) => is_atom(problem, *j),
        Rule::Branch(Branching::Cut(axis, _) | Branching::Flip(axis)) => is_axis(problem, *axis),
        Rule::Branch(Branching::Case(j)) => is_atom(problem, *j),
        Rule::Branch(Branching::Either(first, second)) => {
            is_group_there(problem, first) && is_group_there(problem, second)
        }
        Rule::Stay(Staying::Open) => true,
        Rule::Stay(Staying::Stuck(j)) => is_atom(problem, *j),
    }
}

/// Whether the declared bounds of this axis cross.
pub fn crosses(problem: &Problem, axis: u32) -> bool
    ensures { result ≡ crosses (problem_of problem.now) axis }
{
    let axes = problem.axes();
    let axis = axis as usize;
    axis < axes.len() && axes[axis].declared.is_crossed()
}

/// Whether the declared bounds of some axis cross.
#[tactic(auto, using(crate::proofs::Crossed::crossed_here, crate::proofs::Crossed::crossed_next, crate::proofs::Crossed::crossed_none))]
pub fn is_crossed_box(problem: &Problem) -> bool
    ensures { result ≡ is_crossed_box (problem_of problem.now) }
{
    let axes = problem.axes();
    for axis in 0..axes.len() {
        if axes[axis].declared.is_crossed() {
            return true;
        }
    }
    false
}

/// The fault of a line for crossed bounds where it may not stand.
pub fn no_crossing(problem: &Problem, axis: u32) -> Refusal
    ensures { IsLineRefusal result (no_crossing (problem_of problem.now) axis) }
{
    if is_axis(problem, axis) {
        Refusal::RuleFails(Word::Empty)
    } else {
        Refusal::BadNumber
    }
}
