// Polynomials of nodes.
ghost use Rattle.std.specs.Prelude.{◌≡◌, ◌<◌, [], map, length, slice_index_or, IfOk, IsTrue};
ghost use Rattle.ival.specs.Views.{interval_of};
ghost use Rattle.ival.specs.SpaceViews.{space_of};
ghost use Rattle.poly_graph.specs.Term.{comes_after};
ghost use Rattle.poly_graph.specs.Views.{node_of};
ghost use Rattle.square_model.specs.Polynomial.{constant_polynomial};
ghost use Rattle.squares.specs.Nodes.{node_cost, node_terms, variable_terms};
ghost use Rattle.squares.specs.Views.{terms_of, Takes};

use crate::budget::Budget;
use crate::number::one;
use crate::polynomial::Polynomial;
use ival::{Ival, Space};
use poly_graph::Node;
use std::alloc::{AllocError, Global};

/// The coefficient alone.
pub fn constant(alloc: Global, value: Ival) -> Result<Polynomial, AllocError>
    ensures { IfOk result (λ p. terms_of p ≡ constant_polynomial (interval_of value)) }
{
    let mut polynomial = Polynomial::new(alloc);
    polynomial.give(Vec::new(alloc), value)?;
    Ok(polynomial)
}

// An axis, which is this at the centre.
fn variable(alloc: Global, axis: u32, centre: Ival) -> Result<Polynomial, AllocError>
    ensures { IfOk result (λ p. terms_of p ≡ variable_terms axis (interval_of centre)) }
{
    let mut polynomial = constant(alloc, centre)?;
    let axes = Vec::from_array(alloc, [axis])?;
    polynomial.give(axes, one())?;
    Ok(polynomial)
}

/// That of a node.
pub fn at<'a>(polynomials: &'a [Polynomial], node: u32) -> &'a Polynomial
    requires { node < length polynomials.now }
    ensures { terms_of result.now ≡ slice_index_or (map terms_of polynomials.now) node [] }
{
    &polynomials[node as usize]
}

/// The polynomial of a node, from those of the nodes before it.
pub fn node_polynomial(
    alloc: Global,
    node: Node,
    centre: &Space,
    before: &[Polynomial],
) -> Result<Polynomial, AllocError>
    requires { IsTrue (comes_after (length before.now) (node_of node)) }
    ensures { IfOk result (λ p. terms_of p ≡
        node_terms (space_of centre.now) (map terms_of before.now) (node_of node)) }
{
    match node {
        Node::Const(fraction) => constant(alloc, Ival::around(fraction)),
        Node::Var(axis) => variable(alloc, axis, centre.interval(axis)),
        Node::Neg(a) => at(before, a).negated(alloc),
        Node::Add(a, b) => at(before, a).sum(alloc, at(before, b)),
        Node::Mul(a, b) => Polynomial::product(alloc, at(before, a), at(before, b)),
        Node::Sq(a) => Polynomial::product(alloc, at(before, a), at(before, a)),
    }
}

/// Takes the steps of a node, and tells whether so many were left.
pub fn take_node(budget: &mut Budget, node: Node, before: &[Polynomial]) -> bool
    requires { IsTrue (comes_after (length before.now) (node_of node)) }
    ensures { Takes (node_cost (map terms_of before.now) (node_of node))
        budget.old budget.new result }
{
    match node {
        Node::Add(a, b) => budget.take_sum(at(before, a).len(), at(before, b).len()),
        Node::Mul(a, b) => budget.take_product(at(before, a).len(), at(before, b).len()),
        Node::Sq(a) => budget.take_product(at(before, a).len(), at(before, a).len()),
        Node::Const(_) | Node::Var(_) | Node::Neg(_) => true,
    }
}
