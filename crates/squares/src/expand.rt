// Polynomials of all nodes that a line needs, each once.
ghost use Rattle.std.specs.Prelude.{◌≡◌, length, map, IfOk, IsTrue};
ghost use Rattle.poly_graph.specs.Term.{comes_after};
ghost use Rattle.ival.specs.SpaceViews.{space_of};
ghost use Rattle.poly_graph.specs.Views.{node_of};
ghost use Rattle.squares.specs.Expanding.{IsNext, IsNextIf, IsClosed, IsExpanded};
ghost use Rattle.squares.specs.Views.{terms_of};

use crate::budget::Budget;
use crate::node::{node_polynomial, take_node};
use crate::polynomial::Polynomial;
use ival::Space;
use poly_graph::{Graph, Node};
use std::alloc::{AllocError, Global};

// The polynomial of a node, none where too few steps are left or where it has a monomial of more than 32 axes.
fn next(
    alloc: Global,
    node: Node,
    centre: &Space,
    before: &[Polynomial],
    budget: &mut Budget,
) -> Result<Option<Polynomial>, AllocError>
    requires { IsTrue (comes_after (length before.now) (node_of node)) }
    ensures { IfOk result (IsNext (space_of centre.now) (map terms_of before.now) (node_of node)
        budget.old budget.new) }
{
    if !take_node(budget, node, before) {
        return Ok(None);
    }
    let polynomial = node_polynomial(alloc, node, centre, before)?;
    if !polynomial.is_short() {
        return Ok(None);
    }
    Ok(Some(polynomial))
}

// The same of a marked node, and some polynomial of another one.
fn next_if(
    alloc: Global,
    marked: bool,
    node: Node,
    centre: &Space,
    before: &[Polynomial],
    budget: &mut Budget,
) -> Result<Option<Polynomial>, AllocError>
    requires { IsTrue (comes_after (length before.now) (node_of node)) }
    ensures { IfOk result (IsNextIf marked (space_of centre.now)
        (map terms_of before.now) (node_of node) budget.old budget.new) }
{
    if !marked {
        return Ok(Some(Polynomial::new(alloc)));
    }
    next(alloc, node, centre, before, budget)
}

/// The polynomials of the marked nodes, by number, or none where too few steps are left or where one has a monomial of more
/// than 32 axes. What stands for other nodes is of no account.
pub fn expand_nodes(
    alloc: Global,
    graph: &Graph,
    centre: &Space,
    marks: &[bool],
    budget: &mut Budget,
) -> Result<Option<Vec<Polynomial>>, AllocError>
    requires count { length marks.now ≡ length graph.now }
    requires closed { IsClosed graph.now marks.now }
    ensures { IfOk result
        (IsExpanded (space_of centre.now) graph.now marks.now budget.old budget.new) }
{
    let count = graph.len();
    let mut polynomials = Vec::new(alloc);
    for n in 0..count {
        let node = graph.node(n as u32);
        match next_if(alloc, marks[n], node, centre, &polynomials, budget)? {
            None => return Ok(None),
            Some(polynomial) => polynomials.push(polynomial)?,
        }
    }
    Ok(Some(polynomials))
}
