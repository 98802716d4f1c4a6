// Which trees are conjuncts of assertions, and the ends that these give.
ghost use Rattle.std.specs.Prelude.{◌≡◌, List, false, length, replicate, IfOk};
ghost use Rattle.root_rewriting.specs.Asserted.{AreAsserted};
ghost use Rattle.root_rewriting.specs.Nodes.{AreBelow, trees_in};
ghost use Rattle.script_roots.specs.Fresh.{Asserted};
ghost use Rattle.script_roots.specs.TreeBounds.{Axes};
ghost use Rattle.root_rewriting.specs.Ends.{ends_of_all};
ghost use Rattle.root_rewriting.specs.Shapes.{AreShapes};
ghost use Rattle.root_rewriting.specs.Sweep.{AreConjuncts, ArePlaces, SayNothing, assertion_places, conjuncts_of, marked_all, marked_ends};

use crate::range::end_bound::EndBound;
use crate::range::ends::push_node;
use crate::range::shapes::Shape;
use crate::unfold::{AssertedTrees, Node, Trees};
use sort_check::{Operator, operator_named};
use std::alloc::{AllocError, Global};

// Marks each of these places.
fn mark_all(marks: &mut Vec<bool>, places: &[usize])
    requires { AreBelow (length marks.old.items) places.now }
    ensures { marks.new.items ≡ marked_all marks.old.items places.now }
{
    for place in places {
        marks[*place] = true;
    }
}

// The conjuncts of a node: of a conjunction its parts, and what `+` or `*` has alone.
fn conjuncts_of<'n>(node: &'n Node<'_>) -> &'n [usize]
    ensures { result.now ≡ conjuncts_of node.now }
{
    let Node::Applied(_, name, parts) = node else {
        return &[];
    };
    match operator_named(name.as_slice()) {
        Some(Operator::And) => parts.as_slice(),
        Some(Operator::Plus | Operator::Times) if parts.len() == 1 => parts.as_slice(),
        _ => &[],
    }
}

// A mark for each tree, set at assertions.
fn assertion_marks(alloc: Global, asserted: &AssertedTrees<'_>) -> Result<Vec<bool>, AllocError>
    requires { ArePlaces (length asserted.now.trees) asserted.now.assertions.items }
    ensures { IfOk result (λ marks. marks.items ≡ marked_all
        (replicate (length asserted.now.trees) false)
        (assertion_places asserted.now.assertions.items)) }
{
    let assertions = asserted.assertions.as_slice();
    let mut marks = vec![in alloc; false; asserted.trees.len()]?;
    for assertion in assertions {
        if !assertion.is_goal {
            marks[assertion.tree] = true;
        }
    }
    Ok(marks)
}

/// A mark for each tree, set at those that are conjuncts of assertions. Each tree is visited once, after those that it
/// is part of.
pub(crate) fn conjuncts(
    alloc: Global,
    asserted: &AssertedTrees<'_>,
) -> Result<Vec<bool>, AllocError>
    requires { (claims : List Asserted) ×
        AreAsserted (trees_in asserted.now.trees) asserted.now.assertions.items claims }
    ensures { (A : Axes) (claims : List Asserted) → SayNothing A →
        AreAsserted (trees_in asserted.now.trees) asserted.now.assertions.items claims →
        IfOk result (λ marks. AreConjuncts A (trees_in asserted.now.trees) claims marks.items) }
{
    let trees = &asserted.trees;
    let mut marks = assertion_marks(alloc, asserted)?;
    for k in (0..trees.len()).rev() {
        if marks[k] {
            mark_all(&mut marks, conjuncts_of(trees.look(k)));
        }
    }
    Ok(marks)
}

/// The ends that marked trees give by themselves.
pub(crate) fn marked_ends(
    alloc: Global,
    trees: &Trees<'_>,
    shapes: &[Shape],
    marks: &[bool],
) -> Result<Vec<EndBound>, AllocError>
    requires marks { length marks.now ≡ length trees.now }
    requires shapes { length shapes.now ≡ length trees.now }
    ensures { (A : Axes) → AreShapes A (trees_in trees.now) shapes.now → IfOk result (λ es.
        ends_of_all es.items ≡ marked_ends A marks.now (trees_in trees.now)) }
{
    let mut ends = Vec::new(alloc);
    for k in 0..trees.len() {
        if marks[k] {
            push_node(trees.look(k), shapes, &mut ends)?;
        }
    }
    Ok(ends)
}
