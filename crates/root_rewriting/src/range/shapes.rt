// What trees are to the ranges of constants: known, a constant alone, or another tree.
ghost use Rattle.std.specs.Prelude.{◌≡◌, ◌<◌, [], ◌∷◌, length, map, IfOk};
ghost use Rattle.dyadic.specs.Point as point;
ghost use Rattle.root_rewriting.specs.Nodes.{AreBelow, IsBelow, atom_of, trees_in};
ghost use Rattle.script_model.specs.Reading.{found, literal_value, operators};
ghost use Rattle.script_roots.specs.TreeBounds as model;
ghost use Rattle.ival.specs.Views.{around};
ghost use Rattle.script_roots.specs.TreeBounds.{Axes, all_known_in, applied_in, computed_in, constant_axis, leaf_in, operation_in, symbol_in};
ghost use Rattle.smt_script.specs.Views.{sort_of};
ghost use Rattle.sort_check.specs.Views.{operator_of};
ghost use Rattle.root_rewriting.specs.Shapes.{AreShapes, KnowsAxes, intervals_of, node_in, shape_at, shape_of, without_ends};

use crate::range::literal::literal_range;
use crate::range::operators::operator_range;
use crate::unfold::{Atom, Node, Trees};
use ival::Ival;
use script_fault::Name;
use smt_script::Sort;
use sort_check::{Operator, operator_named};
use std::alloc::{AllocError, Global};
use std::collections::HashMap;

/// What a tree is to the ranges of constants.
#[derive(Clone, Copy, Debug)]
pub(crate) enum Shape {
    /// Literals and arithmetic alone, with an interval in which the value lies.
    Known(Ival),
    /// A Real constant alone, by its number.
    Axis(usize),
    Other,
}

/// The shape of a constant of this number.
pub(crate) fn constant_shape(axis: usize, sort: Sort) -> Shape
    ensures { shape_of result ≡ constant_axis axis (sort_of sort) }
{
    match sort {
        Sort::Real => Shape::Axis(axis),
        Sort::Bool => Shape::Other,
    }
}

// The intervals at these places, where all are known.
fn all_known(
    alloc: Global,
    shapes: &[Shape],
    parts: &[usize],
) -> Result<Option<Vec<Ival>>, AllocError>
    requires { AreBelow (length shapes.now) parts.now }
    ensures { IfOk result (λ r. intervals_of r ≡
        all_known_in (map (shape_at shapes.now) parts.now)) }
{
    let mut known = Vec::with_capacity(alloc, parts.len())?;
    for part in parts {
        let Shape::Known(range) = shapes[*part] else {
            return Ok(None);
        };
        known.push(range)?;
    }
    Ok(Some(known))
}

// What arithmetic makes of trees at these places.
fn computed(
    alloc: Global,
    operator: Operator,
    shapes: &[Shape],
    parts: &[usize],
) -> Result<Shape, AllocError>
    requires { AreBelow (length shapes.now) parts.now }
    ensures { IfOk result (λ s. shape_of s ≡ computed_in (operator_of operator)
        (all_known_in (map (shape_at shapes.now) parts.now))) }
{
    match all_known(alloc, shapes, parts)? {
        Some(ranges) => Ok(Shape::Known(operator_range(operator, ranges.as_slice()))),
        None => Ok(Shape::Other),
    }
}

// What an operator makes of trees at these places.
fn operation(
    alloc: Global,
    operator: Operator,
    shapes: &[Shape],
    parts: &[usize],
) -> Result<Shape, AllocError>
    requires { AreBelow (length shapes.now) parts.now }
    ensures { IfOk result (λ s. shape_of s ≡ without_ends
        (operation_in (operator_of operator) (map (shape_at shapes.now) parts.now))) }
{
    match operator {
        Operator::Plus | Operator::Times => match parts {
            [part] => Ok(shapes[*part]),
            _ => computed(alloc, operator, shapes, parts),
        },
        Operator::Minus | Operator::Divide => computed(alloc, operator, shapes, parts),
        _ => Ok(Shape::Other),
    }
}

// The shape of a name alone.
fn symbol_shape(
    alloc: Global,
    name: &Name,
    axes: &HashMap<&[u8], Shape>,
) -> Result<Shape, AllocError>
    ensures { (A : Axes) → KnowsAxes axes.now A → IfOk result (λ s. shape_of s ≡
        without_ends (symbol_in (found name.now operators) (found name.now A))) }
{
    if let Some(operator) = operator_named(name.as_slice()) {
        return operation(alloc, operator, &[], &[]);
    }
    match axes.get(name.as_slice()).copied() {
        Some(shape) => Ok(shape),
        None => Ok(Shape::Other),
    }
}

// The shape of a literal.
fn literal_shape(digits: &[u8], decimals: &[u8]) -> Result<Shape, AllocError>
    ensures { IfOk result (λ s. shape_of s ≡ model.known_in
        (around (literal_value digits.now decimals.now))) }
{
    match literal_range(digits, decimals) {
        Some(range) => Ok(Shape::Known(range)),
        None => Err(AllocError),
    }
}

// The shape of a tree without parts.
fn atom_shape(
    alloc: Global,
    atom: Atom<'_>,
    axes: &HashMap<&[u8], Shape>,
) -> Result<Shape, AllocError>
    ensures { (A : Axes) → KnowsAxes axes.now A → IfOk result (λ s.
        shape_of s ≡ without_ends (leaf_in A (atom_of atom.entry))) }
{
    match atom {
        Atom::Numeral(digits) => literal_shape(digits.as_slice(), b"".as_slice()),
        Atom::Decimal(digits, decimals) => literal_shape(digits.as_slice(), decimals.as_slice()),
        Atom::Symbol(name) => symbol_shape(alloc, name, axes),
    }
}

// The shape of a name at arguments.
fn applied_shape(
    alloc: Global,
    name: &Name,
    shapes: &[Shape],
    parts: &[usize],
) -> Result<Shape, AllocError>
    requires { AreBelow (length shapes.now) parts.now }
    ensures { IfOk result (λ s. shape_of s ≡ without_ends
        (applied_in (found name.now operators) (map (shape_at shapes.now) parts.now))) }
{
    if parts.is_empty() {
        return Ok(Shape::Other);
    }
    match operator_named(name.as_slice()) {
        Some(operator) => operation(alloc, operator, shapes, parts),
        None => Ok(Shape::Other),
    }
}

// The shape of a node's tree, where its parts have these.
fn node_shape(
    alloc: Global,
    node: &Node<'_>,
    shapes: &[Shape],
    axes: &HashMap<&[u8], Shape>,
) -> Result<Shape, AllocError>
    requires { IsBelow (length shapes.now) node.now }
    ensures { (A : Axes) → KnowsAxes axes.now A → IfOk result (λ s.
        shape_of s ≡ without_ends (node_in A (map shape_of shapes.now) node.now)) }
{
    match node {
        Node::Atomic(_, atom) => atom_shape(alloc, *atom, axes),
        Node::Applied(_, name, parts) => applied_shape(alloc, name, shapes, parts.as_slice()),
        Node::Root(_, _) => Ok(Shape::Other),
        Node::Quotient(_, dividend, divisor) => {
            computed(alloc, Operator::Divide, shapes, &[*dividend, *divisor])
        }
        Node::Formless(_) => Ok(Shape::Other),
    }
}

/// The shapes of trees, where constants have these.
pub(crate) fn shapes(
    alloc: Global,
    trees: &Trees<'_>,
    axes: &HashMap<&[u8], Shape>,
) -> Result<Vec<Shape>, AllocError>
    ensures { (A : Axes) → KnowsAxes axes.now A →
        IfOk result (λ ss. AreShapes A (trees_in trees.now) ss.items) }
{
    let mut done = Vec::with_capacity(alloc, trees.len())?;
    for k in 0..trees.len() {
        let next = node_shape(alloc, trees.look(k), done.as_slice(), axes)?;
        done.push(next)?;
    }
    Ok(done)
}
