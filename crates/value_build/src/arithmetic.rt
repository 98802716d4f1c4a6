// Sums, differences, products and quotients of several trees.
ghost use Rattle.std.specs.Prelude.{◌≡◌, ◌<◌, length};
ghost use Rattle.value_build.specs.Arithmetic.{AreNodes, is_difference, is_product};
ghost use Rattle.value_build.specs.Calls.{CalculatesTrees, ComputesStep, FoldsTrees, MakesPowers, MultipliesPowers};
ghost use Rattle.value_build.specs.declared.arithmetic.Step.TheVariants.{Multiply};

use crate::gather::{gather, stand_in_rows, trees_are_shared};
use script_fault::Place;
use std::alloc::Global;
use term_build::{Builder, Stop};

/// A step of two trees.
#[derive(Clone, Copy, Debug, PartialEq, Eq)]
pub(crate) enum Step {
    Add,
    Subtract,
    Multiply,
    Divide,
}

/// One step of two trees.
pub(crate) fn apply(
    builder: &mut Builder,
    at: Place,
    step: Step,
    a: u32,
    b: u32,
) -> Result<u32, Stop>
    requires first { a < length builder.old.nodes }
    requires second { b < length builder.old.nodes }
    ensures does { ComputesStep step builder.old builder.new at a b result }
    ensures sorts { builder.new.sorts ≡ builder.old.sorts }
{
    match step {
        Step::Add => builder.add(at, a, b),
        Step::Subtract => builder.subtract(at, a, b),
        Step::Multiply => builder.multiply(at, a, b),
        Step::Divide => builder.divide(at, a, b),
    }
}

// What the steps make of a first tree and these, from the left.
fn fold(builder: &mut Builder, at: Place, step: Step, first: u32, rest: &[u32]) -> Result<u32, Stop>
    requires first { first < length builder.old.nodes }
    requires rest { AreNodes builder.old rest.now }
    ensures does { FoldsTrees step builder.old builder.new at first rest.now result }
    ensures sorts { builder.new.sorts ≡ builder.old.sorts }
{
    let mut so_far = first;
    let mut left = rest;
    while let Some((next, later)) = left.split_first() {
        so_far = apply(builder, at, step, so_far, *next)?;
        left = later;
    }
    Ok(so_far)
}

// The powers of trees, of which there are some: each that stands in a row with others is one with them.
fn powers(alloc: Global, builder: &mut Builder, nodes: &[u32]) -> Result<Vec<u32>, Stop>
    requires some { 0 < length nodes.now }
    requires nodes { AreNodes builder.old nodes.now }
    ensures does { MakesPowers builder.old builder.new nodes.now result }
    ensures sorts { builder.new.sorts ≡ builder.old.sorts }
{
    let Some((first, rest)) = nodes.split_first() else {
        unreachable!()
    };
    let mut made = Vec::new(alloc);
    let mut factor = *first;
    let mut from = nodes;
    let mut left = rest;
    while let Some((next, later)) = left.split_first() {
        if !builder.repeats(factor, *next) {
            let power = builder.power(factor, from.len() - left.len())?;
            made.push(power)?;
            factor = *next;
            from = left;
        }
        left = later;
    }
    let power = builder.power(factor, from.len() - left.len())?;
    made.push(power)?;
    Ok(made)
}

// The product of trees, of which there are some and those that are equal stand in a row: the powers, and then their
// product from the left.
fn multiply_powers(
    alloc: Global,
    builder: &mut Builder,
    at: Place,
    nodes: &[u32],
) -> Result<u32, Stop>
    requires some { 0 < length nodes.now }
    requires nodes { AreNodes builder.old nodes.now }
    ensures does { MultipliesPowers builder.old builder.new at nodes.now result }
    ensures sorts { builder.new.sorts ≡ builder.old.sorts }
{
    let made = powers(alloc, builder, nodes)?;
    let Some((first, rest)) = made.split_first() else {
        unreachable!()
    };
    fold(builder, at, Step::Multiply, *first, rest)
}

// The product of trees, of which there are some: those that are equal are a power.
fn multiply(alloc: Global, builder: &mut Builder, at: Place, nodes: &[u32]) -> Result<u32, Stop>
    requires some { 0 < length nodes.now }
    requires nodes { AreNodes builder.old nodes.now }
    ensures does { CalculatesTrees Multiply builder.old builder.new at nodes.now result }
    ensures sorts { builder.new.sorts ≡ builder.old.sorts }
{
    trees_are_shared(builder);
    if stand_in_rows(nodes) {
        return multiply_powers(alloc, builder, at, nodes);
    }
    let factors = gather(alloc, builder, nodes)?;
    multiply_powers(alloc, builder, at, factors.as_slice())
}

/// Whether the step is that of differences.
pub(crate) fn is_difference(step: Step) -> bool
    ensures { result ≡ is_difference step }
{
    matches!(step, Step::Subtract)
}

// Whether the step is that of products.
fn is_product(step: Step) -> bool
    ensures { result ≡ is_product step }
{
    matches!(step, Step::Multiply)
}

/// What an arithmetic operator makes of trees, of which there are some: their product, the opposite of one tree for a
/// difference, else the steps from the left.
pub(crate) fn calculate(
    alloc: Global,
    builder: &mut Builder,
    at: Place,
    step: Step,
    nodes: &[u32],
) -> Result<u32, Stop>
    requires some { 0 < length nodes.now }
    requires nodes { AreNodes builder.old nodes.now }
    ensures does { CalculatesTrees step builder.old builder.new at nodes.now result }
    ensures sorts { builder.new.sorts ≡ builder.old.sorts }
{
    if is_product(step) {
        return multiply(alloc, builder, at, nodes);
    }
    let Some((first, rest)) = nodes.split_first() else {
        unreachable!()
    };
    if is_difference(step) && rest.is_empty() {
        return builder.negate(*first);
    }
    fold(builder, at, step, *first, rest)
}
