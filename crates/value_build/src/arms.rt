// Operators at Real values that hold an `ite`, and `ite` at Real arms.
ghost use Rattle.std.specs.Prelude.{◌≡◌, ℕ, ◌<◌, true, [], ◌∷◌, length};
ghost use Rattle.term_build.specs.Calls.{drawn};
ghost use Rattle.term_build.specs.Sketch.{IsSketch};
ghost use Rattle.term_build.specs.declared.sketch.Arm.TheVariants as arm;
ghost use Rattle.value_build.specs.Arithmetic.{is_difference};
ghost use Rattle.value_build.specs.Arms.{AreSomeValues, IsSomeArm, IsSomeValue, Picks, arm_of, hold_choice, is_quotient};
ghost use Rattle.value_build.specs.Bounds.{AddsList};
ghost use Rattle.value_build.specs.Calls.{FoldsIn, LinksOthers, LinksTwo, LinksValues, Yields, bounds_between};
ghost use Rattle.value_build.specs.Operators.{are_arms, are_bool};
ghost use Rattle.value_build.specs.Values.{AreKnown, IsKnown};

use crate::arithmetic::{Step, is_difference};
use crate::bounds::chain_bounds;
use crate::chains::{Spread, others_of};
use crate::lift::{Leaf, compare_arms, lift_one, lift_two};
use crate::maker::Maker;
use crate::operate::{give_up, no_bounds};
use crate::value::Value;
use declared_box::BoundTable;
use poly_graph::Kind;
use script_fault::Place;
use std::alloc::{AllocError, Global};
use term_build::{Arm, Builder, Fault, SketchNode, Stop, choose_arms};

// A Real value as an arm.
fn arm_of(value: Value) -> Arm
    ensures { result ≡ arm_of value }
{
    match value {
        Value::Real(k) => Arm::Tree(k),
        Value::Choice(k) => Arm::Choice(k),
        Value::Bool(_, _) => Arm::Tree(0),
    }
}

// ---- arithmetic

// What the steps make, from the left, of an arm and these values.
fn fold_values(
    builder: &mut Builder,
    sketch: &mut Vec<SketchNode>,
    at: Place,
    step: Step,
    first: Arm,
    rest: &[Value],
) -> Result<Arm, Stop>
    requires known { IsSomeArm builder.old (drawn sketch.old) first }
    requires rest { AreSomeValues builder.old (drawn sketch.old) rest.now }
    requires arms { are_arms rest.now ≡ true }
    requires sketched { IsSketch builder.old (drawn sketch.old) }
    ensures does { FoldsIn builder.old sketch.old builder.new sketch.new
        at step first rest.now result }
    ensures sorts { builder.new.sorts ≡ builder.old.sorts }
{
    let mut so_far = first;
    let mut left = rest;
    while let Some((next, later)) = left.split_first() {
        so_far = lift_two(builder, sketch, at, step, so_far, arm_of(*next))?;
        left = later;
    }
    Ok(so_far)
}

// Whether one of them holds an `ite`.
fn hold_choice(values: &[Value]) -> bool
    ensures { result ≡ hold_choice values.now }
{
    let mut left = values;
    while let Some((value, later)) = left.split_first() {
        if let Value::Choice(_) = value {
            return true;
        }
        left = later;
    }
    false
}

// Whether the step is that of quotients.
fn is_quotient(step: Step) -> bool
    ensures { result ≡ is_quotient step }
{
    matches!(step, Step::Divide)
}

/// What an arithmetic operator makes of a first value and others, one of which is a Real `ite`.
pub(crate) fn calculate_values(
    builder: &mut Builder,
    sketch: &mut Vec<SketchNode>,
    at: Place,
    step: Step,
    first: Value,
    rest: &[Value],
) -> Result<Arm, Stop>
    requires known { IsSomeValue builder.old (drawn sketch.old) first }
    requires rest { AreSomeValues builder.old (drawn sketch.old) rest.now }
    requires arms { are_arms (first ∷ rest.now) ≡ true }
    requires held { hold_choice (first ∷ rest.now) ≡ true }
    requires sketched { IsSketch builder.old (drawn sketch.old) }
    ensures does { Yields builder.old sketch.old builder.new sketch.new
        at step first rest.now result }
    ensures sorts { builder.new.sorts ≡ builder.old.sorts }
{
    if is_difference(step) && rest.is_empty() {
        return lift_one(builder, sketch, at, Leaf::Opposite, 0, arm_of(first));
    }
    if is_quotient(step) && hold_choice(rest) {
        return Err(Stop::Fault(at, Fault::DivisorNotConstant));
    }
    fold_values(builder, sketch, at, step, arm_of(first), rest)
}

// ---- comparisons

/// How values are compared: the place of the operator, the kind of comparison, and which two values belong together.
#[derive(Clone, Copy)]
pub(crate) struct Comparing {
    pub(crate) at: Place,
    pub(crate) kind: Kind,
    pub(crate) spread: Spread,
}

// The bounds of a comparison of two arms, as a list of its own: of trees alone there are any.
fn pair_bounds(
    alloc: Global,
    builder: &Builder,
    bounds: &mut BoundTable,
    kind: Kind,
    first: Arm,
    second: Arm,
) -> Result<u32, AllocError>
    requires first { (k : ℕ) → first ≡ arm.Tree k → k < length builder.now.nodes }
    requires second { (k : ℕ) → second ≡ arm.Tree k → k < length builder.now.nodes }
    ensures { AddsList bounds.old bounds.new (bounds_between builder.now kind first second) result }
{
    match (first, second) {
        (Arm::Tree(i), Arm::Tree(j)) => chain_bounds(alloc, builder, bounds, &[i, j], kind),
        _ => no_bounds(alloc, bounds),
    }
}

// What two values that belong together say: that they compare so, or that they differ.
fn link(
    alloc: Global,
    maker: &mut Maker,
    comparing: Comparing,
    first: Value,
    second: Value,
) -> Result<Value, Stop>
    requires first { IsKnown maker.old first }
    requires second { IsKnown maker.old second }
    requires arms { are_arms (first ∷ second ∷ []) ≡ true }
    ensures does { LinksTwo maker.old maker.new comparing first second result }
    ensures sorts { maker.new.made.sorts ≡ maker.old.made.sorts }
{
    let kind = comparing.kind;
    let one = arm_of(first);
    let other = arm_of(second);
    match compare_arms(
        &mut maker.builder,
        &mut maker.sketch,
        comparing.at,
        kind,
        one,
        other,
    ) {
        Ok(pair) => match comparing.spread {
            Spread::Next => {
                let (builder, bounds) = (&maker.builder, &mut maker.bounds);
                let list = pair_bounds(alloc, builder, bounds, kind, one, other)?;
                Ok(Value::Bool(pair, list))
            }
            Spread::Later => {
                let list = no_bounds(alloc, &mut maker.bounds)?;
                Ok(Value::Bool(pair.not(), list))
            }
        },
        Err(stop) => {
            give_up(&mut maker.sketch);
            Err(stop)
        }
    }
}

// The same of a first value and each of others, after what was linked.
fn link_with(
    alloc: Global,
    maker: &mut Maker,
    comparing: Comparing,
    first: Value,
    others: &[Value],
    links: &mut Vec<Value>,
) -> Result<(), Stop>
    requires first { IsKnown maker.old first }
    requires others { AreKnown maker.old others.now }
    requires links { AreKnown maker.old links.old.items }
    requires arms { are_arms (first ∷ others.now) ≡ true }
    ensures does { LinksOthers maker.old maker.new comparing
        first others.now links.old links.new result }
    ensures sorts { maker.new.made.sorts ≡ maker.old.made.sorts }
{
    let mut left = others;
    while let Some((other, later)) = left.split_first() {
        let made = link(alloc, maker, comparing, first, *other)?;
        links.push(made)?;
        left = later;
    }
    Ok(())
}

/// The same of each two values that belong together.
pub(crate) fn link_each(
    alloc: Global,
    maker: &mut Maker,
    comparing: Comparing,
    values: &[Value],
    links: &mut Vec<Value>,
) -> Result<(), Stop>
    requires values { AreKnown maker.old values.now }
    requires links { AreKnown maker.old links.old.items }
    requires arms { are_arms values.now ≡ true }
    ensures does { LinksValues maker.old maker.new comparing
        values.now links.old links.new result }
    ensures sorts { maker.new.made.sorts ≡ maker.old.made.sorts }
{
    let mut left = values;
    while let Some((first, later)) = left.split_first() {
        let others = others_of(comparing.spread, later);
        link_with(alloc, maker, comparing, *first, others, links)?;
        left = later;
    }
    Ok(())
}

// ---- `ite` at Real arms

/// The Real `ite` of a condition and two values.
pub(crate) fn pick(
    sketch: &mut Vec<SketchNode>,
    condition: Value,
    first: Value,
    second: Value,
) -> Result<Value, Stop>
    requires { are_bool (condition ∷ []) ≡ true }
    ensures { Picks (drawn sketch.old) (drawn sketch.new) condition first second result }
{
    let Value::Bool(pair, _) = condition else {
        unreachable!()
    };
    match choose_arms(sketch, pair, arm_of(first), arm_of(second)) {
        Ok(Arm::Choice(k)) => Ok(Value::Choice(k)),
        Ok(Arm::Tree(_)) => unreachable!(),
        Err(_) => Err(Stop::Memory),
    }
}
