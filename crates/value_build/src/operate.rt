// Operators at values.
ghost use Rattle.std.specs.Prelude.{◌≡◌, ℕ, ◌<◌, ◌≤◌, true, false, [], length, map, IfOk};
ghost use Rattle.std.specs.List.{All};
ghost use Rattle.script_forms.specs.Unfolded.{choice_form, not_first};
ghost use Rattle.smt_sexp.specs.Views.{place_of};
ghost use Rattle.sort_check.specs.Views.{operator_of};
ghost use Rattle.term_build.specs.Calls.{drawn};
ghost use Rattle.term_build.specs.Pairs.{Connects, ConnectsFrom};
ghost use Rattle.term_build.specs.Sketch.{least_crowd};
ghost use Rattle.value_build.specs.Arithmetic.{AreNodes};
ghost use Rattle.value_build.specs.Arms.{Joins, PicksOf, only_of};
ghost use Rattle.value_build.specs.Bounds.{AddsList};
ghost use Rattle.value_build.specs.Calls.{Chains, ComparesValues, Differ, OverArms, PairsDo, TreesDo, TreesMake, ValuesMake, bounds_given, operation_of, takes_arms};
ghost use Rattle.value_build.specs.Operators.{ArePairs, are_arms, are_bool, are_picked, are_real, bool_distinctness, bool_equality, distinct_from, list_number, node_number, pair_number, takes_of};
ghost use Rattle.value_build.specs.RealWork.{real_work};
ghost use Rattle.value_build.specs.Values.{AreKnown, Operates};

use crate::arithmetic::{Step, calculate};
use crate::arms::{Comparing, calculate_values, link_each, pick};
use crate::bounds::chain_bounds;
use crate::chains::{Spread, compare_each, connect_each, connect_with};
use crate::maker::Maker;
use crate::value::Value;
use declared_box::BoundTable;
use poly_graph::Kind;
use script_fault::Place;
use sort_check::Operator;
use std::alloc::{AllocError, Global};
use term_build::{Arm, Fault, LEAST_CROWD, Pair, SketchNode, Stop};

/// The sketch is given up, as where the builder stopped.
pub(crate) fn give_up(sketch: &mut Vec<SketchNode>)
    ensures { drawn sketch.new ≡ [] }
{
    sketch.clear();
}

/// A list without bounds.
pub(crate) fn no_bounds(alloc: Global, bounds: &mut BoundTable) -> Result<u32, AllocError>
    ensures { AddsList bounds.old bounds.new [] result }
{
    bounds.all(Vec::new(alloc))
}

// ---- values of one sort

// Whether all are trees.
fn are_real(values: &[Value]) -> bool
    ensures { result ≡ are_real values.now }
{
    let mut left = values;
    while let Some((value, later)) = left.split_first() {
        if let Value::Bool(_, _) | Value::Choice(_) = value {
            return false;
        }
        left = later;
    }
    true
}

// Whether all are trees and Real `ite`s.
fn are_arms(values: &[Value]) -> bool
    ensures { result ≡ are_arms values.now }
{
    let mut left = values;
    while let Some((value, later)) = left.split_first() {
        if let Value::Bool(_, _) = value {
            return false;
        }
        left = later;
    }
    true
}

// Whether they are the arguments of a Real `ite`.
fn are_picked(values: &[Value]) -> bool
    ensures { result ≡ are_picked values.now }
{
    match values {
        [Value::Bool(_, _), arms @ ..] => are_arms(arms) && arms.len() == 2,
        _ => false,
    }
}

// Whether all are Bool.
fn are_bool(values: &[Value]) -> bool
    ensures { result ≡ are_bool values.now }
{
    let mut left = values;
    while let Some((value, later)) = left.split_first() {
        if let Value::Real(_) | Value::Choice(_) = value {
            return false;
        }
        left = later;
    }
    true
}

// The node of a Real value.
fn node_number(value: Value) -> u32
    ensures { result ≡ node_number value }
{
    match value {
        Value::Real(k) => k,
        Value::Bool(_, _) | Value::Choice(_) => 0,
    }
}

// The nodes of a Bool value.
fn pair_number(value: Value) -> Pair
    ensures { result ≡ pair_number value }
{
    match value {
        Value::Real(_) | Value::Choice(_) => Pair {
            truth: 0,
            negation: 0,
        },
        Value::Bool(pair, _) => pair,
    }
}

// The list of a Bool value.
fn list_number(value: Value) -> u32
    ensures { result ≡ list_number value }
{
    match value {
        Value::Real(_) | Value::Choice(_) => 0,
        Value::Bool(_, list) => list,
    }
}

// The nodes of Real values.
fn node_numbers(alloc: Global, values: &[Value]) -> Result<Vec<u32>, AllocError>
    ensures { IfOk result (λ ks. ks.items ≡ map node_number values.now) }
{
    let mut made = Vec::new(alloc);
    let mut left = values;
    while let Some((value, later)) = left.split_first() {
        made.push(node_number(*value))?;
        left = later;
    }
    Ok(made)
}

// The pairs of Bool values.
fn pair_numbers(alloc: Global, values: &[Value]) -> Result<Vec<Pair>, AllocError>
    ensures { IfOk result (λ ps. ps.items ≡ map pair_number values.now) }
{
    let mut made = Vec::new(alloc);
    let mut left = values;
    while let Some((value, later)) = left.split_first() {
        made.push(pair_number(*value))?;
        left = later;
    }
    Ok(made)
}

// The lists of Bool values.
fn list_numbers(alloc: Global, values: &[Value]) -> Result<Vec<u32>, AllocError>
    ensures { IfOk result (λ ks. ks.items ≡ map list_number values.now) }
{
    let mut made = Vec::new(alloc);
    let mut left = values;
    while let Some((value, later)) = left.split_first() {
        made.push(list_number(*value))?;
        left = later;
    }
    Ok(made)
}

// Whether the operator takes so many arguments, all of which are Real or Bool, or are those of a Real `ite`.
fn takes(operator: Operator, reals: bool, bools: bool, picked: bool, count: usize) -> bool
    ensures { result ≡ takes_of (operator_of operator) reals bools picked count }
{
    match operator {
        Operator::True | Operator::False => count == 0,
        Operator::Not => bools && count == 1,
        Operator::And | Operator::Or => bools && 1 <= count,
        Operator::Implies | Operator::Xor => bools && 2 <= count,
        Operator::Equal | Operator::Distinct => (bools || reals) && 2 <= count,
        Operator::Choice => (bools && count == 3) || picked,
        Operator::Minus | Operator::Plus | Operator::Times => reals && 1 <= count,
        Operator::Divide
        | Operator::AtMost
        | Operator::Below
        | Operator::AtLeast
        | Operator::Above => reals && 2 <= count,
    }
}

// ---- Real arguments

// A sum, a difference, a product or a quotient.
fn arithmetic(
    alloc: Global,
    maker: &mut Maker,
    at: Place,
    step: Step,
    nodes: &[u32],
) -> Result<Value, Stop>
    requires some { 0 < length nodes.now }
    requires nodes { AreNodes maker.old.made nodes.now }
    ensures does { TreesMake maker.old maker.new at step nodes.now result }
    ensures sorts { maker.new.made.sorts ≡ maker.old.made.sorts }
{
    match calculate(alloc, &mut maker.builder, at, step, nodes) {
        Ok(node) => Ok(Value::Real(node)),
        Err(stop) => {
            give_up(&mut maker.sketch);
            Err(stop)
        }
    }
}

// A chain of comparisons.
fn compare(
    alloc: Global,
    maker: &mut Maker,
    at: Place,
    nodes: &[u32],
    kind: Kind,
) -> Result<Value, Stop>
    requires { AreNodes maker.old.made nodes.now }
    ensures does { Chains maker.old maker.new kind at nodes.now result }
    ensures sorts { maker.new.made.sorts ≡ maker.old.made.sorts }
{
    let links = compare_each(alloc, &mut maker.sketch, at, nodes, kind, Spread::Next)?;
    let pair = Pair::chain(alloc, &mut maker.sketch, &links)?;
    let list = chain_bounds(alloc, &maker.builder, &mut maker.bounds, nodes, kind)?;
    Ok(Value::Bool(pair, list))
}

// That trees differ, each from every other.
fn differ(alloc: Global, maker: &mut Maker, at: Place, nodes: &[u32]) -> Result<Value, Stop>
    requires { AreNodes maker.old.made nodes.now }
    ensures does { Differ maker.old maker.new at nodes.now result }
    ensures sorts { maker.new.made.sorts ≡ maker.old.made.sorts }
{
    let pair = Pair::different(alloc, &mut maker.sketch, at, nodes)?;
    let list = no_bounds(alloc, &mut maker.bounds)?;
    Ok(Value::Bool(pair, list))
}

// An operator at Real arguments.
fn on_reals(
    alloc: Global,
    maker: &mut Maker,
    at: Place,
    operator: Operator,
    nodes: &[u32],
) -> Result<Value, Stop>
    requires some { 0 < length nodes.now }
    requires takes { takes_of (operator_of operator) true false false (length nodes.now) ≡ true }
    requires nodes { AreNodes maker.old.made nodes.now }
    ensures does { TreesDo maker.old maker.new at operator nodes.now result }
    ensures sorts { maker.new.made.sorts ≡ maker.old.made.sorts }
{
    match operator {
        Operator::Minus => arithmetic(alloc, maker, at, Step::Subtract, nodes),
        Operator::Plus => arithmetic(alloc, maker, at, Step::Add, nodes),
        Operator::Times => arithmetic(alloc, maker, at, Step::Multiply, nodes),
        Operator::Divide => arithmetic(alloc, maker, at, Step::Divide, nodes),
        Operator::AtMost => compare(alloc, maker, at, nodes, Kind::Le),
        Operator::Below => compare(alloc, maker, at, nodes, Kind::Le),
        Operator::AtLeast => compare(alloc, maker, at, nodes, Kind::Ge),
        Operator::Above => compare(alloc, maker, at, nodes, Kind::Ge),
        Operator::Equal => compare(alloc, maker, at, nodes, Kind::Eq),
        Operator::Distinct => differ(alloc, maker, at, nodes),
        _ => unreachable!(),
    }
}

// ---- Bool arguments

// That Bool expressions are equal, each to the next.
fn equal(alloc: Global, sketch: &mut Vec<SketchNode>, pairs: &[Pair]) -> Result<Pair, AllocError>
    ensures { Connects bool_equality (drawn sketch.old) (drawn sketch.new) pairs.now result }
{
    let links = connect_each(alloc, sketch, Spread::Next, pairs)?;
    Pair::chain(alloc, sketch, &links)
}

// That Bool expressions differ, each from every other, each two of which have nodes of their own.
fn few_distinct(
    alloc: Global,
    sketch: &mut Vec<SketchNode>,
    pairs: &[Pair],
) -> Result<Pair, AllocError>
    ensures { Connects bool_distinctness (drawn sketch.old) (drawn sketch.new) pairs.now result }
{
    let links = connect_each(alloc, sketch, Spread::Later, pairs)?;
    Pair::all(alloc, sketch, &links)
}

// The same of a first expression and so many later ones that no form has room for it: no more nodes than these have.
fn many_distinct(
    alloc: Global,
    sketch: &mut Vec<SketchNode>,
    first: Pair,
    later: &[Pair],
) -> Result<Pair, AllocError>
    requires { least_crowd ≤ length later.now }
    ensures { ConnectsFrom distinct_from (drawn sketch.old) (drawn sketch.new)
        first later.now result }
{
    let mut links = Vec::new(alloc);
    connect_with(alloc, sketch, Spread::Later, first, later, &mut links)?;
    Pair::crowd(alloc, sketch, &links)
}

// That Bool expressions differ, each from every other.
fn distinct(alloc: Global, sketch: &mut Vec<SketchNode>, pairs: &[Pair]) -> Result<Pair, AllocError>
    ensures { Connects bool_distinctness (drawn sketch.old) (drawn sketch.new) pairs.now result }
{
    let Some((first, later)) = pairs.split_first() else {
        return few_distinct(alloc, sketch, pairs);
    };
    if later.len() < LEAST_CROWD {
        return few_distinct(alloc, sketch, pairs);
    }
    many_distinct(alloc, sketch, *first, later)
}

// The negation of the first.
fn negation(sketch: &mut Vec<SketchNode>, pairs: &[Pair]) -> Result<Pair, AllocError>
    requires { 0 < length pairs.now }
    ensures { Connects not_first (drawn sketch.old) (drawn sketch.new) pairs.now result }
{
    let Some((first, _)) = pairs.split_first() else {
        unreachable!()
    };
    Ok(first.not())
}

// The second where the first holds, else the third.
fn choice(alloc: Global, sketch: &mut Vec<SketchNode>, pairs: &[Pair]) -> Result<Pair, AllocError>
    requires { length pairs.now ≡ 3 }
    ensures { Connects choice_form (drawn sketch.old) (drawn sketch.new) pairs.now result }
{
    let Some((condition, arms)) = pairs.split_first() else {
        unreachable!()
    };
    let Some((first, rest)) = arms.split_first() else {
        unreachable!()
    };
    let Some((second, _)) = rest.split_first() else {
        unreachable!()
    };
    Pair::choose(alloc, sketch, *condition, *first, *second)
}

// The form of an operator at Bool arguments.
fn connect(
    alloc: Global,
    sketch: &mut Vec<SketchNode>,
    operator: Operator,
    pairs: &[Pair],
) -> Result<Pair, AllocError>
    requires { takes_of (operator_of operator) false true false (length pairs.now) ≡ true }
    ensures { Connects (operation_of operator) (drawn sketch.old) (drawn sketch.new)
        pairs.now result }
{
    match operator {
        Operator::True => Pair::constant(sketch, true),
        Operator::False => Pair::constant(sketch, false),
        Operator::Not => negation(sketch, pairs),
        Operator::And => Pair::all(alloc, sketch, pairs),
        Operator::Or => Pair::any(alloc, sketch, pairs),
        Operator::Implies => Pair::implies(alloc, sketch, pairs),
        Operator::Xor => Pair::exclusive(alloc, sketch, pairs),
        Operator::Equal => equal(alloc, sketch, pairs),
        Operator::Distinct => distinct(alloc, sketch, pairs),
        Operator::Choice => choice(alloc, sketch, pairs),
        _ => unreachable!(),
    }
}

// The bounds of an operator at Bool arguments, whose lists have these numbers.
fn connect_bounds(
    alloc: Global,
    bounds: &mut BoundTable,
    operator: Operator,
    lists: Vec<u32>,
) -> Result<u32, AllocError>
    requires { All (λ (k : ℕ). k < length bounds.old) lists.items }
    ensures { AddsList bounds.old bounds.new (bounds_given operator bounds.old lists) result }
{
    match operator {
        Operator::And => bounds.all(lists),
        _ => no_bounds(alloc, bounds),
    }
}

// An operator at Bool arguments.
fn on_bools(
    alloc: Global,
    maker: &mut Maker,
    operator: Operator,
    pairs: &[Pair],
    lists: Vec<u32>,
) -> Result<Value, Stop>
    requires takes { takes_of (operator_of operator) false true false (length pairs.now) ≡ true }
    requires lists { All (λ (k : ℕ). k < length maker.old.bounds) lists.items }
    requires drawn { ArePairs maker.old.made maker.old.drawn pairs.now }
    ensures does { PairsDo maker.old maker.new operator pairs.now lists result }
    ensures sorts { maker.new.made.sorts ≡ maker.old.made.sorts }
{
    let pair = connect(alloc, &mut maker.sketch, operator, pairs)?;
    let list = connect_bounds(alloc, &mut maker.bounds, operator, lists)?;
    Ok(Value::Bool(pair, list))
}

// ---- Real arguments that hold an `ite`

// The only link of a chain.
fn only_of(spread: Spread, links: &[Value]) -> Option<Value>
    ensures { result ≡ only_of spread links.now }
{
    match (spread, links) {
        (Spread::Next, [only]) => Some(*only),
        _ => None,
    }
}

// What several links say together: all of them, or the only one of a chain.
fn join_links(
    alloc: Global,
    maker: &mut Maker,
    spread: Spread,
    links: &[Value],
) -> Result<Value, Stop>
    requires some { 0 < length links.now }
    requires bools { are_bool links.now ≡ true }
    requires known { AreKnown maker.old links.now }
    ensures does { Joins maker.old maker.new spread links.now result }
    ensures sorts { maker.new.made.sorts ≡ maker.old.made.sorts }
{
    if let Some(value) = only_of(spread, links) {
        return Ok(value);
    }
    let pairs = pair_numbers(alloc, links)?;
    let lists = list_numbers(alloc, links)?;
    on_bools(alloc, maker, Operator::And, &pairs, lists)
}

// Comparisons of each two values that belong together.
fn compare_values(
    alloc: Global,
    maker: &mut Maker,
    comparing: Comparing,
    values: &[Value],
) -> Result<Value, Stop>
    requires several { 1 < length values.now }
    requires values { AreKnown maker.old values.now }
    requires arms { are_arms values.now ≡ true }
    ensures does { ComparesValues maker.old maker.new comparing values.now result }
    ensures sorts { maker.new.made.sorts ≡ maker.old.made.sorts }
{
    let mut links = Vec::new(alloc);
    link_each(alloc, maker, comparing, values, &mut links)?;
    join_links(alloc, maker, comparing.spread, links.as_slice())
}

// A sum, a difference, a product or a quotient.
fn calculate_arms(maker: &mut Maker, at: Place, step: Step, values: &[Value]) -> Result<Value, Stop>
    requires values { AreKnown maker.old values.now }
    requires arms { are_arms values.now ≡ true }
    requires held { are_real values.now ≡ false }
    ensures does { ValuesMake maker.old maker.new at step values.now result }
    ensures sorts { maker.new.made.sorts ≡ maker.old.made.sorts }
{
    let Some((first, rest)) = values.split_first() else {
        unreachable!()
    };
    match calculate_values(
        &mut maker.builder,
        &mut maker.sketch,
        at,
        step,
        *first,
        rest,
    ) {
        Ok(Arm::Choice(k)) => Ok(Value::Choice(k)),
        Ok(Arm::Tree(_)) => unreachable!(),
        Err(stop) => {
            give_up(&mut maker.sketch);
            Err(stop)
        }
    }
}

// `ite` at Real arms.
fn pick_arm(sketch: &mut Vec<SketchNode>, values: &[Value]) -> Result<Value, Stop>
    requires { are_picked values.now ≡ true }
    ensures { PicksOf (drawn sketch.old) (drawn sketch.new) values.now result }
{
    let [condition, first, second] = values else {
        unreachable!()
    };
    match pick(sketch, *condition, *first, *second) {
        Ok(value) => Ok(value),
        Err(_) => {
            give_up(sketch);
            Err(Stop::Memory)
        }
    }
}

// What an operator does with Real arguments.
#[derive(Clone, Copy)]
enum RealWork {
    /// A step of arithmetic after the other.
    Calculate(Step),
    /// Comparisons of each two arguments that belong together.
    Compare(Kind, Spread),
}

// What an operator does with Real arguments; none where it takes no such arguments alone.
fn real_work(operator: Operator) -> Option<RealWork>
    ensures { result ≡ real_work operator }
{
    match operator {
        Operator::Minus => Some(RealWork::Calculate(Step::Subtract)),
        Operator::Plus => Some(RealWork::Calculate(Step::Add)),
        Operator::Times => Some(RealWork::Calculate(Step::Multiply)),
        Operator::Divide => Some(RealWork::Calculate(Step::Divide)),
        Operator::AtMost | Operator::Below => Some(RealWork::Compare(Kind::Le, Spread::Next)),
        Operator::AtLeast | Operator::Above => Some(RealWork::Compare(Kind::Ge, Spread::Next)),
        Operator::Equal => Some(RealWork::Compare(Kind::Eq, Spread::Next)),
        Operator::Distinct => Some(RealWork::Compare(Kind::Eq, Spread::Later)),
        _ => None,
    }
}

// An operator at Real arguments that hold an `ite`.
fn over_arms(
    alloc: Global,
    maker: &mut Maker,
    at: Place,
    operator: Operator,
    values: &[Value],
) -> Result<Value, Stop>
    requires known { AreKnown maker.old values.now }
    requires arms { are_arms values.now ≡ true }
    requires held { are_real values.now ≡ false }
    requires takes { takes_of (operator_of operator) true false false (length values.now) ≡ true }
    ensures does { OverArms maker.old maker.new at operator values.now result }
    ensures sorts { maker.new.made.sorts ≡ maker.old.made.sorts }
{
    match real_work(operator) {
        Some(RealWork::Calculate(step)) => calculate_arms(maker, at, step, values),
        Some(RealWork::Compare(kind, spread)) => {
            compare_values(alloc, maker, Comparing { at, kind, spread }, values)
        }
        None => unreachable!(),
    }
}

// An operator at Real arguments that hold an `ite`, or `ite` at Real arms.
fn on_arms(
    alloc: Global,
    maker: &mut Maker,
    at: Place,
    operator: Operator,
    values: &[Value],
) -> Result<Value, Stop>
    requires known { AreKnown maker.old values.now }
    requires held { are_real values.now ≡ false }
    requires apart { are_bool values.now ≡ false }
    requires takes { takes_arms operator values.now ≡ true }
    ensures does { OverArms maker.old maker.new at operator values.now result }
    ensures sorts { maker.new.made.sorts ≡ maker.old.made.sorts }
{
    if let Operator::Choice = operator {
        return pick_arm(&mut maker.sketch, values);
    }
    over_arms(alloc, maker, at, operator, values)
}

/// An operator at values.
pub(crate) fn operate(
    alloc: Global,
    maker: &mut Maker,
    at: Place,
    operator: Operator,
    values: &[Value],
) -> Result<Value, Stop>
    requires { AreKnown maker.old values.now }
    ensures does { Operates maker.old maker.new
        (place_of at) (operator_of operator) values.now result }
    ensures sorts { maker.new.made.sorts ≡ maker.old.made.sorts }
{
    let bools = are_bool(values);
    let picked = are_picked(values);
    if !takes(operator, are_arms(values), bools, picked, values.len()) {
        return Err(Stop::Fault(at, Fault::IllFormed));
    }
    if bools {
        let pairs = pair_numbers(alloc, values)?;
        let lists = list_numbers(alloc, values)?;
        return on_bools(alloc, maker, operator, &pairs, lists);
    }
    if are_real(values) {
        let nodes = node_numbers(alloc, values)?;
        return on_reals(alloc, maker, at, operator, &nodes);
    }
    on_arms(alloc, maker, at, operator, values)
}
