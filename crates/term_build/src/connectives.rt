// The connectives of Bool expressions, as nodes at the end of a sketch.
ghost use Rattle.std.specs.Prelude.{◌≡◌, IfOk, map};
ghost use Rattle.poly_graph.specs.Form.{all_form, any_form};
ghost use Rattle.script_forms.specs.Unfolded.{and_of, chain, implies_of, implies_two, or_of, xor_all, xor_from, xor_of};
ghost use Rattle.term_build.specs.Calls.{Compares, Differs, drawn};
ghost use Rattle.term_build.specs.Shapes.{sketch_of};
ghost use Rattle.term_build.specs.Pairs.{Adds, AddsChoice, AddsPair, Connects, ConnectsChoice, ConnectsCrowd, ConnectsFrom, ConnectsTwo, ImpliesFrom, JoinsFour, JoinsTwo, Negates, Writes, WritesBool, constant_formula, same_of};
ghost use Rattle.term_build.specs.declared.connectives.Pair as code_pair;

use crate::sketch::{Arm, SketchNode};
use poly_graph::Kind;
use script_fault::Place;
use std::alloc::{AllocError, Global};

/// So many Bool expressions that differ from a first one make more pairs than a form has room for: 1,449 expressions
/// make 1,049,076 pairs.
pub const LEAST_CROWD: usize = 1448;

/// A Bool expression: the node of its truth in a sketch, and that of its negation.
#[derive(Clone, Copy, Debug, PartialEq, Eq)]
pub struct Pair {
    pub truth: u32,
    pub negation: u32,
}

// A node at the end of the sketch: its number.
fn add(sketch: &mut Vec<SketchNode>, node: SketchNode) -> Result<u32, AllocError>
    ensures { Adds (drawn sketch.old) (drawn sketch.new) (sketch_of node) result }
{
    let Ok(k) = u32::try_from(sketch.len()) else {
        return Err(AllocError);
    };
    sketch.push(node)?;
    Ok(k)
}

/// A Real `ite` of these arms, at the end of the sketch.
pub fn choose_arms(
    sketch: &mut Vec<SketchNode>,
    condition: Pair,
    first: Arm,
    second: Arm,
) -> Result<Arm, AllocError>
    ensures { AddsChoice (drawn sketch.old) (drawn sketch.new) condition first second result }
{
    let k = add(sketch, SketchNode::Choice(condition, first, second))?;
    Ok(Arm::Choice(k))
}

// Two nodes at the end of the sketch: that of a truth, and that of its negation.
fn add_pair(
    sketch: &mut Vec<SketchNode>,
    yes: SketchNode,
    no: SketchNode,
) -> Result<Pair, AllocError>
    ensures { AddsPair (drawn sketch.old) (drawn sketch.new) (sketch_of yes) (sketch_of no) result }
{
    let truth = add(sketch, yes)?;
    let negation = add(sketch, no)?;
    Ok(Pair { truth, negation })
}

// That both nodes hold.
fn both(alloc: Global, sketch: &mut Vec<SketchNode>, a: u32, b: u32) -> Result<u32, AllocError>
    ensures { JoinsTwo all_form (drawn sketch.old) (drawn sketch.new) a b result }
{
    let children = vec![in alloc; a, b]?;
    add(sketch, SketchNode::And(children))
}

// That one of two nodes holds.
fn either(alloc: Global, sketch: &mut Vec<SketchNode>, a: u32, b: u32) -> Result<u32, AllocError>
    ensures { JoinsTwo any_form (drawn sketch.old) (drawn sketch.new) a b result }
{
    let children = vec![in alloc; a, b]?;
    add(sketch, SketchNode::Or(children))
}

// That both of two nodes hold, or both of two others.
fn four(
    alloc: Global,
    sketch: &mut Vec<SketchNode>,
    a: (u32, u32),
    b: (u32, u32),
) -> Result<u32, AllocError>
    ensures { JoinsFour (drawn sketch.old) (drawn sketch.new) a.0 a.1 b.0 b.1 result }
{
    let first = both(alloc, sketch, a.0, a.1)?;
    let second = both(alloc, sketch, b.0, b.1)?;
    either(alloc, sketch, first, second)
}

// The nodes of the truth of these.
fn truths(alloc: Global, pairs: &[Pair]) -> Result<Vec<u32>, AllocError>
    ensures { IfOk result (λ ks. ks.items ≡ map (λ (p : code_pair.Pair). p.truth) pairs.now) }
{
    pairs.iter().map(|pair| pair.truth).collect(alloc)
}

// The nodes of the negations of these.
fn negations(alloc: Global, pairs: &[Pair]) -> Result<Vec<u32>, AllocError>
    ensures { IfOk result (λ ks. ks.items ≡ map (λ (p : code_pair.Pair). p.negation) pairs.now) }
{
    pairs.iter().map(|pair| pair.negation).collect(alloc)
}

impl Pair {
    /// The negation: the other way round.
    pub fn not(self) -> Pair
        ensures value { result ≡ record { truth = self.negation; negation = self.truth } }
        ensures negates { Negates self result }
    {
        Pair {
            truth: self.negation,
            negation: self.truth,
        }
    }

    /// That all of these hold.
    pub fn all(
        alloc: Global,
        sketch: &mut Vec<SketchNode>,
        pairs: &[Pair],
    ) -> Result<Pair, AllocError>
        ensures { Connects and_of (drawn sketch.old) (drawn sketch.new) pairs.now result }
    {
        let truths = truths(alloc, pairs)?;
        let negations = negations(alloc, pairs)?;
        add_pair(sketch, SketchNode::And(truths), SketchNode::Or(negations))
    }

    /// That one of these holds.
    pub fn any(
        alloc: Global,
        sketch: &mut Vec<SketchNode>,
        pairs: &[Pair],
    ) -> Result<Pair, AllocError>
        ensures { Connects or_of (drawn sketch.old) (drawn sketch.new) pairs.now result }
    {
        let truths = truths(alloc, pairs)?;
        let negations = negations(alloc, pairs)?;
        add_pair(sketch, SketchNode::Or(truths), SketchNode::And(negations))
    }

    /// The constant.
    pub fn constant(sketch: &mut Vec<SketchNode>, value: bool) -> Result<Pair, AllocError>
        ensures { Writes (constant_formula value) (drawn sketch.old) (drawn sketch.new) result }
    {
        if value {
            add_pair(sketch, SketchNode::True, SketchNode::False)
        } else {
            add_pair(sketch, SketchNode::False, SketchNode::True)
        }
    }

    /// The value of a Bool constant, whose axis this is.
    pub fn bool_is(sketch: &mut Vec<SketchNode>, axis: u32) -> Result<Pair, AllocError>
        ensures { WritesBool axis (drawn sketch.old) (drawn sketch.new) result }
    {
        add_pair(
            sketch,
            SketchNode::BoolIs(axis, true),
            SketchNode::BoolIs(axis, false),
        )
    }

    /// The comparison of the trees of two nodes, of an expression at this place. That they differ says nothing.
    pub fn compare_two(
        sketch: &mut Vec<SketchNode>,
        at: Place,
        left: u32,
        right: u32,
        kind: Kind,
    ) -> Result<Pair, AllocError>
        ensures { Compares kind at (drawn sketch.old) (drawn sketch.new) left right result }
    {
        match kind {
            Kind::Le => add_pair(
                sketch,
                SketchNode::Compare(at, left, right, Kind::Le),
                SketchNode::Compare(at, left, right, Kind::Ge),
            ),
            Kind::Ge => add_pair(
                sketch,
                SketchNode::Compare(at, left, right, Kind::Ge),
                SketchNode::Compare(at, left, right, Kind::Le),
            ),
            Kind::Eq => add_pair(
                sketch,
                SketchNode::Compare(at, left, right, Kind::Eq),
                SketchNode::True,
            ),
        }
    }

    /// That the second holds where the first does.
    pub fn implies_two(
        alloc: Global,
        sketch: &mut Vec<SketchNode>,
        first: Pair,
        second: Pair,
    ) -> Result<Pair, AllocError>
        ensures { ConnectsTwo implies_two (drawn sketch.old) (drawn sketch.new)
            first second result }
    {
        let yes = vec![in alloc; first.negation, second.truth]?;
        let no = vec![in alloc; first.truth, second.negation]?;
        add_pair(sketch, SketchNode::Or(yes), SketchNode::And(no))
    }

    /// The second where the first holds, else the third.
    pub fn choose(
        alloc: Global,
        sketch: &mut Vec<SketchNode>,
        condition: Pair,
        first: Pair,
        second: Pair,
    ) -> Result<Pair, AllocError>
        ensures { ConnectsChoice (drawn sketch.old) (drawn sketch.new)
            condition first second result }
    {
        let truth = four(
            alloc,
            sketch,
            (condition.truth, first.truth),
            (condition.negation, second.truth),
        )?;
        let negation = four(
            alloc,
            sketch,
            (condition.truth, first.negation),
            (condition.negation, second.negation),
        )?;
        Ok(Pair { truth, negation })
    }

    /// That one of two holds, and not the other.
    pub fn exclusive_two(
        alloc: Global,
        sketch: &mut Vec<SketchNode>,
        first: Pair,
        second: Pair,
    ) -> Result<Pair, AllocError>
        ensures { ConnectsTwo xor_of (drawn sketch.old) (drawn sketch.new) first second result }
    {
        Pair::choose(alloc, sketch, first, second.not(), second)
    }

    /// That each link of a chain holds; one alone is its own.
    pub fn chain(
        alloc: Global,
        sketch: &mut Vec<SketchNode>,
        pairs: &[Pair],
    ) -> Result<Pair, AllocError>
        ensures { Connects chain (drawn sketch.old) (drawn sketch.new) pairs.now result }
    {
        if pairs.len() == 1 {
            return Ok(pairs[0]);
        }
        Pair::all(alloc, sketch, pairs)
    }

    /// That two Bool expressions are equal.
    pub fn same_two(
        alloc: Global,
        sketch: &mut Vec<SketchNode>,
        first: Pair,
        second: Pair,
    ) -> Result<Pair, AllocError>
        ensures { ConnectsTwo same_of (drawn sketch.old) (drawn sketch.new) first second result }
    {
        let apart = Pair::exclusive_two(alloc, sketch, first, second)?;
        Ok(apart.not())
    }

    /// That the trees of these nodes differ, each from every other, of an expression at this place: this says nothing,
    /// and its negation that two of them are equal.
    pub fn different(
        alloc: Global,
        sketch: &mut Vec<SketchNode>,
        at: Place,
        nodes: &[u32],
    ) -> Result<Pair, AllocError>
        ensures { Differs at (drawn sketch.old) (drawn sketch.new) nodes.now result }
    {
        let nodes = Vec::from_slice(alloc, nodes)?;
        add_pair(sketch, SketchNode::True, SketchNode::SomeEqual(at, nodes))
    }

    /// That many Bool expressions differ, each from every other, where these are the pairs for that the first one
    /// differs from each later one. No form has room for it: it stops a builder where it is asked for.
    pub fn crowd(
        alloc: Global,
        sketch: &mut Vec<SketchNode>,
        links: &[Pair],
    ) -> Result<Pair, AllocError>
        ensures { ConnectsCrowd (drawn sketch.old) (drawn sketch.new) links.now result }
    {
        let truths = truths(alloc, links)?;
        let negations = negations(alloc, links)?;
        add_pair(
            sketch,
            SketchNode::Crowd(true, truths),
            SketchNode::Crowd(false, negations),
        )
    }

    /// That each implies what comes after it, taken from the right.
    pub fn implies(
        alloc: Global,
        sketch: &mut Vec<SketchNode>,
        pairs: &[Pair],
    ) -> Result<Pair, AllocError>
        ensures { Connects implies_of (drawn sketch.old) (drawn sketch.new) pairs.now result }
    {
        let Some((last, before)) = pairs.split_last() else {
            return Pair::constant(sketch, true);
        };
        implies_from(alloc, sketch, before, *last)
    }

    /// That an odd number of these hold, taken from the left.
    pub fn exclusive(
        alloc: Global,
        sketch: &mut Vec<SketchNode>,
        pairs: &[Pair],
    ) -> Result<Pair, AllocError>
        ensures { Connects xor_all (drawn sketch.old) (drawn sketch.new) pairs.now result }
    {
        let Some((first, rest)) = pairs.split_first() else {
            return Pair::constant(sketch, true);
        };
        exclusive_from(alloc, sketch, *first, rest)
    }
}

// That an odd number of a first pair and these hold.
fn exclusive_from(
    alloc: Global,
    sketch: &mut Vec<SketchNode>,
    first: Pair,
    rest: &[Pair],
) -> Result<Pair, AllocError>
    ensures { ConnectsFrom xor_from (drawn sketch.old) (drawn sketch.new) first rest.now result }
{
    let mut so_far = first;
    for pair in rest {
        so_far = Pair::exclusive_two(alloc, sketch, so_far, *pair)?;
    }
    Ok(so_far)
}

// That each but the last implies what comes after it, taken from the right.
fn implies_from(
    alloc: Global,
    sketch: &mut Vec<SketchNode>,
    before: &[Pair],
    last: Pair,
) -> Result<Pair, AllocError>
    ensures { ImpliesFrom (drawn sketch.old) (drawn sketch.new) last before.now result }
{
    let mut so_far = last;
    for i in 0..before.len() {
        let pair = before[before.len() - 1 - i];
        so_far = Pair::implies_two(alloc, sketch, pair, so_far)?;
    }
    Ok(so_far)
}
