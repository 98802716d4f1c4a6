// What is done with Real values that hold an `ite`: it is done with each arm, over the sketch. Arms may stand in one
// another to any depth: what waits stands on the heap.
ghost use Rattle.std.specs.Prelude.{◌≡◌, ◌<◌, ◌∷◌, Some, IfOk, OnOk, length, map, slice_get};
ghost use Rattle.poly_graph.specs.Views.{kind_of};
ghost use Rattle.smt_sexp.specs.Views.{place_of};
ghost use Rattle.script_forms.specs.Work.{reached};
ghost use Rattle.term_build.specs.Calls.{DoesEvent, drawn};
ghost use Rattle.term_build.specs.Shapes.{sketch_of};
ghost use Rattle.term_build.specs.Sketch.{IsSketch, as_choice};
ghost use Rattle.term_build.specs.declared.sketch.Arm.TheVariants as arm;
ghost use Rattle.value_build.specs.Arms.{IsSomeArm};
ghost use Rattle.value_build.specs.Calls.{ComputesLeaf, LiftsArm, LiftsArms, SaysArms};
ghost use Rattle.value_build.specs.Meetings.{AreSomeMet, CanGatherArms, CanGatherPairs, CanJoinArms, CanJoinPairs, GathersArms, GathersPairs, JoinsArms, JoinsPairs, Looks, Spreads, turns_left};

use crate::arithmetic::{Step, apply};
use poly_graph::Kind;
use script_fault::Place;
use std::alloc::{AllocError, Global};
use std::collections::VecDeque;
use term_build::{Arm, Builder, Pair, SketchNode, Stop, choice_at, choose_arms};

/// What is done with a tree, where a first one is given: its opposite, or a step of both.
#[derive(Clone, Copy, Debug, PartialEq, Eq)]
pub(crate) enum Leaf {
    Opposite,
    Of(Step),
}

/// Two arms, of which each tree of the first meets each of the second.
#[derive(Clone, Copy, Debug)]
pub(crate) struct Meeting {
    pub(crate) first: Arm,
    pub(crate) second: Arm,
}

/// What is read off meetings, in order: the condition of an `ite`, behind which stands what is read off its arms; the
/// tree that is made of two; or two trees that are to be compared.
#[derive(Clone, Copy, Debug)]
pub(crate) enum Entry {
    Choice(Pair),
    Made(u32),
    Trees(u32, u32),
}

// What is done with two trees.
fn apply_leaf(
    builder: &mut Builder,
    at: Place,
    leaf: Leaf,
    first: u32,
    second: u32,
) -> Result<u32, Stop>
    requires first { first < length builder.old.nodes }
    requires second { second < length builder.old.nodes }
    ensures does { ComputesLeaf leaf builder.old builder.new at first second result }
    ensures sorts { builder.new.sorts ≡ builder.old.sorts }
{
    match leaf {
        Leaf::Opposite => builder.negate(second),
        Leaf::Of(step) => apply(builder, at, step, first, second),
    }
}

// The condition and the arms of the `ite` of this node, which counts as one expression more.
fn part(builder: &mut Builder, sketch: &[SketchNode], k: u32) -> Result<(Pair, Arm, Arm), Stop>
    requires { IsSomeArm builder.old (map sketch_of sketch.now) (arm.Choice k) }
    ensures parts { IfOk result (λ w.
        Some (w.0, w.1, w.2) ≡ as_choice (slice_get (map sketch_of sketch.now) k)) }
    ensures does { DoesEvent builder.old builder.new reached result (λ _. Unit {0}) }
    ensures sorts { builder.new.sorts ≡ builder.old.sorts }
{
    let Some(parts) = choice_at(sketch, k) else {
        unreachable!()
    };
    builder.reach()?;
    Ok(parts)
}

// What is read off two arms first. Where one of them is an `ite`, its arms stand in front of what is left.
fn look(
    builder: &mut Builder,
    sketch: &[SketchNode],
    at: Place,
    task: Option<Leaf>,
    meeting: Meeting,
    left: &mut VecDeque<Meeting>,
) -> Result<Entry, Stop>
    requires known { AreSomeMet builder.old (map sketch_of sketch.now) (meeting ∷ left.old.items) }
    requires sketched { IsSketch builder.old (map sketch_of sketch.now) }
    ensures does { Looks builder.old builder.new (map sketch_of sketch.now) task (place_of at)
        meeting left.old.items left.new.items result }
    ensures sorts { builder.new.sorts ≡ builder.old.sorts }
    ensures turns { OnOk result (turns_left builder.new left.new.items <
        turns_left builder.old (meeting ∷ left.old.items)) }
{
    let Meeting { first, second } = meeting;
    match (first, second) {
        (Arm::Choice(k), _) => {
            let (condition, one, other) = part(builder, sketch, k)?;
            left.push_front(Meeting {
                first: other,
                second,
            })?;
            left.push_front(Meeting { first: one, second })?;
            Ok(Entry::Choice(condition))
        }
        (Arm::Tree(_), Arm::Choice(k)) => {
            let (condition, one, other) = part(builder, sketch, k)?;
            left.push_front(Meeting {
                first,
                second: other,
            })?;
            left.push_front(Meeting { first, second: one })?;
            Ok(Entry::Choice(condition))
        }
        (Arm::Tree(i), Arm::Tree(j)) => match task {
            Some(leaf) => Ok(Entry::Made(apply_leaf(builder, at, leaf, i, j)?)),
            None => Ok(Entry::Trees(i, j)),
        },
    }
}

// What is read off two arms.
fn spread(
    alloc: Global,
    builder: &mut Builder,
    sketch: &[SketchNode],
    at: Place,
    task: Option<Leaf>,
    meeting: Meeting,
) -> Result<Vec<Entry>, Stop>
    requires first { IsSomeArm builder.old (map sketch_of sketch.now) meeting.first }
    requires second { IsSomeArm builder.old (map sketch_of sketch.now) meeting.second }
    requires sketched { IsSketch builder.old (map sketch_of sketch.now) }
    ensures does { Spreads builder.old builder.new (map sketch_of sketch.now) task (place_of at)
        meeting.first meeting.second result }
    ensures sketched { OnOk result (IsSketch builder.new (map sketch_of sketch.now)) }
    ensures sorts { builder.new.sorts ≡ builder.old.sorts }
{
    let mut left = VecDeque::new(alloc);
    left.push_front(meeting)?;
    let mut entries = Vec::new(alloc);
    while let Some(meeting) = left.pop_front() {
        let entry = look(builder, sketch, at, task, meeting, &mut left)?;
        entries.push(entry)?;
    }
    Ok(entries)
}

// What an entry stands for, of what is made of those behind it.
fn join_arms(
    sketch: &mut Vec<SketchNode>,
    entry: Entry,
    made: &mut VecDeque<Arm>,
) -> Result<Arm, AllocError>
    requires { CanJoinArms (drawn sketch.old) entry made.old.items }
    ensures { JoinsArms (drawn sketch.old) (drawn sketch.new)
        entry made.old.items made.new.items result }
{
    match entry {
        Entry::Choice(condition) => {
            let Some(one) = made.pop_front() else {
                unreachable!()
            };
            let Some(other) = made.pop_front() else {
                unreachable!()
            };
            choose_arms(sketch, condition, one, other)
        }
        Entry::Made(k) => Ok(Arm::Tree(k)),
        Entry::Trees(_, _) => unreachable!(),
    }
}

// The arm that entries stand for.
fn gather_arms(sketch: &mut Vec<SketchNode>, entries: Vec<Entry>) -> Result<Arm, AllocError>
    requires { CanGatherArms (drawn sketch.old) entries.items }
    ensures { GathersArms (drawn sketch.old) (drawn sketch.new) entries.items result }
{
    let mut entries = entries;
    let mut made = VecDeque::new(*sketch.allocator());
    while let Some(entry) = entries.pop() {
        let arm = join_arms(sketch, entry, &mut made)?;
        made.push_front(arm)?;
    }
    match made.pop_front() {
        Some(arm) => Ok(arm),
        None => unreachable!(),
    }
}

// What an entry says, of what those behind it say.
fn join_pairs(
    alloc: Global,
    sketch: &mut Vec<SketchNode>,
    at: Place,
    kind: Kind,
    entry: Entry,
    said: &mut VecDeque<Pair>,
) -> Result<Pair, AllocError>
    requires { CanJoinPairs (drawn sketch.old) (kind_of kind) (place_of at) entry said.old.items }
    ensures { JoinsPairs (drawn sketch.old) (drawn sketch.new) (kind_of kind) (place_of at)
        entry said.old.items said.new.items result }
{
    match entry {
        Entry::Choice(condition) => {
            let Some(one) = said.pop_front() else {
                unreachable!()
            };
            let Some(other) = said.pop_front() else {
                unreachable!()
            };
            Pair::choose(alloc, sketch, condition, one, other)
        }
        Entry::Trees(first, second) => Pair::compare_two(sketch, at, first, second, kind),
        Entry::Made(_) => unreachable!(),
    }
}

// The pair that entries stand for.
fn gather_pairs(
    alloc: Global,
    sketch: &mut Vec<SketchNode>,
    at: Place,
    kind: Kind,
    entries: Vec<Entry>,
) -> Result<Pair, AllocError>
    requires { CanGatherPairs (drawn sketch.old) (kind_of kind) (place_of at) entries.items }
    ensures { GathersPairs (drawn sketch.old) (drawn sketch.new) (kind_of kind) (place_of at)
        entries.items result }
{
    let mut entries = entries;
    let mut said = VecDeque::new(alloc);
    while let Some(entry) = entries.pop() {
        let pair = join_pairs(alloc, sketch, at, kind, entry, &mut said)?;
        said.push_front(pair)?;
    }
    match said.pop_front() {
        Some(pair) => Ok(pair),
        None => unreachable!(),
    }
}

/// What is done with each arm of one, where a first tree is given.
pub(crate) fn lift_one(
    builder: &mut Builder,
    sketch: &mut Vec<SketchNode>,
    at: Place,
    leaf: Leaf,
    first: u32,
    arm: Arm,
) -> Result<Arm, Stop>
    requires first { first < length builder.old.nodes }
    requires known { IsSomeArm builder.old (drawn sketch.old) arm }
    requires sketched { IsSketch builder.old (drawn sketch.old) }
    ensures does { LiftsArm builder.old sketch.old builder.new sketch.new at leaf first arm result }
    ensures sorts { builder.new.sorts ≡ builder.old.sorts }
{
    let alloc = *sketch.allocator();
    let meeting = Meeting {
        first: Arm::Tree(first),
        second: arm,
    };
    let entries = spread(alloc, builder, sketch, at, Some(leaf), meeting)?;
    Ok(gather_arms(sketch, entries)?)
}

/// A step of each arm of a first one and each of a second one.
pub(crate) fn lift_two(
    builder: &mut Builder,
    sketch: &mut Vec<SketchNode>,
    at: Place,
    step: Step,
    arm: Arm,
    second: Arm,
) -> Result<Arm, Stop>
    requires known { IsSomeArm builder.old (drawn sketch.old) arm }
    requires second { IsSomeArm builder.old (drawn sketch.old) second }
    requires sketched { IsSketch builder.old (drawn sketch.old) }
    ensures does { LiftsArms builder.old sketch.old builder.new sketch.new
        at step arm second result }
    ensures sorts { builder.new.sorts ≡ builder.old.sorts }
{
    let alloc = *sketch.allocator();
    let meeting = Meeting { first: arm, second };
    let entries = spread(alloc, builder, sketch, at, Some(Leaf::Of(step)), meeting)?;
    Ok(gather_arms(sketch, entries)?)
}

/// The comparison of each arm of a first one with each of a second one.
pub(crate) fn compare_arms(
    builder: &mut Builder,
    sketch: &mut Vec<SketchNode>,
    at: Place,
    kind: Kind,
    arm: Arm,
    second: Arm,
) -> Result<Pair, Stop>
    requires known { IsSomeArm builder.old (drawn sketch.old) arm }
    requires second { IsSomeArm builder.old (drawn sketch.old) second }
    requires sketched { IsSketch builder.old (drawn sketch.old) }
    ensures does { SaysArms builder.old sketch.old builder.new sketch.new
        kind at arm second result }
    ensures sorts { builder.new.sorts ≡ builder.old.sorts }
{
    let alloc = *sketch.allocator();
    let meeting = Meeting { first: arm, second };
    let entries = spread(alloc, builder, sketch, at, None, meeting)?;
    Ok(gather_pairs(alloc, sketch, at, kind, entries)?)
}
