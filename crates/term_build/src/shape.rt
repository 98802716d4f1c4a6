// Forms are made from their sketch: each node once, its children before it, over a stack of its own.
ghost use Rattle.std.specs.Prelude.{◌≡◌, ◌<◌, ◌^◌, length, map, replicate, slice_get, IfOk, None, Some};
ghost use Rattle.term_build.specs.Calls.{CompletesFrame, DrainsStack, GoesOn, IsComplete, KeepsFrames, KeepsSafe, NumbersRoot, TakesTurn, frames, frames_under};
ghost use Rattle.term_build.specs.Sketch.{IsDrawn, IsSketch};
ghost use Rattle.term_build.specs.Shapes.{AreFrames, AreNumbers, Shaping, Finishes, IfDone, IsFrame, IsMemo, children, sketch_of, frame_of};
ghost use Rattle.term_build.specs.Turns.{AreStacked, IsMadeIn, IsNumbered};

use crate::builder::Builder;
use crate::comparisons::some_equal;
use crate::sketch::SketchNode;
use crate::stop::Stop;
use poly_graph::FormNode;
use std::alloc::{AllocError, Global};

/// A node of a sketch, with the numbers of those of its children that are made.
#[derive(Debug, Drop)]
pub(crate) struct Frame {
    pub(crate) node: u32,
    pub(crate) numbers: Vec<u32>,
}

// The child of this place of a node.
fn child_at(node: &SketchNode, i: usize) -> Option<u32>
    ensures { result ≡ slice_get (children (sketch_of node.now)) i }
{
    match node {
        SketchNode::And(children) | SketchNode::Or(children) | SketchNode::Crowd(_, children) => {
            children.get(i).copied()
        }
        _ => None,
    }
}

// The number of a node's form, whose children have these numbers.
fn finish(
    alloc: Global,
    builder: &mut Builder,
    node: &SketchNode,
    numbers: Vec<u32>,
) -> Result<u32, Stop>
    requires drawn { IsDrawn builder.old (sketch_of node.now) }
    requires below { AreNumbers (length builder.old.forms) numbers.items }
    ensures does { Finishes builder.old builder.new (sketch_of node.now) numbers.items result }
    ensures sorts { builder.new.sorts ≡ builder.old.sorts }
{
    match node {
        SketchNode::True => builder.form(FormNode::True),
        SketchNode::False | SketchNode::Choice(_, _, _) => builder.form(FormNode::False),
        SketchNode::Compare(at, left, right, kind) => builder.compare(*at, *left, *right, *kind),
        SketchNode::SomeEqual(at, nodes) => some_equal(alloc, builder, *at, nodes),
        SketchNode::Crowd(_, _) => builder.no_room(),
        SketchNode::BoolIs(axis, value) => builder.form(FormNode::BoolIs(*axis, *value)),
        SketchNode::And(_) => builder.form(FormNode::And(numbers)),
        SketchNode::Or(_) => builder.form(FormNode::Or(numbers)),
    }
}

// The node of a frame, all of whose children are made, is made too.
fn complete(
    alloc: Global,
    builder: &mut Builder,
    sketch: &[SketchNode],
    memo: &mut [Option<u32>],
    frame: Frame,
) -> Result<(), Stop>
    requires sketched { IsSketch builder.old (map sketch_of sketch.now) }
    requires framed { IsFrame (map sketch_of sketch.now) builder.old (frame_of frame) }
    requires kept { IsMemo (map sketch_of sketch.now) builder.old memo.old }
    requires done { IsComplete (map sketch_of sketch.now) (frame_of frame) }
    ensures does { CompletesFrame sketch.now builder.old builder.new memo.old memo.new
        frame result }
    ensures safe { KeepsSafe sketch.now builder.old builder.new memo.new result }
    ensures made { IfDone result (IsMadeIn memo.old memo.new frame.node) }
    ensures sorts { builder.new.sorts ≡ builder.old.sorts }
{
    let Frame { node, numbers } = frame;
    let number = finish(alloc, builder, &sketch[node as usize], numbers)?;
    memo[node as usize] = Some(number);
    Ok(())
}

// What is done with the frame that was taken from the top of the stack: its next child is taken from the memo or
// begun, or the node is made.
fn step(
    alloc: Global,
    builder: &mut Builder,
    sketch: &[SketchNode],
    memo: &mut [Option<u32>],
    stack: &mut Vec<Frame>,
    mut frame: Frame,
) -> Result<(), Stop>
    requires sketched { IsSketch builder.old (map sketch_of sketch.now) }
    requires framed { IsFrame (map sketch_of sketch.now) builder.old (frame_of frame) }
    requires kept { IsMemo (map sketch_of sketch.now) builder.old memo.old }
    requires nested { AreStacked (map sketch_of sketch.now) memo.old
        (frames_under stack.old frame) }
    ensures does { GoesOn sketch.now builder.old builder.new memo.old memo.new stack.old stack.new
        frame result }
    ensures safe { KeepsSafe sketch.now builder.old builder.new memo.new result }
    ensures frames { KeepsFrames sketch.now builder.old builder.new stack.old stack.new result }
    ensures turn { TakesTurn sketch.now memo.old memo.new stack.old stack.new frame result }
    ensures sorts { builder.new.sorts ≡ builder.old.sorts }
{
    let Some(child) = child_at(&sketch[frame.node as usize], frame.numbers.len()) else {
        return complete(alloc, builder, sketch, memo, frame);
    };
    if let Some(number) = memo[child as usize] {
        frame.numbers.push(number)?;
        stack.push(frame)?;
        return Ok(());
    }
    stack.push(frame)?;
    stack.push(Frame {
        node: child,
        numbers: Vec::new(alloc),
    })?;
    Ok(())
}

// All frames are done, from the top of the stack on.
fn drain(
    alloc: Global,
    builder: &mut Builder,
    sketch: &[SketchNode],
    memo: &mut [Option<u32>],
    stack: &mut Vec<Frame>,
) -> Result<(), Stop>
    requires sketched { IsSketch builder.old (map sketch_of sketch.now) }
    requires kept { IsMemo (map sketch_of sketch.now) builder.old memo.old }
    requires framed { AreFrames (map sketch_of sketch.now) builder.old (frames stack.old) }
    requires nested { AreStacked (map sketch_of sketch.now) memo.old (frames stack.old) }
    ensures does { DrainsStack sketch.now builder.old builder.new memo.old memo.new
        stack.old result }
    ensures rooted { NumbersRoot memo.old memo.new stack.old result }
    ensures sorts { builder.new.sorts ≡ builder.old.sorts }
{
    while let Some(frame) = stack.pop() {
        step(alloc, builder, sketch, memo, stack, frame)?;
    }
    Ok(())
}

// No node is made yet.
fn none_made(alloc: Global, n: usize) -> Result<Vec<Option<u32>>, AllocError>
    ensures { IfOk result (λ memo. memo.items ≡ replicate n None) }
{
    vec![in alloc; None; n]
}

// The number of a node that is made.
fn number_of(memo: &[Option<u32>], k: u32) -> u32
    requires { IsNumbered memo.now k }
    ensures { slice_get memo.now k ≡ Some (Some result) }
{
    match memo[k as usize] {
        Some(number) => number,
        None => unreachable!(),
    }
}

/// The form of a node of a sketch is made: the number of its node. Each node is made once, after its children, over a
/// stack of its own.
pub fn make_form(
    alloc: Global,
    builder: &mut Builder,
    sketch: &[SketchNode],
    root: u32,
) -> Result<u32, Stop>
    requires sketched { IsSketch builder.old (map sketch_of sketch.now) }
    requires rooted { root < length sketch.now }
    ensures does { Shaping builder.old builder.new (map sketch_of sketch.now) root result }
    ensures sorts { builder.new.sorts ≡ builder.old.sorts }
{
    let mut memo = none_made(alloc, sketch.len())?;
    let mut stack = Vec::new(alloc);
    stack.push(Frame {
        node: root,
        numbers: Vec::new(alloc),
    })?;
    drain(alloc, builder, sketch, &mut memo, &mut stack)?;
    Ok(number_of(&memo, root))
}
