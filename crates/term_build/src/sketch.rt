// The forms of expressions before their atoms have numbers.
ghost use Rattle.std.specs.Prelude.{◌≡◌, map, slice_get};
ghost use Rattle.term_build.specs.Shapes.{sketch_of};
ghost use Rattle.term_build.specs.Sketch.{as_choice};

use crate::connectives::Pair;
use poly_graph::Kind;
use script_fault::Place;

/// A Real expression: the node of its tree, or the node of the sketch that is its `ite`.
#[derive(Clone, Copy, Debug, PartialEq, Eq)]
pub enum Arm {
    Tree(u32),
    Choice(u32),
}

/// A node of the forms of expressions, with its comparisons in place. The numbers of `And` and `Or` are those of
/// their children, which come before it.
#[derive(Debug, Drop)]
pub enum SketchNode {
    True,
    False,
    /// An expression at this place compares the trees of two nodes.
    Compare(Place, u32, u32, Kind),
    /// The Bool axis has this value.
    BoolIs(u32, bool),
    And(Vec<u32>),
    Or(Vec<u32>),
    /// Two of these trees are equal, of an expression at this place: the comparison of each with every later one.
    SomeEqual(Place, Vec<u32>),
    /// So many Bool expressions differ, each from every other, that no form has room for it, or two of them are equal.
    /// These nodes, which come before it, say so of the first and each later one.
    Crowd(bool, Vec<u32>),
    /// A Real `ite`: its condition and its arms. It is part of no form.
    Choice(Pair, Arm, Arm),
}

/// The condition and the arms of the `ite` of this node.
pub fn choice_at(sketch: &[SketchNode], k: u32) -> Option<(Pair, Arm, Arm)>
    ensures { result ≡ as_choice (slice_get (map sketch_of sketch.now) k) }
{
    match sketch.get(k as usize) {
        Some(SketchNode::Choice(condition, first, second)) => Some((*condition, *first, *second)),
        _ => None,
    }
}
