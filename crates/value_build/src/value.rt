// What expressions stand for.
use term_build::Pair;

/// What an expression stands for, in a `Maker`.
#[derive(Clone, Copy, Debug, PartialEq, Eq)]
pub enum Value {
    /// A Real expression: the node of its tree.
    Real(u32),
    /// A Real expression that holds an `ite`: the node of the sketch that is its `ite`.
    Choice(u32),
    /// A Bool expression: the nodes of its truth and of its negation in the sketch, and the list of its bounds.
    Bool(Pair, u32),
}
