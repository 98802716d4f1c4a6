// Nodes of the shared graph, kinds and atoms.
use dyadic::Frac;

/// A node of the shared graph. The numbers are those of its children, or of the axis.
#[derive(Clone, Copy, Debug, PartialEq, Eq, Hash)]
pub enum Node {
    Const(Frac),
    Var(u32),
    Neg(u32),
    Add(u32, u32),
    Mul(u32, u32),
    Sq(u32),
}

/// Whether a term is at most, at least or equal to 0.
#[derive(Clone, Copy, Debug, PartialEq, Eq, Hash)]
pub enum Kind {
    Le,
    Ge,
    Eq,
}

/// The number of a term's node, and its kind.
#[derive(Clone, Copy, Debug, PartialEq, Eq, Hash)]
pub struct Atom {
    pub term: u32,
    pub kind: Kind,
}
