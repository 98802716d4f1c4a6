// Why a node is refused.

/// What there are too many of.
#[derive(Clone, Copy, Debug, PartialEq, Eq)]
pub enum Limit {
    Nodes,
    Atoms,
    Forms,
}

/// Why a node, an atom or a form was not added.
#[derive(Clone, Copy, Debug, PartialEq, Eq)]
pub enum NoNode {
    /// It would be one more than there may be.
    TooMany(Limit),
    /// Memory ran out.
    Memory,
}
