// Nodes of the shared form.

/// A node of the shared form. The numbers of `And` and `Or` are those of their children.
#[derive(Clone, Debug, PartialEq, Eq, Hash, Drop)]
pub enum FormNode {
    True,
    False,
    /// The atom of this number holds.
    AtomIs(u32),
    /// The Bool axis has this value.
    BoolIs(u32, bool),
    And(Vec<u32>),
    Or(Vec<u32>),
}
