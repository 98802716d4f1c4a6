// The mark of an atom.

/// What is said of an atom.
#[derive(Clone, Copy, Debug, PartialEq, Eq)]
pub enum Mark {
    /// It holds.
    Yes,
    /// It does not hold.
    No,
    /// Nothing is said.
    Neither,
}
