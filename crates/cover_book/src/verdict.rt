// What a book says of its problem.

/// What a book says of its problem.
#[derive(Clone, Copy, PartialEq, Eq, Debug)]
pub enum BookVerdict {
    /// A point is kept.
    DeltaSat,
    /// A node is live, and the budget is used up.
    UnknownBudget,
    /// A node is live, and there is a budget left.
    NotYet,
    /// No node is live, and one is stuck.
    UnknownWidth,
    /// Every node is closed or split.
    Unsat,
}
