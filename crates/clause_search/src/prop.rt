// Answers of propagation.

/// What propagation came to.
#[derive(Clone, Copy, Debug, PartialEq, Eq)]
pub enum Prop {
    /// A clause forced this atom, which now is on the trail.
    Forced(u32),
    /// A clause has no literal left.
    Conflict,
    /// Nothing follows from one clause alone.
    Rest,
}
