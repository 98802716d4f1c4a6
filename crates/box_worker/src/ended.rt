// How a patch came to its end.
use cover_rule::Point;

/// How a patch came to its end.
#[derive(Drop)]
pub enum Ended {
    /// It closed its state.
    Closed,
    /// It ended in a branch, or at a stuck state.
    Parted,
    /// It has not ended, and the form is sure at the middle of the state that it has reached.
    Shown(Point),
    /// It has not ended, and the form is sure at this point of the box that it began at.
    Found(Point),
}
