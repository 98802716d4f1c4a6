// What work on a state comes to.
use cover_rule::{ClosedPatch, KeptPatch, Point};

/// What work on a state comes to.
#[derive(Drop)]
pub enum Worked {
    /// A run that ended in a branch, or at a stuck state.
    Patch(KeptPatch),
    /// A run that closed the state, and what may be learned of it: nothing where it is the one line `false` or
    /// ends by a lemma.
    Closed(KeptPatch, Option<ClosedPatch>),
    /// The middle of a state that steps reach, or a point within the box, where the form is sure.
    Point(Point),
}
