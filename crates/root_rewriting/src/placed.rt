// Assertions that were written.
use script_fault::Place;

/// An assertion or a goal, with its command's place and the place of its expression.
#[derive(Clone, Copy, Debug)]
pub(crate) struct Placed {
    pub(crate) place: Place,
    pub(crate) is_goal: bool,
    pub(crate) at: usize,
}
