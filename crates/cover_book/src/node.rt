// The boxes of a cover, and what was committed to them.
use cover_data::{End, State, Step, StoredState};

/// What a patch did to a state: its steps, and its end.
#[derive(Drop)]
pub struct Lines {
    pub steps: Vec<Step>,
    pub end: End,
}

/// A box of the cover.
#[derive(Drop)]
pub enum Node {
    /// Nothing is committed to this state yet.
    Live(StoredState),
    /// The declared bounds of this axis cross, so there is nothing to cover.
    Crossed(usize),
    /// It was closed.
    Closed(Lines),
    /// It was split into two nodes: the lower part has this number, the upper one the next.
    Parted(Lines, u32),
    /// It is stuck in this state.
    Stuck(Lines, State),
}

/// A state that no point which meets the form is of, with the lines that close it.
#[derive(Drop)]
pub struct Learned {
    pub state: StoredState,
    pub lines: Lines,
}
