// What a rule leaves.
use crate::state::State;

/// What a rule leaves of a state, where its condition holds.
#[derive(Drop)]
pub enum Left {
    /// Nothing.
    Closed,
    One(State),
    /// In the order of the tree.
    Two(State, State),
    /// The state itself, open or stuck.
    Stays,
}
