// Boxes that wait.
use cover_data::State;

/// A live node, and its state where the worker that keeps it has a copy.
#[derive(Drop)]
pub struct OpenBox {
    pub node: u32,
    pub state: Option<State>,
}
