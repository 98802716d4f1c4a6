// Who learns of the work on boxes.

/// Called when a worker begins and ends its work on a node of the cover. Nothing depends on it.
pub trait Gate {
    fn began(&self, worker: u32, node: u32);

    fn ended(&self, worker: u32, node: u32);
}

/// A gate that does nothing.
#[derive(Clone, Copy, Debug, PartialEq, Eq)]
pub struct NoGate;

impl Gate for NoGate {
    fn began(&self, _worker: u32, _node: u32) {}

    fn ended(&self, _worker: u32, _node: u32) {}
}
