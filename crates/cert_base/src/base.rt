// What is read back from a certificate.
use cert_read::Line;
use cover_data::{State, StoredState};
use cover_line::Rule;
use ival::Space;

/// A cover as it was read back from its certificate: what a certificate that goes on from it repeats, and where it goes
/// on.
#[derive(Drop)]
pub struct Base {
    /// The version of the format.
    pub version: u32,
    /// The bits of the margin.
    pub margin: u32,
    /// The bits of delta.
    pub delta: u32,
    /// The bound of the words.
    pub bound: Option<u32>,
    /// The lines of the lemmas with their trees.
    pub lemma_lines: Vec<Line>,
    /// The states of the lemmas, by number.
    pub lemmas: Vec<StoredState>,
    /// The lines of the main tree.
    pub main: Vec<Rule>,
    /// The states that stay open or stuck, one for each `open` and `stuck` of the main tree, in their order.
    pub left: Vec<State>,
}

/// What an accepted certificate is read back as.
#[derive(Drop)]
pub enum Read {
    /// A point, with the bits of its delta.
    Point(Space, u32),
    /// A cover that leaves nothing, with the bits of its margin.
    Closed(u32),
    /// A cover that leaves states open or stuck.
    Cover(Base),
}
