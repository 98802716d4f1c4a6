// How much a builder has made.

/// How many sorts, expressions, nodes, atoms and nodes of the form there are: a builder can go back to it.
#[derive(Clone, Copy, Debug)]
pub struct Mark {
    pub(crate) sorts: usize,
    pub(crate) size: u32,
    pub(crate) nodes: usize,
    pub(crate) atoms: usize,
    pub(crate) forms: usize,
}
