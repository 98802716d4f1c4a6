// How much a maker has made.

/// How much the builder has made, and how many lists of bounds there are: a maker can go back to it.
#[derive(Clone, Copy, Debug)]
pub struct Mark {
    pub(crate) builder: term_build::Mark,
    pub(crate) lists: usize,
}
