// Sides of a range.

/// Whether an end is a lower or an upper one.
#[derive(Clone, Copy, Debug)]
pub(crate) enum Side {
    Lower,
    Upper,
}
