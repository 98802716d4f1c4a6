// The widest axis so far.
use crate::wide_parts::Wide;

/// An axis and its side.
#[derive(Clone, Copy)]
pub struct Best {
    pub axis: usize,
    pub side: Wide,
}
