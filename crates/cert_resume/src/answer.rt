// What a cover is resumed to.
use cover_data::{Point, State};

/// What is left in a share.
#[derive(Drop)]
pub enum Own {
    Nothing,
    /// A state is open.
    Open,
    /// No state is open, and this one is the first that is stuck, at this atom.
    Stuck(u32, State),
}

/// A cover that goes on from another one.
#[derive(Drop)]
pub struct Cover {
    /// Its certificate, as text.
    pub cert: Vec<u8>,
    /// What is left in the share.
    pub own: Own,
    /// How many states are in other shares.
    pub others: u64,
}

/// What a cover is resumed to.
#[derive(Drop)]
pub enum Resumed {
    /// The certificate of a point that was found, as text, and the point.
    Point(Vec<u8>, Point),
    Cover(Cover),
}
