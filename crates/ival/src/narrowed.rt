// What a narrowing did.

/// What a narrowing did to a space: nothing, or it left less, or it found that nothing is left.
#[derive(Clone, Copy, PartialEq, Eq, Debug)]
pub enum Narrowed {
    Same,
    Less,
    Empty,
}
