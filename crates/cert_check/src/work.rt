// What is due in a certificate of one check or of several.
use crate::due::{Cover, Due};
use crate::loosenings::Loosenings;

/// What is due.
#[derive(Drop)]
pub enum Work {
    /// A line of a certificate of one check.
    Alone(Due),
    /// A line of the header of one of several checks, up to the bound.
    Header(Due),
    /// The number of checks.
    Checks(Loosenings),
    /// The first line of a part.
    Part(Loosenings),
    /// `keep`, where the part has so many lemmas.
    Keep(Loosenings, u32),
    /// The next lemma or `tree`, behind `keep`: the lemmas that are kept stand.
    First(Cover),
    /// A later line of the part.
    Inside(Due),
    /// Nothing.
    Done(Loosenings),
}
