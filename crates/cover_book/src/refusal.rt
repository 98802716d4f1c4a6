// What a commit adds, and why a call on a book is refused.
use cover_data::{Point, State};

/// The nodes that a commit adds: none, or the next two numbers, the lower part's first.
#[derive(Clone, Copy, PartialEq, Eq, Debug)]
pub enum Kids {
    None,
    Two(u32, u32),
}

/// Why a call on a book is refused.
#[derive(Drop)]
pub enum BookRefusal {
    /// There is no live node of this number.
    NotOpen(u32),
    /// The patch begins elsewhere than in this state, which the node is in.
    OtherState(State),
    /// A quoted lemma is not the one that is kept under its number; how many lemmas there are.
    UnknownLemma(u32, u32),
    /// There is no branch left after so many.
    BudgetSpent(u32),
    /// There are as many lemmas as there may be.
    LemmasFull,
    /// This point was found before.
    PointKept(Point),
    /// There is no memory.
    Memory,
}
