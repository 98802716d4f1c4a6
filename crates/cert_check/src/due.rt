// What is due in a certificate.
use crate::lemmas::Lemmas;
use crate::loosenings::Loosenings;
use crate::pending::Pending;
use crate::standing::Lemma;
use crate::state::State;
use ival::Space;

/// A cover's header, with the states of the lemmas that stand.
#[derive(Drop)]
pub struct Cover {
    pub loosenings: Loosenings,
    /// How many lemmas the header tells.
    pub count: u32,
    pub lemmas: Lemmas,
}

/// The states of a tree that are in work.
#[derive(Drop)]
pub struct Tree {
    /// The state where the next line stands.
    pub state: State,
    /// The second states of branches whose first child is in work.
    pub pending: Pending,
}

/// What an accepted certificate stands for.
#[derive(Drop)]
pub enum Value {
    Point(Space),
    /// The lemmas of a cover, and the number of its states that stay open or stuck.
    Left(Lemmas, u64),
}

/// What is due: the five lines of a header, then the lines of a cover or of a point. A space that is not whole has the
/// domains of the axes that stand.
#[derive(Drop)]
pub enum Due {
    Version,
    /// The version is known.
    Margin(u32),
    /// The version and the margin are known.
    Delta(u32, u32),
    Bound(Loosenings),
    Kind(Loosenings),
    /// The next lemma, or `tree`.
    Next(Cover),
    /// The next axis of a lemma's state, or its `yes` where the space is whole.
    Axis(Cover, Space),
    /// The `no` of a lemma's state, whose atoms marked yes are these.
    No(Cover, Space, Vec<u32>),
    /// A line of a lemma's tree; the lemma's state is the first one.
    Lemma(Cover, Lemma, Tree),
    /// The first line of the main tree.
    Root(Cover),
    /// A later line of the main tree, of which so many states stayed.
    Tree(Cover, Tree, u64),
    /// The next axis of a point, or `end` where the point is whole.
    Coordinate(Loosenings, Space),
    /// `end`, where so many states of a cover stayed.
    End(Cover, u64),
    /// Nothing.
    Nothing(Loosenings, Value),
}
