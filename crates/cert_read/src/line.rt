// What a line says.
use cover_line::Rule;
use dyadic::Dy;

/// The values that a Boolean variable may have.
#[derive(Clone, Copy, Debug, PartialEq, Eq)]
pub enum BoolSet {
    False,
    True,
    Both,
}

/// A line of a certificate, one variant for each form of line outside trees. Its first word stands beside it.
#[derive(Debug, Drop, PartialEq, Eq)]
pub enum Line {
    /// `dpoly`, with the version of the format.
    Version(u32),
    /// `margin`, with its bits.
    Margin(u32),
    /// `delta`, with its bits.
    Delta(u32),
    /// `bound`, with the bound of the words, or `none`.
    Bound(Option<u32>),
    /// `lower`, with a lower bound of the goal, or `none`.
    Lower(Option<Dy>),
    /// `goal`, with the bits of the limit of the goal.
    Goal(u32),
    /// `checks`, with the number of checks.
    Checks(u32),
    /// `cover`, with the number of lemmas.
    Cover(u32),
    /// `keep`, with the number of lemmas of the part before that stay.
    Keep(u32),
    /// `point`.
    Point,
    /// `tree`.
    Tree,
    /// `end`.
    End,
    /// `lemma`, with its number.
    Lemma(u32),
    /// `real`, with the ends of an interval.
    RealInterval(Dy, Dy),
    /// `real`, with a value.
    RealValue(Dy),
    /// `bool`.
    Bool(BoolSet),
    /// `yes`, with atoms.
    Yes(Vec<u32>),
    /// `no`, with atoms.
    No(Vec<u32>),
    /// A line of a tree, but the one for crossed bounds.
    Rule(Rule),
    /// `over`: the goal's enclosure is not below the lower bound.
    Over,
    /// `empty`, with an axis.
    Empty(u32),
}
