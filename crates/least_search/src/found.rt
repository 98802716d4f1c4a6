// What a search for a least value finds.
use cover_book::Book;
use cover_data::Point;
use dyadic::{Dy, Ext};

/// What shows a lower bound of the goal.
#[derive(Drop)]
pub enum Lower {
    /// The lower end of the goal's enclosure over the declared box; none is minus infinity.
    Root(Option<Dy>),
    /// A book that leaves nothing of the problem with the bound as a limit of the goal, in so many bits.
    Limit(Book, u32, Dy),
}

/// Why a search for a least value ended.
#[derive(Clone, Copy, Debug, PartialEq, Eq)]
pub enum Ending {
    /// The bounds are as near as was asked.
    Minimum,
    /// The budget of all searches was spent.
    Budget,
    /// A box of the least width is left, at which the limit or an atom is not decided.
    Width,
    /// No limit between the bounds can be told, or the problem has no room for one.
    Limit,
}

/// Bounds of the goal: what shows the lower one, and the point of the least value that was found.
#[derive(Drop)]
pub struct Found {
    pub lower: Lower,
    pub point: Point,
    /// The upper end of the goal's enclosure over the point.
    pub upper: Ext,
    pub ending: Ending,
    /// The version of the format in which the last search ended; a book that shows the lower bound is in it.
    pub version: u32,
}

/// What comes of a search for a least value.
#[derive(Drop)]
pub enum Least {
    /// No point was found: the book of the first search.
    NoPoint(Book),
    Found(Found),
}
