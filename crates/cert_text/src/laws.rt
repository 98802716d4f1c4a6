//! What is proved of the texts: each function here does nothing, and its contract is a law.

ghost use Rattle.cert_text.specs.Laws.{BookTextIsAccepted, BookTextBranches, BookTextEndsHonestly, BookTextIsHonest, CrossedTextIsAccepted, PointTextIsAccepted, LeftMatchesNodes};

/// The text of a book's tree is accepted with the states that stay.
pub fn book_text_is_accepted()
    ensures { BookTextIsAccepted }
{}

/// It has as many branches as the book counts.
pub fn book_text_branches()
    ensures { BookTextBranches }
{}

/// Each line of its main tree but an open one is honest.
pub fn book_text_ends_honestly()
    ensures { BookTextEndsHonestly }
{}

/// It is honest where the book's live nodes are.
pub fn book_text_is_honest()
    ensures { BookTextIsHonest }
{}

/// The text for bounds that cross is accepted with nothing left.
pub fn crossed_text_is_accepted()
    ensures { CrossedTextIsAccepted }
{}

/// The text of a point that is shown is accepted with it.
pub fn point_text_is_accepted()
    ensures { PointTextIsAccepted }
{}

/// What is left of a book's tree is open somewhere exactly where a node is live, and is nothing exactly where no node
/// is live or stuck.
pub fn left_tells_of_nodes()
    ensures { LeftMatchesNodes }
{}
