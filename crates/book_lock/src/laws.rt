//! What is proved of histories: each function here does nothing, and its contract is a law.

ghost use Rattle.book_lock.specs.Laws.{HistoryKeepsBook, HistoryHasBooks, ReplyIsOfBook};

/// The calls of a history lead to a book of the same problem and options, which opened with the same lemmas, in which each
/// node has left being live at most once, and of which all holds that holds of books.
pub fn histories_keep_books()
    ensures { HistoryKeepsBook }
{}

/// Between any two calls of a history there is a book, to which the first of them lead.
pub fn histories_have_books()
    ensures { HistoryHasBooks }
{}

/// The reply of a call on a shared book is the one that a book of its history gives.
pub fn replies_are_of_books()
    ensures { ReplyIsOfBook }
{}
