//! What is proved of books: each function here does nothing, and its contract is a law.

ghost use Rattle.cover_book.specs.Laws.{OpeningIsBook, CarriedIsBook, RootedIsBook, RaisedIsBook, LemmasMayBeKept, StepKeepsBook, StepKeepsProblem, ConditionLasts, StepGrows, BookCatches, NodesLieWithin, BookHasTree, TreeIsHonest, RootedTreeIsCover};

/// No call changes the problem, the options, or what the book opened with.
pub fn steps_keep_problem()
    ensures { StepKeepsProblem }
{}

/// The condition of a call outlasts every call.
pub fn conditions_last()
    ensures { ConditionLasts }
{}

/// A book opens as one: its nodes are those of a tree, its lemmas are derived.
pub fn opening_is_book()
    ensures { OpeningIsBook }
{}

/// So does one with the lemmas of a book whose problem the new one goes on from.
pub fn carried_is_book()
    ensures { CarriedIsBook }
{}

/// So does one that opens in any state within the root, with lemmas of its problem.
pub fn rooted_is_book()
    ensures { RootedIsBook }
{}

/// A book is one in version 5, too.
pub fn raised_is_book()
    ensures { RaisedIsBook }
{}

/// All lemmas of a book are such as another one of its problem may open with.
pub fn lemmas_may_be_kept()
    ensures { LemmasMayBeKept }
{}

/// Every call keeps it one.
pub fn steps_keep_book()
    ensures { StepKeepsBook }
{}

/// No number is used again, and a node leaves being live at most once.
pub fn steps_grow()
    ensures { StepGrows }
{}

/// Each point of the declared box that meets the form at the margin is one of a live or stuck node's state, in a book of
/// the whole box.
pub fn book_catches()
    ensures { BookCatches }
{}

/// The state of a live or stuck node lies within the root's.
pub fn nodes_lie_within()
    ensures { NodesLieWithin }
{}

/// A book has a lawful tree with as many branch lines as it counts, all of whose lines but the open ones are honest.
pub fn book_has_tree()
    ensures { BookHasTree }
{}

/// It is honest where the live nodes are.
pub fn tree_is_honest()
    ensures { TreeIsHonest }
{}

/// The tree of a book of the whole box is a lawful cover.
pub fn rooted_tree_is_cover()
    ensures { RootedTreeIsCover }
{}
