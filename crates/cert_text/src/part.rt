// Parts of what is written of a book: its tree, and the lemmas that it learned.
ghost use Rattle.std.specs.Prelude.{◌≡◌, None, OnOk, length};
ghost use Rattle.poly_graph.specs.Problem.{first_crossed};
ghost use Rattle.cover_book.specs.Model.{problem_in};
ghost use Rattle.cover_book.specs.Tree.{lemma_trees};
ghost use Rattle.cert_model.specs.Written.{lemmas_lines};
ghost use Rattle.cert_text.specs.Calls.{Appends};
ghost use Rattle.cert_text.specs.Means.{HasAppendedTreeOf};

use crate::parts::append_lemmas;
use crate::walk::append_tree;
use cover_book::Book;
use std::alloc::{AllocError, Global};

/// Appends the tree of a book, which begins in the book's first state, with a line `open` for each live node. Out of
/// memory is its one error.
pub fn append_tree_of(text: &mut Vec<u8>, alloc: Global, book: &Book) -> Result<(), AllocError>
    ensures { first_crossed (problem_in book.now) ≡ None →
        OnOk result (HasAppendedTreeOf text.old.items book.now text.new.items) }
{
    append_tree(text, alloc, book.nodes())
}

/// Appends the lemmas that a book learned, in the order of their numbers, which follow those that it opened with. Out of
/// memory is its one error.
pub fn append_lemmas_of(text: &mut Vec<u8>, book: &Book) -> Result<(), AllocError>
    ensures { let b = book.now in
        Appends text.old text.new (lemmas_lines (length b.kept) (lemma_trees b)) result }
{
    append_lemmas(text, book.kept().len(), book.lemmas())
}
