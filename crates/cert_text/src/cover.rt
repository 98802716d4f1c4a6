// The certificate of a book.
ghost use Rattle.std.specs.Prelude.{◌≡◌, [], IfOk, OnOk};
ghost use Rattle.cover_book.specs.Model.{IsOfRoot};
ghost use Rattle.cert_text.specs.Means.{IsCertificateOf};
ghost use Rattle.cert_text.specs.Session.{HasAppendedBody};

use crate::append::{append_counted, append_plain};
use crate::facts::fits_certificate;
use crate::keyword::{Counted, Plain};
use crate::part::append_lemmas_of;
use crate::parts::append_header;
use crate::walk::append_cover;
use cover_book::Book;
use std::alloc::{AllocError, Global};

/// Appends the lemmas that a book learned, in the order of their numbers, its tree, or the line that the bounds of an axis
/// cross, and the end. Out of memory is its one error.
pub fn append_body(text: &mut Vec<u8>, alloc: Global, book: &Book) -> Result<(), AllocError>
    ensures { OnOk result (HasAppendedBody text.old.items book.now text.new.items) }
{
    append_lemmas_of(text, book)?;
    append_plain(text, Plain::Tree)?;
    append_cover(text, alloc, book.nodes())?;
    append_plain(text, Plain::End)
}

/// The certificate of a book that opened in the root state with no lemmas, as text: all its lemmas, in the order of their numbers, and its tree, with a line `open`
/// for each live node; where the declared bounds of an axis cross, the line that says so. It is accepted, and its value
/// is the states of the live nodes and those in which others are stuck, in the tree's order. Out of memory is its
/// one error.
pub fn write_cover(alloc: Global, book: &Book) -> Result<Vec<u8>, AllocError>
    ensures { book.now.kept ≡ [] → IsOfRoot book.now →
        IfOk result (λ text. IsCertificateOf book.now text.items) }
{
    let mut text = Vec::new(alloc);
    let options = book.options();
    append_header(&mut text, options.version, options)?;
    append_counted(&mut text, Counted::Cover, book.lemma_count())?;
    append_body(&mut text, alloc, book)?;
    fits_certificate(&text);
    Ok(text)
}
