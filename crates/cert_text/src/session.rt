// The certificate of the books of several checks.
ghost use Rattle.std.specs.Prelude.{◌≡◌, IfOk, None, OnOk};
ghost use Rattle.cert_text.specs.Session.{HasAppendedPart, HasAppendedParts, IsSessionCertificateOf, session_version};

use crate::append::append_counted;
use crate::cover::append_body;
use crate::facts::fits_certificate;
use crate::keyword::Counted;
use crate::parts::append_header;
use crate::point::append_whole_point;
use cover_book::Book;
use std::alloc::{AllocError, Global};

// A certificate has at most so many parts.
const MOST_PARTS: usize = 4_294_967_295;

// The version of a certificate of several checks whose parts have the lines of this version.
fn session_version(version: u32) -> u32
    ensures { result ≡ session_version version }
{
    if version == 2 { 3 } else { version }
}

// The number of a book's lemmas, how many of them it opened with, and the others with its tree.
fn append_cover_part(text: &mut Vec<u8>, alloc: Global, book: &Book) -> Result<(), AllocError>
    requires { book.now.point ≡ None }
    ensures { OnOk result (HasAppendedPart text.old.items book.now text.new.items) }
{
    append_counted(text, Counted::Cover, book.lemma_count())?;
    append_counted(text, Counted::Keep, book.kept().len() as u32)?;
    append_body(text, alloc, book)
}

// The part of a book: its point where it keeps one, else its cover.
fn append_part(text: &mut Vec<u8>, alloc: Global, book: &Book) -> Result<(), AllocError>
    ensures { OnOk result (HasAppendedPart text.old.items book.now text.new.items) }
{
    match book.point() {
        Some(point) => append_whole_point(text, point.space()),
        None => append_cover_part(text, alloc, book),
    }
}

// The parts of the books, in order.
fn append_parts(text: &mut Vec<u8>, alloc: Global, books: &[Book]) -> Result<(), AllocError>
    ensures { OnOk result (HasAppendedParts text.old.items books.now text.new.items) }
{
    for k in 0..books.len() {
        append_part(text, alloc, &books[k])?;
    }
    Ok(())
}

/// The certificate of the books of a script's checks, of which there are two at least, as text: a part for each. It is
/// accepted, and the value of a part is the point that the book keeps, or else the states of its live nodes and those in
/// which others are stuck, in the tree's order. Out of memory, and more books than a certificate has numbers for, is its
/// one error.
pub fn write_session(alloc: Global, books: &[Book]) -> Result<Vec<u8>, AllocError>
    ensures { IfOk result (λ text. IsSessionCertificateOf books.now text.items) }
{
    if books.len() > MOST_PARTS {
        return Err(AllocError);
    }
    let mut text = Vec::new(alloc);
    let Some(first) = books.first() else {
        return Ok(text);
    };
    let options = first.options();
    append_header(&mut text, session_version(options.version), options)?;
    append_counted(&mut text, Counted::Checks, books.len() as u32)?;
    append_parts(&mut text, alloc, books)?;
    fits_certificate(&text);
    Ok(text)
}
