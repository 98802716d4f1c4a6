// The certificate whose cover is that of a book of the problem with a limit of its goal.
ghost use Rattle.std.specs.Prelude.{◌≡◌, [], IfOk};
ghost use Rattle.cover_book.specs.Model.{IsOfRoot};
ghost use Rattle.cover_book.specs.Verdict.{verdict_of};
ghost use Rattle.cover_book.specs.declared.verdict.BookVerdict.TheVariants as verdict;
ghost use Rattle.least_text.specs.Calls.{IsLimitedText};

use crate::facts::fits_certificate;
use crate::header::append_least_header;
use cert_text::keyword::Counted;
use cert_text::{append_body, append_counted, append_whole_point};
use cover_book::Book;
use dyadic::Dy;
use ival::Space;
use std::alloc::{AllocError, Global};

/// The certificate of a least value whose cover is that of a book of the problem with the bound `lower`, a multiple of
/// `2^-bits`, as a limit of the goal, and of a point, as text. It is accepted for the problem without the limit, where the
/// book opened in the root state with no lemmas and leaves nothing, and the point is shown. Out of memory is its one
/// error.
pub fn write_limited(
    alloc: Global,
    book: &Book,
    bits: u32,
    lower: Dy,
    point: &Space,
) -> Result<Vec<u8>, AllocError>
    ensures { book.now.kept ≡ [] → IsOfRoot book.now → verdict_of book.now ≡ verdict.Unsat →
        IfOk result (IsLimitedText book.now bits lower point.now) }
{
    let mut text = Vec::new(alloc);
    append_least_header(&mut text, book.options(), Some(lower))?;
    append_counted(&mut text, Counted::Goal, bits)?;
    append_counted(&mut text, Counted::Cover, book.lemma_count())?;
    append_body(&mut text, alloc, book)?;
    append_whole_point(&mut text, point)?;
    fits_certificate(&text);
    Ok(text)
}
