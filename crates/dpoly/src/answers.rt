// From the books that searches left to their certificate and their answers.
ghost use Rattle.std.specs.Prelude.{◌≡◌, [], ◌∷◌, Bool, List, None, Some, IfOk};
ghost use Rattle.command_line.specs.declared.request.Options.{Options};
ghost use Rattle.cover_book.specs.Keeps.{IsBook};
ghost use Rattle.cover_book.specs.Model.{IsOfRoot, problem_in};
ghost use Rattle.poly_graph.specs.ProblemViews.{Parts};
ghost use Rattle.problem_session.specs.Session.{problems_of};
ghost use Rattle.solve_core.specs.Solved.{AreBooksInOneVersion};
ghost use Rattle.cover_book.specs.Verdict.{verdict_of};
ghost use Rattle.cover_book.specs.declared.verdict.BookVerdict.TheVariants as verdict;
ghost use Rattle.dpoly.specs.Minimize.{IsLeftAnswer};
ghost use Rattle.dpoly.specs.Search.{search_options as options_of, AreLeftBy, AreSearchAnswers, IsLeftBy, IsSearchAnswer, SayOf, SaysLeft, SaysOf};

use cert_text::{first_stuck, write_cover, write_point, write_session};
use command_line::Options;
use cover_book::{Book, BookVerdict};
use cover_rule::Point;
use std::alloc::{AllocError, Global};

/// A certificate, and the text of the answers.
#[derive(Debug, Drop)]
pub struct SearchAnswer {
    pub cert: Vec<u8>,
    pub text: Vec<u8>,
}

// The latest version of the format that a search may write.
const LATEST: u32 = 5;

/// What the words ask of a search.
pub fn search_options(options: &Options) -> cover_rule::Options
    ensures { result ≡ options_of options.now }
{
    cover_rule::Options {
        delta_bits: options.delta_bits,
        margin_bits: options.margin_bits,
        least_bits: options.least_bits,
        version: LATEST,
        budget: options.budget,
        workers: options.workers,
        bound: options.bound,
    }
}

// Shows what the type of a book keeps. A proof sees it only as what a call ensures.
fn book_is_sound(book: &Book)
    ensures { IsBook book.now }
{
    book.nodes();
}

// The text of the point that is kept, with its certificate.
fn tell_point(
    alloc: Global,
    book: &Book,
    options: &Options,
    point: &Point,
) -> Result<SearchAnswer, AllocError>
    requires left { IsLeftBy options.now book.now }
    requires kept { book.now.point ≡ Some point.now }
    ensures { IfOk result (λ told. IsSearchAnswer (problem_in book.now) options.now told) }
{
    let problem = book.problem();
    let cert = write_point(alloc, problem, book.options(), point)?;
    let text = check_run::delta_sat(alloc, problem, options.delta_bits, point.space())?;
    Ok(SearchAnswer { cert, text })
}

// The text of the first stuck box, in the tree's order.
fn width_text(alloc: Global, book: &Book) -> Result<Vec<u8>, AllocError>
    requires { verdict_of book.now ≡ verdict.UnknownWidth }
    ensures { IfOk result (λ text. (options : Options) → SaysLeft options book.now text.items) }
{
    let problem = book.problem();
    match first_stuck(alloc, book)? {
        Some(found) => check_run::width(alloc, problem, found.state.space(), found.atom),
        None => unreachable!(),
    }
}

// The text of what the book leaves.
fn left_text(alloc: Global, book: &Book, options: &Options) -> Result<Vec<u8>, AllocError>
    requires left { IsLeftBy options.now book.now }
    requires no_point { book.now.point ≡ None }
    ensures { IfOk result (λ text. SaysLeft options.now book.now text.items) }
{
    book_is_sound(book);
    match book.verdict() {
        BookVerdict::UnknownBudget => check_run::budget(alloc, u64::from(options.budget)),
        BookVerdict::UnknownWidth => width_text(alloc, book),
        BookVerdict::Unsat => check_run::unsat(alloc, options.margin_bits),
        BookVerdict::DeltaSat | BookVerdict::NotYet => unreachable!(),
    }
}

/// The certificate of a book without a point that a search left, and its answer.
pub fn tell_left(alloc: Global, book: &Book, options: &Options) -> Result<SearchAnswer, AllocError>
    requires left { IsLeftBy options.now book.now }
    requires alone { book.now.kept ≡ [] }
    requires root { IsOfRoot book.now }
    requires no_point { book.now.point ≡ None }
    ensures { IfOk result (λ told. IsLeftAnswer (problem_in book.now) options.now told) }
{
    book_is_sound(book);
    let cert = write_cover(alloc, book)?;
    let text = left_text(alloc, book, options)?;
    Ok(SearchAnswer { cert, text })
}

/// The certificate of a book that a search left, and its answer.
pub fn tell(alloc: Global, book: &Book, options: &Options) -> Result<SearchAnswer, AllocError>
    requires left { IsLeftBy options.now book.now }
    requires alone { book.now.kept ≡ [] }
    requires root { IsOfRoot book.now }
    ensures { IfOk result (λ told. IsSearchAnswer (problem_in book.now) options.now told) }
{
    match book.point() {
        Some(point) => tell_point(alloc, book, options, point),
        None => tell_left(alloc, book, options),
    }
}

// The text of a book's answer.
fn text_of(alloc: Global, book: &Book, options: &Options) -> Result<Vec<u8>, AllocError>
    requires { IsLeftBy options.now book.now }
    ensures { IfOk result (λ text. SaysOf options.now book.now text.items) }
{
    book_is_sound(book);
    match book.point() {
        Some(point) => {
            let problem = book.problem();
            check_run::delta_sat(alloc, problem, options.delta_bits, point.space())
        }
        None => left_text(alloc, book, options),
    }
}

// The texts of the answers of books, one after the other.
fn texts_of(alloc: Global, books: &[Book], options: &Options) -> Result<Vec<u8>, AllocError>
    requires { AreLeftBy options.now books.now }
    ensures { IfOk result (λ text. SayOf options.now books.now text.items) }
{
    let mut text = Vec::new(alloc);
    for book in books {
        let one = text_of(alloc, book, options)?;
        text.extend_from_slice(&one)?;
    }
    Ok(text)
}

/// The certificate of the books that searches left at two checks or more, and their answers.
pub fn tell_all(
    alloc: Global,
    books: &[Book],
    options: &Options,
) -> Result<SearchAnswer, AllocError>
    requires { AreLeftBy options.now books.now }
    ensures { (c d : Parts × Bool) (later : List (Parts × Bool)) →
        AreBooksInOneVersion (options_of options.now) (c ∷ d ∷ later) books.now →
        IfOk result (λ told. AreSearchAnswers (problems_of (c ∷ d ∷ later)) options.now told) }
{
    let cert = write_session(alloc, books)?;
    let text = texts_of(alloc, books, options)?;
    Ok(SearchAnswer { cert, text })
}
