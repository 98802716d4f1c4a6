// The search: by many workers on one book, and then by the caller alone.
ghost use Rattle.std.specs.Prelude.{◌≡◌, ◌≢◌, ◌⊎◌, ◌<◌, ◌≤◌, ◌-◌, true, false, cond, nat_le, length, map, All, IfOk, IfSome, OnOk, []};
ghost use Rattle.poly_graph.specs.ProblemViews.{problem_of};
ghost use Rattle.problem_session.specs.Session.{problems_of};
ghost use Rattle.cover_model.specs.Carried.{GoesOnFrom};
ghost use Rattle.cert_model.specs.SessionLaws.{IsSession};
ghost use Rattle.cover_book.specs.Limits.{IsWithinLimits};
ghost use Rattle.cover_data.specs.Margins.{AreMargins, margins_of, options_in};
ghost use Rattle.cover_book.specs.Model.{kept_from, opening, opening_with, problem_in, raised};
ghost use Rattle.cover_book.specs.Keeps.{IsBook};
ghost use Rattle.cover_book.specs.Verdict.{verdict_of};
ghost use Rattle.cover_book.specs.declared.verdict.BookVerdict.TheVariants as verdict;
ghost use Rattle.solve_core.specs.Reaches.{Reaches, IsSearched};
ghost use Rattle.cover_book.specs.Left.{LeavesDue};
ghost use Rattle.solve_core.specs.Search.{IsSearch, work_left};
ghost use Rattle.solve_core.specs.Solved.{IsInVersionOf, IsSolved, IsCheckWithin, IsProblemAt, IsOpeningAt, AreAppended, AreBooksInOneVersion};

use crate::gate::{Gate, NoGate};
use crate::search::Search;
use crate::team::search_together;
use box_worker::Room;
use cover_book::{Book, BookVerdict};
use cover_data::Options;
use poly_graph::{Declared, Problem};
use problem_session::Session;
use std::alloc::{AllocError, Global};
use std::marker::Brand;
use std::sync::Wait;
use std::thread::Threads;

// At most so many workers search side by side.
const MOST_WORKERS: u32 = 64;

// Threads start when so many boxes wait.
const ENOUGH: usize = 2;

// A search that may go over to the latest version does so once it has made more branches than these.
const FIRST_BRANCHES: u32 = 64;

// The latest version of the format.
const LATEST: u32 = 5;

// Until when the caller works alone.
#[derive(Clone, Copy)]
enum Until {
    // so many boxes wait
    Waiting(usize),
    // there are more branches
    Beyond(u32),
}

// Whether it is time.
fn is_time(until: Until, search: &Search) -> bool {
    match until {
        Until::Waiting(enough) => search.waiting.len() >= enough,
        Until::Beyond(first) => search.book.branches() > first,
    }
}

// Works on the next node, if there is one and no point is kept. Whether it did.
fn work_once<G: Gate>(
    alloc: Global,
    search: &mut Search,
    room: &mut Room,
    gate: &G,
) -> Result<bool, AllocError>
    requires search { IsSearch search.old search.old.waiting.items }
    requires room { room.old ≡ search.old.book.problem }
    ensures search { OnOk result (IsSearch search.new search.new.waiting.items) }
    ensures less { IfOk result (λ b. b ≡ true → work_left search.new < work_left search.old) }
    ensures over { IfOk result (λ b. b ≡ false → LeavesDue search.new.book) }
    ensures reached { Reaches search.old.book search.new.book }
    ensures room { room.new ≡ room.old }
{
    let Some(node) = search.next() else {
        return Ok(false);
    };
    gate.began(0, node);
    let done = search.visit(alloc, room, node);
    gate.ended(0, node);
    done?;
    Ok(true)
}

// As `work_once`, unless it is time.
fn work_until<G: Gate>(
    alloc: Global,
    search: &mut Search,
    room: &mut Room,
    until: Until,
    gate: &G,
) -> Result<bool, AllocError>
    requires search { IsSearch search.old search.old.waiting.items }
    requires room { room.old ≡ search.old.book.problem }
    ensures search { OnOk result (IsSearch search.new search.new.waiting.items) }
    ensures less { IfOk result (λ b. b ≡ true → work_left search.new < work_left search.old) }
    ensures reached { Reaches search.old.book search.new.book }
    ensures room { room.new ≡ room.old }
{
    if is_time(until, search) {
        return Ok(false);
    }
    work_once(alloc, search, room, gate)
}

// Works on node after node until it is time, a point is kept or none is left.
fn work_to_start<G: Gate>(
    alloc: Global,
    search: &mut Search,
    room: &mut Room,
    until: Until,
    gate: &G,
) -> Result<(), AllocError>
    requires search { IsSearch search.old search.old.waiting.items }
    requires room { room.old ≡ search.old.book.problem }
    ensures search { OnOk result (IsSearch search.new search.new.waiting.items) }
    ensures reached { Reaches search.old.book search.new.book }
{
    while work_until(alloc, search, room, until, gate)? {}
    Ok(())
}

// Works on node after node until a point is kept or none is left.
fn work_to_end<G: Gate>(
    alloc: Global,
    search: &mut Search,
    room: &mut Room,
    gate: &G,
) -> Result<(), AllocError>
    requires search { IsSearch search.old search.old.waiting.items }
    requires room { room.old ≡ search.old.book.problem }
    ensures reached { Reaches search.old.book search.new.book }
    ensures left { OnOk result (LeavesDue search.new.book) }
{
    while work_once(alloc, search, room, gate)? {}
    Ok(())
}

// As `work_to_start`, in room of its own.
fn start_work<G: Gate>(
    alloc: Global,
    search: &mut Search,
    problem: &Problem,
    until: Until,
    gate: &G,
) -> Result<(), AllocError>
    requires search { IsSearch search.old search.old.waiting.items }
    requires problem { search.old.book.problem ≡ problem.now }
    ensures search { OnOk result (IsSearch search.new search.new.waiting.items) }
    ensures reached { Reaches search.old.book search.new.book }
{
    let mut room = Room::new(problem);
    let done = work_to_start(alloc, search, &mut room, until, gate);
    drop(room);
    done
}

// As `work_to_end`, in room of its own.
fn finish_work<G: Gate>(
    alloc: Global,
    search: &mut Search,
    problem: &Problem,
    gate: &G,
) -> Result<(), AllocError>
    requires search { IsSearch search.old search.old.waiting.items }
    requires problem { search.old.book.problem ≡ problem.now }
    ensures reached { Reaches search.old.book search.new.book }
    ensures left { OnOk result (LeavesDue search.new.book) }
{
    let mut room = Room::new(problem);
    let done = work_to_end(alloc, search, &mut room, gate);
    drop(room);
    done
}

// As `start_work` until the book has more branches than these, and else as `finish_work`. Whether that is done.
fn work_at_first<G: Gate>(
    alloc: Global,
    search: &mut Search,
    problem: &Problem,
    branches: u32,
    gate: &G,
) -> Result<bool, AllocError>
    requires search { IsSearch search.old search.old.waiting.items }
    requires problem { search.old.book.problem ≡ problem.now }
    ensures reached { Reaches search.old.book search.new.book }
    ensures left { IfOk result (λ done. done ≡ true → LeavesDue search.new.book) }
{
    start_work(alloc, search, problem, Until::Beyond(branches), gate)?;
    if search.book.branches() > branches {
        return Ok(false);
    }
    finish_work(alloc, search, problem, gate)?;
    Ok(true)
}

// Works alone on a book of the problem until it has more branches than these, a point is kept or nothing is left to be
// done. The book then, and whether it is done.
fn begin<G: Gate>(
    alloc: Global,
    book: Book,
    problem: &Problem,
    branches: u32,
    gate: &G,
) -> Result<(Book, bool), AllocError>
    requires { book.problem ≡ problem.now }
    ensures reached { IfOk result (λ x. Reaches book x.0) }
    ensures left { IfOk result (λ x. x.1 ≡ true → LeavesDue x.0) }
{
    let mut search = Search::resume(alloc, book)?;
    let is_done = work_at_first(alloc, &mut search, problem, branches, gate)?;
    Ok((search.into_book(), is_done))
}

// A book of these options that is done without a branch, if the work on the whole box comes to that. No gate is called, since
// it would take the whole box for done.
fn close_whole(
    alloc: Global,
    problem: &Problem,
    options: &Options,
) -> Result<Option<Book>, AllocError>
    requires { IsWithinLimits problem.now options.now }
    ensures reached { IfOk result (λ o. IfSome o
        (λ b. Reaches (opening problem.now options.now) b)) }
    ensures left { IfOk result (λ o. IfSome o (λ b. LeavesDue b)) }
{
    let copy = problem.try_clone(alloc)?;
    let opened = Book::new(alloc, copy, *options)?;
    let (book, is_done) = begin(alloc, opened, problem, 0, &NoGate)?;
    if is_done {
        return Ok(Some(book));
    }
    Ok(None)
}

// Works alone at first: a problem of few boxes is done before threads start.
fn start<G: Gate>(
    alloc: Global,
    book: Book,
    problem: &Problem,
    gate: &G,
) -> Result<Book, AllocError>
    requires { book.problem ≡ problem.now }
    ensures reached { IfOk result (λ b. Reaches book b) }
    ensures problem { IfOk result (λ b. b.problem ≡ problem.now) }
    ensures options { IfOk result (λ b. b.options ≡ book.options) }
{
    let mut search = Search::resume(alloc, book)?;
    start_work(alloc, &mut search, problem, Until::Waiting(ENOUGH), gate)?;
    Ok(search.into_book())
}

// Goes on alone from a book of the problem, node by node, the lower part of a box before the upper one, until a point is
// kept, no node is live, or the budget is used up and nothing but a branch is left to be done at each live node.
fn finish<G: Gate>(
    alloc: Global,
    book: Book,
    problem: &Problem,
    gate: &G,
) -> Result<Book, AllocError>
    requires { book.problem ≡ problem.now }
    ensures reached { IfOk result (λ b. Reaches book b) }
    ensures verdict { IfOk result (λ b. verdict_of b ≢ verdict.NotYet) }
    ensures left { IfOk result (λ b. LeavesDue b) }
    ensures book { IfOk result (λ b. IsBook b) }
{
    let mut search = Search::resume(alloc, book)?;
    finish_work(alloc, &mut search, problem, gate)?;
    Ok(search.into_book())
}

// Searches on from a book of the problem. Where the options have more than one worker, so many of them, 64 at most,
// search on it side by side, once the caller has made two boxes, and the caller goes on alone from what they leave. No
// thread starts where the caller is done before.
fn search_from<R: Threads + Wait + Sync, G: Gate + Sync>(
    rt: &R,
    alloc: Global,
    book: Book,
    problem: &Problem,
    options: &Options,
    gate: &G,
) -> Result<Book, AllocError>
    requires problem { book.problem ≡ problem.now }
    requires options { book.options ≡ options.now }
    ensures reached { IfOk result (λ b. Reaches book b) }
    ensures verdict { IfOk result (λ b. verdict_of b ≢ verdict.NotYet) }
    ensures left { IfOk result (λ b. LeavesDue b) }
    ensures book { IfOk result (λ b. IsBook b) }
{
    let workers = options.workers.min(MOST_WORKERS);
    if workers < 2 {
        return finish(alloc, book, problem, gate);
    }
    let begun = start(alloc, book, problem, gate)?;
    if !matches!(begun.verdict(), BookVerdict::NotYet) {
        return finish(alloc, begun, problem, gate);
    }
    let book = search_together::<Brand, R, G>(rt, alloc, begun, problem, options, workers, gate);
    finish(alloc, book, problem, gate)
}

// Whether there is a choice of the axis that is cut: two axes or more are Real ones.
fn has_choice_of_axis(problem: &Problem) -> bool {
    let mut is_one = false;
    for axis in problem.axes() {
        if matches!(axis.declared, Declared::Real(_, _)) {
            if is_one {
                return true;
            }
            is_one = true;
        }
    }
    false
}

// Whether the search on the book may go over to version 5, and there is something to be chosen then.
fn may_go_over(book: &Book, problem: &Problem, options: &Options) -> bool
    ensures { result ≡ true → 5 ≤ options.now.version }
{
    book.options().version < 5 && options.version >= 5 && has_choice_of_axis(problem)
}

// The same book in version 5.
fn raised(book: Book) -> Book
    ensures { result ≡ raised book }
{
    let mut later = book;
    later.raise();
    later
}

// The book that a search begins with, and whether it is as it opened, without lemmas.
struct Origin {
    book: Book,
    is_new: bool,
}

// Searches on from a book of the problem. Where it is of version 2, the options are of version 5 and there is a choice of
// axes, the caller works alone at first, and once the book has more branches, the search goes over to version 5: a book
// that is as it opened begins anew, if its whole box is closed at once there, and else it goes on.
fn search_in_versions<R: Threads + Wait + Sync, G: Gate + Sync>(
    rt: &R,
    alloc: Global,
    origin: Origin,
    problem: &Problem,
    options: &Options,
    gate: &G,
) -> Result<Book, AllocError>
    requires problem { origin.book.problem ≡ problem.now }
    requires options { let v = origin.book.options.version in
        origin.book.options ≡ options_in v options.now }
    requires margins { AreMargins (margins_of options.now) }
    requires new { origin.is_new ≡ true → origin.book ≡ opening problem.now origin.book.options }
    requires limits { origin.is_new ≡ true → IsWithinLimits problem.now options.now }
    ensures searched { IfOk result (IsSearched origin.book) }
    ensures options { IfOk result (IsInVersionOf options.now origin.book.options.version) }
    ensures verdict { IfOk result (λ b. verdict_of b ≢ verdict.NotYet) }
    ensures left { IfOk result (λ b. LeavesDue b) }
    ensures book { IfOk result (λ b. IsBook b) }
{
    let Origin { book, is_new } = origin;
    if !may_go_over(&book, problem, options) {
        let own = *book.options();
        return search_from(rt, alloc, book, problem, &own, gate);
    }
    let (begun, is_done) = begin(alloc, book, problem, FIRST_BRANCHES, gate)?;
    if is_done {
        return Ok(begun);
    }
    if is_new {
        if let Some(anew) = close_whole(alloc, problem, options)? {
            return Ok(anew);
        }
    }
    search_from(rt, alloc, raised(begun), problem, options, gate)
}

/// Searches on from a book as it stands, by its own options but for the version: where the book is of version 2 and more
/// than one axis is a Real one, the caller works alone at first, and once the book has more than 64 branches, the search
/// goes on in version 5.
pub fn search_on<R: Threads + Wait + Sync, G: Gate + Sync>(
    rt: &R,
    alloc: Global,
    book: Book,
    gate: &G,
) -> Result<Book, AllocError>
    // The book is one of the same problem, options, first lemmas and first state, in its version or in version 5, and
    // calls on it lead to what is answered, or to a book that goes over to version 5 and leads to it.
    ensures problem { IfOk result (λ b. b.problem ≡ book.problem) }
    ensures options { IfOk result (λ b. b.options ≡ options_in b.options.version book.options) }
    ensures version { let v = book.options.version in
        IfOk result (λ b. (b.options.version ≡ v) ⊎ (b.options.version ≡ 5)) }
    ensures kept { IfOk result (λ b. b.kept ≡ book.kept) }
    ensures root { IfOk result (λ b. b.root ≡ book.root) }
    ensures book { IfOk result (λ b. IsBook b) }
    ensures searched { IfOk result (IsSearched book) }

    // It has an answer.
    ensures verdict { IfOk result (λ b. verdict_of b ≢ verdict.NotYet) }
    ensures left { IfOk result (λ b. LeavesDue b) }
{
    let problem = book.problem().try_clone(alloc)?;
    let options = book.options().in_version(LATEST);
    let origin = Origin {
        book,
        is_new: false,
    };
    search_in_versions(rt, alloc, origin, &problem, &options, gate)
}

/// Searches for a point of the problem, or for a cover of its declared box, from the opening book on. Where the options
/// have more than one worker, so many of them, 64 at most, search on one book side by side, once the caller has made
/// two boxes. Then the caller goes on alone from what they leave, until a point is kept, no node is live, or the budget
/// is used up and nothing but a branch is left to be done at each live node. With one worker the caller does all of it.
/// The gate is called before and after the work on each node, but for the attempt at the whole box in version 5.
///
/// The search begins in version 2 of the format. Where the options are of version 5 and more than one axis is a Real one,
/// the caller works alone at first. Once the book has more than 64 branches, the whole box is tried in version 5, and
/// where that does not close it at once, the search goes on in version 5.
pub fn solve<R: Threads + Wait + Sync, G: Gate + Sync>(
    rt: &R,
    alloc: Global,
    problem: &Problem,
    options: &Options,
    gate: &G,
) -> Result<Book, AllocError>
    requires { IsWithinLimits problem.now options.now }
    // The book is one of this problem and these options, in version 2 or that of the options, and calls on the opening
    // book lead to it, or to one that goes over to version 5 and leads to it.
    ensures problem { IfOk result (λ b. b.problem ≡ problem.now) }
    ensures options { IfOk result (IsInVersionOf options.now 2) }
    ensures book { IfOk result (λ b. IsBook b) }
    ensures searched { IfOk result (IsSearched (opening problem.now (options_in 2 options.now))) }

    // It has an answer.
    ensures verdict { IfOk result (λ b. verdict_of b ≢ verdict.NotYet) }
    ensures left { IfOk result (λ b. LeavesDue b) }
{
    let copy = problem.try_clone(alloc)?;
    let book = Book::new(alloc, copy, options.in_version(2))?;
    let origin = Origin { book, is_new: true };
    search_in_versions(rt, alloc, origin, problem, options, gate)
}

// The book that opens the search at the check behind that of the old book, whose problem this is: with the lemmas of
// the old one, where it goes on from that.
fn opened(alloc: Global, old: &Book, problem: Problem, goes_on: bool) -> Result<Book, AllocError>
    requires limits { IsWithinLimits problem old.now.options }
    requires on { goes_on ≡ true → GoesOnFrom (problem_in old.now) (problem_of problem) }
    ensures { let kept = cond goes_on (kept_from old.now problem) [] in
        IfOk result (λ b. b ≡ opening_with problem old.now.options kept) }
{
    if goes_on {
        Book::carry(alloc, old, problem)
    } else {
        Book::new(alloc, problem, *old.options())
    }
}

// The problem of the check of this number, and the book that opens the search at it, where the old book is of the check
// before.
fn open_next(
    alloc: Global,
    session: &Session,
    k: usize,
    old: &Book,
) -> Result<(Problem, Book), AllocError>
    requires session { IsSession (problems_of session.now) }
    requires limits { All (IsCheckWithin old.now.options) session.now }
    requires first { 1 ≤ k }
    requires within { k < length session.now }
    requires old { IsProblemAt session.now (k - 1) old.now.problem }
    ensures { IfOk result (λ x. IsOpeningAt session.now (k - 1) old.now x.0 x.1) }
{
    let problem = session.next(alloc, k - 1, old.problem())?;
    let copy = problem.try_clone(alloc)?;
    let book = opened(alloc, old, copy, session.extends(k))?;
    Ok((problem, book))
}

// Searches at the check of this number, where the old book is of the check before: in the version of that at first.
fn solve_next<R: Threads + Wait + Sync, G: Gate + Sync>(
    rt: &R,
    alloc: Global,
    options: &Options,
    opened: (Problem, Book),
    gate: &G,
) -> Result<Book, AllocError>
    requires problem { opened.1.problem ≡ opened.0 }
    requires options { opened.1.options ≡ options_in opened.1.options.version options.now }
    requires margins { AreMargins (margins_of options.now) }
    ensures searched { IfOk result (IsSearched opened.1) }
    ensures options { IfOk result (IsInVersionOf options.now opened.1.options.version) }
    ensures verdict { IfOk result (λ b. verdict_of b ≢ verdict.NotYet) }
    ensures left { IfOk result (λ b. LeavesDue b) }
    ensures book { IfOk result (λ b. IsBook b) }
{
    let (problem, book) = opened;
    let origin = Origin {
        book,
        is_new: false,
    };
    search_in_versions(rt, alloc, origin, &problem, options, gate)
}

// Searches at the first check.
fn solve_first<R: Threads + Wait + Sync, G: Gate + Sync>(
    rt: &R,
    alloc: Global,
    session: &Session,
    options: &Options,
    gate: &G,
) -> Result<Book, AllocError>
    requires session { IsSession (problems_of session.now) }
    requires limits { All (IsCheckWithin options.now) session.now }
    ensures at { IfOk result (λ b. IsProblemAt session.now 0 b.problem) }
    ensures options { IfOk result (IsInVersionOf options.now 2) }
    ensures kept { IfOk result (λ b. b.kept ≡ []) }
    ensures book { IfOk result (λ b. IsBook b) }
    ensures solved { IfOk result (λ b. IsSolved b) }
{
    let problem = session.first(alloc)?;
    solve(rt, alloc, &problem, options, gate)
}

// The books go over to version 5, where this is one.
fn raise_to(version: u32, books: &mut [Book])
    ensures { books.new ≡ cond (nat_le 5 version) (map raised books.old) books.old }
{
    if version < 5 {
        return;
    }
    for book in books.iter_mut() {
        book.raise();
    }
}

// Appends a book, once the others are of its version.
fn append(books: &mut Vec<Book>, book: Book) -> Result<(), AllocError>
    ensures { OnOk result (AreAppended books.old.items book books.new.items) }
{
    raise_to(book.options().version, books.as_mut_slice());
    books.push(book)?;
    Ok(())
}

// Searches at each check, and appends the books.
fn solve_each<R: Threads + Wait + Sync, G: Gate + Sync>(
    rt: &R,
    alloc: Global,
    session: &Session,
    options: &Options,
    gate: &G,
    books: &mut Vec<Book>,
) -> Result<(), AllocError>
    requires session { IsSession (problems_of session.now) }
    requires limits { All (IsCheckWithin options.now) session.now }
    requires none { books.old.items ≡ [] }
    ensures books { OnOk result (AreBooksInOneVersion options.now session.now books.new.items) }
    ensures solved { OnOk result (All IsSolved books.new.items) }
{
    let book = solve_first(rt, alloc, session, options, gate)?;
    books.push(book)?;
    for k in 1..session.len() {
        let opened = open_next(alloc, session, k, &books[k - 1])?;
        let book = solve_next(rt, alloc, options, opened, gate)?;
        append(books, book)?;
    }
    Ok(())
}

/// Searches at each check of a script, in order, as `solve` does. Where all commands of the check before are in force, the
/// search begins with the lemmas of the book before. Each search begins in the version of the one before; in the end all
/// books are of the version of the last one.
pub fn solve_all<R: Threads + Wait + Sync, G: Gate + Sync>(
    rt: &R,
    alloc: Global,
    session: &Session,
    options: &Options,
    gate: &G,
) -> Result<Vec<Book>, AllocError>
    requires session { IsSession (problems_of session.now) }
    requires limits { All (IsCheckWithin options.now) session.now }
    // The books are those of the checks, each with the lemmas that it may keep of the one before, in version 2 or that of
    // the options.
    ensures books { IfOk result (λ v. AreBooksInOneVersion options.now session.now v.items) }

    // Calls on each as it opened lead to it, and it has an answer.
    ensures solved { IfOk result (λ v. All IsSolved v.items) }
{
    let mut books = Vec::new(alloc);
    solve_each(rt, alloc, session, options, gate, &mut books)?;
    Ok(books)
}
