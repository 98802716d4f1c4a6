// Threads that learn the middle of the square in one book.
ghost use Rattle.std.specs.Prelude.{◌≡◌, ◌+◌, ◌≤◌, ◌<◌, All, IfOk, true, vec_len};
ghost use Rattle.book_lock.specs.Shared.{IsOnePartSeatOf, IsSeatOf, first_of, view};
ghost use Rattle.thread_rows.specs.TriedBookLock.{IsTried};
ghost use Rattle.sample_problems.specs.Small.{IsSmall};

use crate::made::problem;
use crate::swapped::{OPTIONS, Place, closing, is_kept_at};
use book_lock::{BookSeat, SharedBook};
use cover_book::{Book, Learned};
use cover_data::Margins;
use poly_graph::Problem;
use sample_problems::scripts::SWAPPED;
use std::alloc::{AllocError, Global};
use std::sync::Wait;
use std::sync::atomic::{AtomicU64, Ordering};
use std::thread::{Threads, for_each_mut};

// What is learned in which book: so many lemmas of the problem a thread, and the sum of their numbers, each with 1 added.
#[derive(Drop)]
struct Lessons<'a> {
    shared: &'a SharedBook,
    problem: &'a Problem,
    margins: &'a Margins,
    count: u32,
    sum: &'a AtomicU64,
}

// Learns them.
fn learn_each<R: Wait>(rt: &R, alloc: Global, lessons: &Lessons<'_>, seat: &mut BookSeat)
    requires tried { IsTried (first_of lessons.now.shared.now) lessons.now.problem.now lessons.now.margins.now }
    requires seat { IsOnePartSeatOf lessons.now.shared.now seat.old }
    ensures { IsOnePartSeatOf lessons.now.shared.now seat.new }
{
    for _ in 0..lessons.count {
        if let Some(patch) = closing(alloc, lessons.problem, lessons.margins) {
            if let Ok(id) = lessons.shared.learn(rt, seat, patch) {
                lessons.sum.fetch_add(u64::from(id) + 1, Ordering::SeqCst);
            }
        }
    }
}

// Each seat's thread does.
fn learn_all<R: Threads + Wait + Sync>(
    rt: &R,
    alloc: Global,
    lessons: &Lessons<'_>,
    seats: &mut [BookSeat],
)
    requires tried { IsTried (first_of lessons.now.shared.now) lessons.now.problem.now lessons.now.margins.now }
    requires seats { All (IsOnePartSeatOf lessons.now.shared.now) seats.old }
    ensures { All (IsOnePartSeatOf lessons.now.shared.now) seats.new }
{
    for_each_mut(
        rt,
        seats,
        64,
        &|_, seat| learn_each(rt, alloc, lessons, seat),
    );
}

// New seats, each with one part of this one's. Without memory nothing is split.
fn split_seats(
    shared: &SharedBook,
    alloc: Global,
    seat: &mut BookSeat,
    count: usize,
) -> Result<Vec<BookSeat>, AllocError>
    requires own { IsSeatOf shared.now seat.old }
    requires parts { count < (view seat.old).parts }
    ensures own { IsSeatOf shared.now seat.new }
    ensures parts { IfOk result (λ _. (view seat.new).parts + count ≡ (view seat.old).parts) }
    ensures seats { IfOk result (λ v. All (IsOnePartSeatOf shared.now) v.items) }
    ensures count { IfOk result (λ v. vec_len v ≡ count) }
{
    let mut seats = Vec::with_capacity(alloc, count)?;
    for _ in 0..count {
        seats.push_reserved(shared.split_seat(seat));
    }
    Ok(seats)
}

// Joins seats with a part each into this one, the last first.
fn join_seats(shared: &SharedBook, seat: &mut BookSeat, seats: Vec<BookSeat>)
    requires own { IsSeatOf shared.now seat.old }
    requires seats { All (IsOnePartSeatOf shared.now) seats.items }
    ensures own { IsSeatOf shared.now seat.new }
    ensures parts { (view seat.new).parts ≡ (view seat.old).parts + vec_len seats }
{
    let mut seats = seats;
    while let Some(other) = seats.pop() {
        shared.join_seat(seat, other);
    }
}

// So many threads do. Whether there was memory for their seats.
fn learn_in_threads<R: Threads + Wait + Sync>(
    rt: &R,
    alloc: Global,
    lessons: &Lessons<'_>,
    lead: &mut BookSeat,
    threads: u32,
) -> bool
    requires tried { IsTried (first_of lessons.now.shared.now) lessons.now.problem.now lessons.now.margins.now }
    requires own { IsSeatOf lessons.now.shared.now lead.old }
    requires parts { threads < (view lead.old).parts }
    ensures own { IsSeatOf lessons.now.shared.now lead.new }
    ensures parts { result ≡ true → (view lead.new).parts ≡ (view lead.old).parts }
{
    let Ok(mut seats) = split_seats(lessons.shared, alloc, lead, threads as usize) else {
        return false;
    };
    learn_all(rt, alloc, lessons, seats.as_mut_slice());
    join_seats(lessons.shared, lead, seats);
    true
}

// The book in which so many threads have learned so many lemmas each.
fn learned<R: Threads + Wait + Sync>(
    rt: &R,
    alloc: Global,
    problem: &Problem,
    threads: u32,
    count: u32,
    sum: &AtomicU64,
) -> Option<Book>
    requires problem { IsSmall problem.now }
    requires threads { (0 < threads) × (threads ≤ 100) }
{
    let margins = OPTIONS.margins();
    let Ok(copy) = problem.try_clone(alloc) else {
        return None;
    };
    let Ok(book) = Book::new(alloc, copy, OPTIONS) else {
        return None;
    };
    let Ok((shared, mut lead)) = SharedBook::share(alloc, book, threads + 1) else {
        return None;
    };
    let lessons = Lessons {
        shared: &shared,
        problem,
        margins: &margins,
        count,
        sum,
    };
    let done = learn_in_threads(rt, alloc, &lessons, &mut lead, threads);
    if done { Some(shared.close(lead)) } else { None }
}

fn is_middle(alloc: Global, book: &Book, lemma: &Learned) -> bool {
    is_kept_at(alloc, book.problem(), &lemma.state, Place::Middle)
}

// Whether the first two lemmas are of the middle.
fn begins_with_middle(alloc: Global, book: &Book) -> bool {
    match book.lemmas() {
        [first, second, ..] => is_middle(alloc, book, first) && is_middle(alloc, book, second),
        _ => false,
    }
}

// Whether so many threads that learn so many lemmas each leave them all in the book, each under a number of its own.
fn are_learned<R: Threads + Wait + Sync>(
    rt: &R,
    alloc: Global,
    threads: u32,
    count: u32,
) -> Option<bool> {
    if threads == 0 || threads > 100 || count > 10_000 {
        return None;
    }
    let problem = problem(alloc, SWAPPED)?;
    let sum = AtomicU64::new(0);
    let all = u64::from(threads * count);
    let book = learned(rt, alloc, &problem, threads, count, &sum)?;
    let is_sum = sum.load(Ordering::SeqCst) == all * (all + 1) / 2;
    Some(is_sum && book.lemmas().len() as u64 == all && begins_with_middle(alloc, &book))
}

// How many threads, and how many lemmas each.
const LEARNED: [(u32, u32); 3] = [(2, 1), (16, 1), (4, 10_000)];

#[test]
fn each_call_of_each_thread_is_in_the_book(rt: HostRuntime) {
    for (threads, count) in &LEARNED {
        assert!(rt;
            are_learned(&rt, rt.alloc(), *threads, *count) == Some(true),
            "{threads}"
        );
    }
}

fn may_cross<T: Send>() {}

fn may_be_shared<T: Sync>() {}

#[test]
fn seats_cross_threads_and_books_are_shared() {
    may_cross::<BookSeat>();
    may_cross::<SharedBook>();
    may_be_shared::<SharedBook>();
}
