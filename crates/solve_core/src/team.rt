// Many workers on one book.
ghost use Rattle.std.specs.Prelude.{◌≡◌, false, ◌+◌, ◌*◌, ◌<◌, ◌≤◌, All, IfOk, IfErr, vec_len};
ghost use Rattle.steal_pool.specs.Account.{has_left};
ghost use Rattle.steal_pool.specs.Pool.{AllStay};
ghost use Rattle.cover_book.specs.Keeps.{IsBook};
ghost use Rattle.cover_book.specs.Model.{margins_of};
ghost use Rattle.book_lock.specs.Shared.{IsSeatOf, first_of, view};
ghost use Rattle.lemma_shelf.specs.Lemmas.{IsLemmaOf};
ghost use Rattle.solve_core.specs.Reaches.{Reaches};
ghost use Rattle.solve_core.specs.Members.{IsMemberOf, HasSeatsOf};

use crate::asker::BookLemmas;
use crate::gate::Gate;
use crate::member::Member;
use crate::search::{first_handed, has_choice};
use crate::task::Task;
use crate::worker::Worker;
use book_lock::{BookSeat, SharedBook};
use cover_book::Book;
use cover_data::{Lemma, Options};
use lemma_shelf::{Shelf, Subject};
use poly_graph::Problem;
use std::alloc::{AllocError, Global};
use std::sync::Wait;
use std::thread::{Threads, for_each_mut};
use steal_pool::{Hand, Pool};

// Puts the nodes on offer, as far as there is room.
fn offer_all(hand: &mut Hand, nodes: &[u32])
    requires { has_left hand.old ≡ false }
    ensures { has_left hand.new ≡ false }
{
    for node in nodes {
        let _ = hand.push(*node);
    }
}

// The live nodes of a book, and the lemmas of it that are handed on.
fn at_hand(alloc: Global, book: &Book) -> Result<(Vec<u32>, Vec<Lemma>), AllocError>
    ensures { IfOk result (λ x.
        All (IsLemmaOf book.now.problem (margins_of book.now.options)) x.1.items) }
{
    let nodes = book.live_nodes().collect::<Vec<u32>>(alloc)?;
    let lemmas = book.lemmas_from(first_handed(book))?;
    Ok((nodes, lemmas))
}

// A worker for each hand, with two parts of the seat, which asks for lemmas from this number on. The one that is made
// last has number 0 and offers the nodes.
fn enlist<'a>(
    alloc: Global,
    shared: &'a SharedBook,
    lead: &mut BookSeat,
    hands: Vec<Hand>,
    nodes: &[u32],
    from: u32,
) -> Result<Vec<Member<'a>>, AllocError>
    requires few { vec_len hands ≤ 64 }
    requires stay { AllStay hands.items }
    requires book { IsBook (first_of shared.now) }
    requires own { IsSeatOf shared.now lead.old }
    requires parts { 2 * vec_len hands < (view lead.old).parts }
    ensures own { IsSeatOf shared.now lead.new }
    ensures team { IfOk result (λ v. All (IsMemberOf shared.now) v.items) }
    ensures parts { IfOk result (λ v.
        (view lead.new).parts + 2 * vec_len v ≡ (view lead.old).parts) }
    ensures none { IfErr result (λ _. view lead.new ≡ view lead.old) }
{
    let mut hands = hands;
    let mut team = Vec::with_capacity(alloc, hands.len())?;
    while let Some(hand) = hands.pop() {
        let mut hand = hand;
        if hands.is_empty() {
            offer_all(&mut hand, nodes);
        }
        let seat = shared.split_seat(lead);
        let worker = Worker::new(alloc, hands.len() as u32, hand, seat);
        let second = shared.split_seat(lead);
        let asker = BookLemmas::new(shared, second, from);
        team.push_reserved(Member { worker, asker });
    }
    Ok(team)
}

// Each worker works in a thread of its own, or in turn where no thread can be had.
fn run_team<J: Subject + Send + Sync, R: Threads + Wait + Sync, G: Gate + Sync>(
    rt: &R,
    alloc: Global,
    task: &Task<J>,
    gate: &G,
    team: &mut [Member],
)
    requires { All (IsMemberOf task.now.shared.now) team.old }
    ensures { All (HasSeatsOf task.now.shared.now) team.new }
{
    for_each_mut(
        rt,
        team,
        64,
        &|_, member| member.work(rt, alloc, task, gate),
    );
}

// Takes the seats of all workers back. The nodes that they kept to themselves are live in the book.
fn dismiss(shared: &SharedBook, lead: &mut BookSeat, team: Vec<Member>)
    requires own { IsSeatOf shared.now lead.old }
    requires team { All (HasSeatsOf shared.now) team.items }
    ensures own { IsSeatOf shared.now lead.new }
    ensures parts { (view lead.new).parts ≡ (view lead.old).parts + 2 * vec_len team.entry }
{
    let mut team = team;
    while let Some(member) = team.pop() {
        let Member { worker, asker } = member;
        let Worker {
            number: _,
            hand: _,
            seat,
            waiting: _,
            lemmas: _,
        } = worker;
        let BookLemmas {
            shared: _,
            seat: second,
            from: _,
        } = asker;
        shared.join_seat(lead, seat);
        shared.join_seat(lead, second);
    }
}

/// Has so many workers search on the book side by side, with its latest lemmas at hand. What they leave live is for the
/// caller to go on with: they stop where a point is kept, where all boxes that they know of are done or wait because
/// the budget is spent, and where memory runs out. Where there is no memory for them the book is as it was. The subject
/// is the problem at the margins of the options.
pub fn search_together<J: Subject + Send + Sync, R: Threads + Wait + Sync, G: Gate + Sync>(
    rt: &R,
    alloc: Global,
    book: Book,
    problem: &Problem,
    options: &Options,
    workers: u32,
    gate: &G,
) -> Book
    requires workers { (1 ≤ workers) × (workers ≤ 64) }
    requires problem { book.problem ≡ problem.now }
    requires options { book.options ≡ options.now }
    requires subject_problem { J.problem ≡ problem.now }
    requires subject_margins { J.margins ≡ margins_of options.now }
    ensures { Reaches book result }
{
    let Ok((nodes, lemmas)) = at_hand(alloc, &book) else {
        return book;
    };
    if nodes.is_empty() {
        return book;
    }
    let Ok(hands) = Pool::new(alloc, workers as usize) else {
        return book;
    };
    let from = first_handed(&book);
    let (shared, mut lead) = match SharedBook::share(alloc, book, 2 * workers + 1) {
        Ok(parts) => parts,
        Err(book) => return book,
    };
    if let Ok(mut team) = enlist(alloc, &shared, &mut lead, hands, &nodes, from) {
        let task = Task {
            shared: &shared,
            problem,
            options,
            learns: has_choice(problem),
            shelf: Shelf::<J>::new(alloc).ok(),
        };
        task.post_all(rt, lemmas);
        run_team(rt, alloc, &task, gate, team.as_mut_slice());
        dismiss(&shared, &mut lead, team);
    }
    shared.close(lead)
}
