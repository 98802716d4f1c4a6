// The calls on a book that threads share.
ghost use Rattle.std.specs.Prelude.{◌≡◌, ◌<◌, IfOk, IfErr};
ghost use Rattle.cover_book.specs.Keeps.{IsBook};
ghost use Rattle.cover_book.specs.Steps.{MayBeCalled};
ghost use Rattle.cover_book.specs.declared.calls.Call.TheVariants.{Commit, Learn, Find, StateOf, LemmasFrom};
ghost use Rattle.cover_book.specs.declared.calls.Reply.TheVariants.{Committed, Learned, Found, LiveState, Lemmas, Refused};
ghost use Rattle.cover_book.specs.declared.refusal.BookRefusal.TheVariants.{Memory};
ghost use Rattle.book_lock.specs.Laws.{IsBookAfter};
ghost use Rattle.book_lock.specs.Rule.{first_view};
ghost use Rattle.book_lock.specs.Shared.{IsSeatOf, IsReply, ResultReply, IsSplit, IsJoined, IsOutcome, view, first_of, parts_of};

use crate::lock::SharedObject;
use crate::seat::ObjectSeat;
use crate::shared::{BookSeat, SharedBook};
use cover_book::{Book, BookRefusal, Call, Kids, Reply};
use cover_data::{ClosedPatch, KeptPatch, Lemma, Point, State};
use std::alloc::{AllocError, Global};
use std::sync::Wait;

impl SharedBook {
    /// Shares a book in so many parts, all of which the seat has; each seat that is split off takes one. Without memory
    /// the book comes back.
    pub fn share(alloc: Global, book: Book, parts: u32) -> Result<(SharedBook, BookSeat), Book>
        requires { 0 < parts }
        ensures own { IfOk result (λ t. IsSeatOf t.0 t.1) }
        ensures first { IfOk result (λ t. first_of t.0 ≡ book) }
        ensures parts { IfOk result (λ t. parts_of t.0 ≡ parts) }
        ensures book { IfOk result (λ t. IsBook (first_of t.0)) }
        ensures view { IfOk result (λ t. view t.1 ≡ first_view book parts) }
        ensures err { IfErr result (λ b. b ≡ book) }
    {
        // What the type of a book keeps, which a proof sees as what this call ensures.
        let _ = book.branches();
        let (lock, seat) = SharedObject::share(alloc, book, parts)?;
        Ok((SharedBook { lock }, ObjectSeat::at_rest(seat)))
    }

    /// `Book::commit`, when the seat's turn has come.
    pub fn commit<W: Wait>(
        &self,
        rt: &W,
        seat: &mut BookSeat,
        node: u32,
        patch: KeptPatch,
    ) -> Result<Kids, BookRefusal>
        requires own { IsSeatOf self.now seat.old }
        requires meets { MayBeCalled (first_of self.now) (Commit node patch) }
        ensures own { IsSeatOf self.now seat.new }
        ensures reply { ResultReply Committed seat.old (Commit node patch) result seat.new }
    {
        match self
            .lock
            .call(rt, &mut seat.place, Call::Commit(node, patch))
        {
            Reply::Committed(kids) => Ok(kids),
            Reply::Refused(refusal) => Err(refusal),
            _ => unreachable!(),
        }
    }

    /// `Book::learn`, when the seat's turn has come.
    pub fn learn<W: Wait>(
        &self,
        rt: &W,
        seat: &mut BookSeat,
        patch: ClosedPatch,
    ) -> Result<u32, BookRefusal>
        requires own { IsSeatOf self.now seat.old }
        requires meets { MayBeCalled (first_of self.now) (Learn patch) }
        ensures own { IsSeatOf self.now seat.new }
        ensures reply { ResultReply Learned seat.old (Learn patch) result seat.new }
    {
        match self.lock.call(rt, &mut seat.place, Call::Learn(patch)) {
            Reply::Learned(id) => Ok(id),
            Reply::Refused(refusal) => Err(refusal),
            _ => unreachable!(),
        }
    }

    /// `Book::found`, when the seat's turn has come.
    pub fn found<W: Wait>(
        &self,
        rt: &W,
        seat: &mut BookSeat,
        node: u32,
        point: Point,
    ) -> Result<(), BookRefusal>
        requires own { IsSeatOf self.now seat.old }
        requires meets { MayBeCalled (first_of self.now) (Find node point) }
        ensures own { IsSeatOf self.now seat.new }
        ensures reply { ResultReply (λ _. Found) seat.old (Find node point) result seat.new }
    {
        match self.lock.call(rt, &mut seat.place, Call::Find(node, point)) {
            Reply::Found => Ok(()),
            Reply::Refused(refusal) => Err(refusal),
            _ => unreachable!(),
        }
    }

    /// `Book::state_of`, when the seat's turn has come.
    pub fn state_of<W: Wait>(
        &self,
        rt: &W,
        seat: &mut BookSeat,
        node: u32,
    ) -> Result<State, BookRefusal>
        requires { IsSeatOf self.now seat.old }
        ensures own { IsSeatOf self.now seat.new }
        ensures reply { ResultReply LiveState seat.old (StateOf node) result seat.new }
    {
        match self.lock.call(rt, &mut seat.place, Call::StateOf(node)) {
            Reply::LiveState(state) => Ok(state),
            Reply::Refused(refusal) => Err(refusal),
            _ => unreachable!(),
        }
    }

    /// `Book::lemmas_from`, when the seat's turn has come.
    pub fn lemmas_from<W: Wait>(
        &self,
        rt: &W,
        seat: &mut BookSeat,
        from: u32,
    ) -> Result<Vec<Lemma>, AllocError>
        requires { IsSeatOf self.now seat.old }
        ensures own { IsSeatOf self.now seat.new }
        ensures ok { IfOk result (λ v. IsReply seat.old (LemmasFrom from) (Lemmas v) seat.new) }
        ensures err { IfErr result (λ _.
            IsReply seat.old (LemmasFrom from) (Refused Memory) seat.new) }
    {
        match self.lock.call(rt, &mut seat.place, Call::LemmasFrom(from)) {
            Reply::Lemmas(lemmas) => Ok(lemmas),
            Reply::Refused(_) => Err(AllocError),
            _ => unreachable!(),
        }
    }

    /// A new seat with one part of this one's: it has a number of its own and no calls, and has seen as much.
    pub fn split_seat(&self, seat: &mut BookSeat) -> BookSeat
        requires own { IsSeatOf self.now seat.old }
        requires parts { 1 < (view seat.old).parts }
        ensures own { IsSeatOf self.now seat.new }
        ensures own_new { IsSeatOf self.now result }
        ensures split { IsSplit seat.old seat.new result }
    {
        ObjectSeat::at_rest(self.lock.split_seat(&mut seat.place))
    }

    /// Joins another seat into this one, with its parts, its calls and what it has seen.
    pub fn join_seat(&self, seat: &mut BookSeat, other: BookSeat)
        requires own { IsSeatOf self.now seat.old }
        requires own_other { IsSeatOf self.now other }
        ensures own { IsSeatOf self.now seat.new }
        ensures joined { IsJoined seat.old other seat.new }
    {
        let ObjectSeat { place: other } = other;
        self.lock.join_seat(&mut seat.place, other);
    }

    /// The book at the end, for the seat that has every part.
    pub fn close(self, seat: BookSeat) -> Book
        requires own { IsSeatOf self seat }
        requires whole { (view seat).parts ≡ parts_of self }
        ensures outcome { IsOutcome self seat result }
        ensures after { IsBook (first_of self) → IsBookAfter (first_of self) result }
    {
        let SharedBook { lock } = self;
        let ObjectSeat { place: seat } = seat;
        lock.close(seat)
    }
}
