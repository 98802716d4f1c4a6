// One of the workers that search on a shared book.
ghost use Rattle.std.specs.Prelude.{◌≡◌, [], All, IfOk, IfSome, Some, false};
ghost use Rattle.steal_pool.specs.Account.{has_left};
ghost use Rattle.book_lock.specs.Shared.{IsOnePartSeatOf, first_of};
ghost use Rattle.cover_book.specs.Model.{BookModel};
ghost use Rattle.cover_book.specs.Steps.{MayBeCalled};
ghost use Rattle.cover_book.specs.declared.calls.Call.TheVariants.{Commit, Learn, Find};
ghost use Rattle.cover_data.specs.Runs.{CanPart, kids_of};
ghost use Rattle.cover_data.specs.Views.{kept_of};
ghost use Rattle.solve_core.specs.Workers.{IsWorkerOf, LiesInBook, IsOpenBoxOf, MayBeKept};

use crate::gate::Gate;
use crate::open_box::OpenBox;
use crate::search::keep_latest;
use crate::task::Task;
use book_lock::BookSeat;
use box_worker::{Room, Worked, work_in};
use cover_book::{BookRefusal, Kids};
use cover_data::{ClosedPatch, KeptPatch, Lemma, Point, State};
use lemma_shelf::{LemmaSource, Subject};
use std::alloc::Global;
use std::sync::Wait;
use steal_pool::Hand;

/// A worker keeps copies of the states of boxes of at most so many axes, and asks the book for those of wider ones.
const MOST_AXES_COPIED: usize = 64;

/// A hand of the pool of nodes that any worker may take, a seat at the book, the boxes that this worker keeps to
/// itself, of which the last is the next, and the lemmas of all workers that it hands to the work on a box.
#[derive(Drop)]
pub struct Worker {
    pub number: u32,
    pub hand: Hand,
    pub seat: BookSeat,
    pub waiting: Vec<OpenBox>,
    pub lemmas: Vec<Lemma>,
}

// Whether a worker goes on after this refusal: not where a point is kept, nor where there is no memory.
fn goes_on(refusal: &BookRefusal) -> bool {
    !matches!(refusal, BookRefusal::PointKept(_) | BookRefusal::Memory)
}

// The states of the two parts that a patch leaves, where it ends in a branch, they are small and there is memory for
// them.
fn parts_of(alloc: Global, patch: &KeptPatch) -> Option<(State, State)>
    requires { IfSome (kept_of patch.now).end (λ l. CanPart l patch.now.reached) }
    ensures { IfSome result (λ p. kids_of (kept_of patch.now) ≡ Some (p.0, p.1)) }
{
    if patch.reached.space().len() > MOST_AXES_COPIED {
        return None;
    }
    match patch.kids(alloc) {
        Ok(parts) => parts,
        Err(_) => None,
    }
}

impl Worker {
    /// A worker that keeps no box yet.
    pub fn new(alloc: Global, number: u32, hand: Hand, seat: BookSeat) -> Worker
        ensures hand { result.hand ≡ hand }
        ensures seat { result.seat ≡ seat }
        ensures waiting { result.waiting.items ≡ [] }
        ensures lemmas { result.lemmas.items ≡ [] }
    {
        Worker {
            number,
            hand,
            seat,
            waiting: Vec::new(alloc),
            lemmas: Vec::new(alloc),
        }
    }

    // The next box: the last one that it keeps to itself, else one that its hand finds.
    fn next<R: Wait>(&mut self, rt: &R) -> Option<OpenBox>
        requires { has_left self.old.hand ≡ false }
        ensures stays { has_left self.new.hand ≡ false }
        ensures seat { self.new.seat ≡ self.old.seat }
        ensures lemmas { self.new.lemmas ≡ self.old.lemmas }
        ensures waiting { (b : BookModel) → All (IsOpenBoxOf b) self.old.waiting.items →
            All (IsOpenBoxOf b) self.new.waiting.items }
        ensures next { (b : BookModel) → All (IsOpenBoxOf b) self.old.waiting.items →
            IfSome result (IsOpenBoxOf b) }
    {
        match self.waiting.pop() {
            Some(due) => Some(due),
            None => match self.hand.next(rt) {
                Some(node) => Some(OpenBox { node, state: None }),
                None => None,
            },
        }
    }

    // Offers the oldest box that waits to all workers, unless one is on offer already. Whether there was memory.
    fn offer(&mut self) -> bool
        requires { has_left self.old.hand ≡ false }
        ensures stays { has_left self.new.hand ≡ false }
        ensures seat { self.new.seat ≡ self.old.seat }
        ensures lemmas { self.new.lemmas ≡ self.old.lemmas }
        ensures waiting { (b : BookModel) → All (IsOpenBoxOf b) self.old.waiting.items →
            All (IsOpenBoxOf b) self.new.waiting.items }
    {
        if self.waiting.len() < 2 || !self.hand.looks_empty() {
            return true;
        }
        let oldest = self.waiting.remove(0);
        match self.hand.push(oldest.node) {
            Ok(()) => true,
            Err(_) => self.waiting.push(oldest).is_ok(),
        }
    }

    // Has a box wait. Whether there was memory.
    fn put_off(&mut self, due: OpenBox) -> bool
        ensures hand { self.new.hand ≡ self.old.hand }
        ensures seat { self.new.seat ≡ self.old.seat }
        ensures lemmas { self.new.lemmas ≡ self.old.lemmas }
        ensures waiting { (b : BookModel) → IsOpenBoxOf b due →
            All (IsOpenBoxOf b) self.old.waiting.items →
            All (IsOpenBoxOf b) self.new.waiting.items }
    {
        self.waiting.push(due).is_ok()
    }

    // Keeps the two parts of a box for later, the lower one in front. Whether there was memory.
    fn keep(&mut self, lower: OpenBox, upper: OpenBox) -> bool
        requires { has_left self.old.hand ≡ false }
        ensures stays { has_left self.new.hand ≡ false }
        ensures seat { self.new.seat ≡ self.old.seat }
        ensures lemmas { self.new.lemmas ≡ self.old.lemmas }
        ensures waiting { (b : BookModel) → IsOpenBoxOf b lower → IsOpenBoxOf b upper →
            All (IsOpenBoxOf b) self.old.waiting.items →
            All (IsOpenBoxOf b) self.new.waiting.items }
    {
        if !self.put_off(upper) {
            return false;
        }
        if !self.put_off(lower) {
            return false;
        }
        self.offer()
    }

    // Commits the patch to the node, whose parts wait then, with the states that are known of them. Whether the worker
    // goes on.
    fn commit<J: Subject, R: Wait>(
        &mut self,
        rt: &R,
        task: &Task<J>,
        node: u32,
        patch: KeptPatch,
        parts: Option<(State, State)>,
    ) -> bool
        requires worker { IsWorkerOf task.now.shared.now self.old }
        requires meets { MayBeCalled (first_of task.now.shared.now) (Commit node patch) }
        requires parts { let b = first_of task.now.shared.now in
            IfSome parts (λ p. LiesInBook b p.0 × LiesInBook b p.1) }
        ensures { IsWorkerOf task.now.shared.now self.new }
    {
        let (first, second) = match parts {
            Some((first, second)) => (Some(first), Some(second)),
            None => (None, None),
        };
        match task.shared.commit(rt, &mut self.seat, node, patch) {
            Ok(Kids::Two(lower, upper)) => {
                let lower = OpenBox {
                    node: lower,
                    state: first,
                };
                let upper = OpenBox {
                    node: upper,
                    state: second,
                };
                self.keep(lower, upper)
            }
            Ok(Kids::None) => true,
            Err(refusal) => goes_on(&refusal),
        }
    }

    // Keeps the first state of the closed patch as a lemma, and hands it to all workers. Whether the worker goes on.
    fn learn<J: Subject, R: Wait>(
        &mut self,
        rt: &R,
        alloc: Global,
        task: &Task<J>,
        closed: ClosedPatch,
    ) -> bool
        requires worker { IsWorkerOf task.now.shared.now self.old }
        requires meets { MayBeCalled (first_of task.now.shared.now) (Learn closed) }
        ensures { IsWorkerOf task.now.shared.now self.new }
    {
        let Ok(state) = closed.kept().first.try_clone(alloc) else {
            return false;
        };
        match task.shared.learn(rt, &mut self.seat, closed) {
            Ok(id) => {
                task.post(rt, Lemma::new(id, state));
                true
            }
            Err(refusal) => goes_on(&refusal),
        }
    }

    // Keeps the point that was found at the node, with which the search is over.
    fn find<J: Subject, R: Wait>(&mut self, rt: &R, task: &Task<J>, node: u32, point: Point)
        requires worker { IsWorkerOf task.now.shared.now self.old }
        requires meets { MayBeCalled (first_of task.now.shared.now) (Find node point) }
        ensures { IsWorkerOf task.now.shared.now self.new }
    {
        let _ = task.shared.found(rt, &mut self.seat, node, point);
    }

    // Has the book keep the patch that closed the node, and what is to be learned of it and its copy. Whether the worker
    // goes on.
    fn close<J: Subject, R: Wait>(
        &mut self,
        rt: &R,
        alloc: Global,
        room: &mut Room,
        task: &Task<J>,
        node: u32,
        patch: KeptPatch,
        own: Option<ClosedPatch>,
    ) -> bool
        requires worker { IsWorkerOf task.now.shared.now self.old }
        requires meets { MayBeCalled (first_of task.now.shared.now) (Commit node patch) }
        requires own { IfSome own (λ k. MayBeCalled (first_of task.now.shared.now) (Learn k)) }
        requires room { room.old ≡ task.now.problem.now }
        ensures worker { IsWorkerOf task.now.shared.now self.new }
        ensures room { room.new ≡ room.old }
    {
        let lesson = task.lesson(alloc, room, &patch, own);
        if !self.commit(rt, task, node, patch, None) {
            return false;
        }
        match lesson {
            Ok(Some(closed)) => self.learn(rt, alloc, task, closed),
            Ok(None) => true,
            Err(_) => false,
        }
    }

    // Has the book keep what came of the work on the node. Whether the worker goes on.
    fn settle<J: Subject, R: Wait>(
        &mut self,
        rt: &R,
        alloc: Global,
        room: &mut Room,
        task: &Task<J>,
        node: u32,
        worked: Worked,
    ) -> bool
        requires worker { IsWorkerOf task.now.shared.now self.old }
        requires work { MayBeKept (first_of task.now.shared.now) node worked }
        requires room { room.old ≡ task.now.problem.now }
        ensures worker { IsWorkerOf task.now.shared.now self.new }
        ensures room { room.new ≡ room.old }
    {
        match worked {
            Worked::Point(point) => {
                self.find(rt, task, node, point);
                false
            }
            Worked::Patch(patch) => {
                let parts = parts_of(alloc, &patch);
                self.commit(rt, task, node, patch, parts)
            }
            Worked::Closed(patch, own) => self.close(rt, alloc, room, task, node, patch, own),
        }
    }

    // Takes in the lemmas that the source has more than before, where lemmas are learned; the latest ones stay. Where
    // memory runs out there are fewer.
    fn read<J: Subject, S: LemmaSource<J>, R: Wait>(
        &mut self,
        rt: &R,
        alloc: Global,
        task: &Task<J>,
        source: &mut S,
    )
        requires worker { IsWorkerOf task.now.shared.now self.old }
        requires source { S.ready source.old }
        ensures worker { IsWorkerOf task.now.shared.now self.new }
        ensures source { S.ready source.new }
        ensures alike { (x : S) → S.alike x source.old → S.alike x source.new }
    {
        if !task.learns {
            return;
        }
        let _ = source.more(rt, alloc, &mut self.lemmas);
        keep_latest(&mut self.lemmas);
    }

    // The state of a box that waited: its own copy, or where it has none the book's.
    fn state_of<J: Subject, R: Wait>(
        &mut self,
        rt: &R,
        task: &Task<J>,
        due: OpenBox,
    ) -> Result<State, BookRefusal>
        requires worker { IsWorkerOf task.now.shared.now self.old }
        requires due { IsOpenBoxOf (first_of task.now.shared.now) due }
        ensures worker { IsWorkerOf task.now.shared.now self.new }
        ensures lemmas { self.new.lemmas ≡ self.old.lemmas }
        ensures state { IfOk result (LiesInBook (first_of task.now.shared.now)) }
    {
        let OpenBox { node, state } = due;
        match state {
            Some(state) => Ok(state),
            None => task.shared.state_of(rt, &mut self.seat, node),
        }
    }

    // Works on a box in room for the problem, and has the book keep what comes of it. Whether the worker goes on.
    fn visit<J: Subject, R: Wait>(
        &mut self,
        rt: &R,
        alloc: Global,
        room: &mut Room,
        task: &Task<J>,
        due: OpenBox,
    ) -> bool
        requires worker { IsWorkerOf task.now.shared.now self.old }
        requires due { IsOpenBoxOf (first_of task.now.shared.now) due }
        requires room { room.old ≡ task.now.problem.now }
        ensures worker { IsWorkerOf task.now.shared.now self.new }
        ensures room { room.new ≡ room.old }
    {
        let node = due.node;
        let state = match self.state_of(rt, task, due) {
            Ok(state) => state,
            Err(refusal) => return goes_on(&refusal),
        };
        match work_in(alloc, room, task.options, state, &self.lemmas) {
            Ok(worked) => self.settle(rt, alloc, room, task, node, worked),
            Err(_) => false,
        }
    }

    // Works on box after box in room for the problem, as `run` does.
    fn go_on<J: Subject, S: LemmaSource<J>, R: Wait, G: Gate>(
        &mut self,
        rt: &R,
        alloc: Global,
        room: &mut Room,
        task: &Task<J>,
        source: &mut S,
        gate: &G,
    )
        requires worker { IsWorkerOf task.now.shared.now self.old }
        requires room { room.old ≡ task.now.problem.now }
        requires source { S.ready source.old }
        ensures seat { IsOnePartSeatOf task.now.shared.now self.new.seat }
        ensures source { S.ready source.new }
        ensures alike { (x : S) → S.alike x source.old → S.alike x source.new }
    {
        for _ in rt.forever() {
            let Some(due) = self.next(rt) else {
                return;
            };
            let node = due.node;
            gate.began(self.number, node);
            self.read(rt, alloc, task, source);
            let goes_on = self.visit(rt, alloc, room, task, due);
            gate.ended(self.number, node);
            if !goes_on {
                self.hand.leave();
                return;
            }
        }
        unreachable!()
    }

    /// Works on box after box, with the lemmas that the source gives, until all hands rest, a point is kept or memory
    /// runs out. What this worker keeps to itself then stays live in the book.
    pub fn run<J: Subject, S: LemmaSource<J>, R: Wait, G: Gate>(
        &mut self,
        rt: &R,
        alloc: Global,
        task: &Task<J>,
        source: &mut S,
        gate: &G,
    )
        requires worker { IsWorkerOf task.now.shared.now self.old }
        requires source { S.ready source.old }
        ensures seat { IsOnePartSeatOf task.now.shared.now self.new.seat }
        ensures source { S.ready source.new }
        ensures alike { (x : S) → S.alike x source.old → S.alike x source.new }
    {
        let mut room = Room::new(task.problem);
        self.go_on(rt, alloc, &mut room, task, source, gate);
        drop(room);
    }
}
