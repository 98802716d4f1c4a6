// A search on its way.
ghost use Rattle.std.specs.Prelude.{◌≡◌, ◌≢◌, ◌∷◌, [], ◌++◌, ◌≤◌, ◌-◌, drop, length, OnOk, IfOk, IfSome, IsNone, None};
ghost use Rattle.cover_data.specs.Views.{kept_of};
ghost use Rattle.cover_book.specs.Keeps.{IsBook};
ghost use Rattle.cover_book.specs.Verdict.{live_numbers_after};
ghost use Rattle.box_worker.specs.Learned.{IsLesson};
ghost use Rattle.box_worker.specs.Worked.{margins_of};
ghost use Rattle.solve_core.specs.Reaches.{Reaches};
ghost use Rattle.solve_core.specs.Search.{IsSearch, CanFind, CanCommit, CanLearn, CanHand, IsOver, work_left};

use box_worker::{Room, Worked, lesson, work_in};
use cover_book::{Book, BookRefusal, Kids};
use cover_data::{ClosedPatch, KeptPatch, Lemma, Point};
use poly_graph::{FormNode, Problem};
use std::alloc::{AllocError, Global};

/// So many lemmas at most are handed to the work on a box, the latest ones.
const MOST_HANDED: usize = 64;

/// A book, the numbers of the nodes that wait to be worked on, of which the last is the next, lemmas of the book that
/// are handed to the work on a box, and whether lemmas are learned at all.
#[derive(Drop)]
pub struct Search {
    pub book: Book,
    pub waiting: Vec<u32>,
    pub lemmas: Vec<Lemma>,
    pub learns: bool,
}

/// Whether the form has a disjunction. Without one boxes are split by cuts and by Bool values alone, so no two of them
/// meet but at their ends, and what closed one of them closes no other.
pub fn has_choice(problem: &Problem) -> bool {
    let forms = problem.forms();
    for n in 0..forms.len() {
        if let FormNode::Or(_) = forms.node(n as u32) {
            return true;
        }
    }
    false
}

// The numbers of the live nodes, rising.
fn live_nodes(alloc: Global, book: &Book) -> Result<Vec<u32>, AllocError>
    ensures { IfOk result (λ v. v.items ≡ live_numbers_after book.now 0) }
{
    book.live_nodes().collect::<Vec<u32>>(alloc)
}

// A refusal out of memory ends the search; any other refusal leaves it as it is.
fn unless_memory(refusal: BookRefusal) -> Result<(), AllocError>
    ensures { OnOk result (refusal ≢ BookRefusal.Memory) }
{
    match refusal {
        BookRefusal::Memory => Err(AllocError),
        _ => Ok(()),
    }
}

/// The number of the first lemma of the book that is handed on: no more than the latest ones are.
pub fn first_handed(book: &Book) -> u32
    ensures { IsBook book.now }
{
    book.lemma_count().saturating_sub(MOST_HANDED as u32)
}

/// Leaves out the oldest lemmas where there are more than may be handed on.
pub fn keep_latest(lemmas: &mut Vec<Lemma>)
    ensures { lemmas.new.items ≡ drop (length lemmas.old.items - 64) lemmas.old.items }
{
    let extra = lemmas.len().saturating_sub(MOST_HANDED);
    lemmas.drain(..extra);
}

impl Search {
    /// A search that goes on from a book: each live node waits, and the book's latest lemmas are handed on.
    pub fn resume(alloc: Global, book: Book) -> Result<Search, AllocError>
        ensures search { IfOk result (λ s. IsSearch s s.waiting.items) }
        ensures book { IfOk result (λ s. s.book ≡ book) }
    {
        let learns = has_choice(book.problem());
        let waiting = live_nodes(alloc, &book)?;
        let lemmas = book.lemmas_from(first_handed(&book))?;
        Ok(Search {
            book,
            waiting,
            lemmas,
            learns,
        })
    }

    /// Takes the next node; none where a point is kept or no node waits.
    pub fn next(&mut self) -> Option<u32>
        ensures book { self.new.book ≡ self.old.book }
        ensures lemmas { self.new.lemmas ≡ self.old.lemmas }
        ensures none { IsNone result → IsOver self.old }
        ensures same { IsNone result → self.new.waiting.items ≡ self.old.waiting.items }
        ensures taken { IfSome result (λ n.
            self.old.waiting.items ≡ self.new.waiting.items ++ (n ∷ [])) }
        ensures no_point { IfSome result (λ n. self.old.book.point ≡ None) }
    {
        if self.book.point().is_some() {
            return None;
        }
        self.waiting.pop()
    }

    // Keeps the point that was found at the node.
    fn keep_point(&mut self, node: u32, point: Point) -> Result<(), AllocError>
        requires { CanFind self.old node point }
        ensures search { OnOk result (IsSearch self.new self.new.waiting.items) }
        ensures left { OnOk result (work_left self.new ≤ work_left self.old) }
        ensures reached { Reaches self.old.book self.new.book }
    {
        match self.book.found(node, point) {
            Ok(()) => Ok(()),
            Err(refusal) => unless_memory(refusal),
        }
    }

    // Commits the patch to the node, whose parts wait then, the lower one in front. A node for whose branch there is no
    // budget stays live.
    fn commit(&mut self, node: u32, patch: KeptPatch) -> Result<(), AllocError>
        requires { CanCommit self.old node patch }
        ensures search { OnOk result (IsSearch self.new self.new.waiting.items) }
        ensures left { OnOk result (work_left self.new ≤ work_left self.old) }
        ensures reached { Reaches self.old.book self.new.book }
        ensures lemmas { self.new.book.lemmas ≡ self.old.book.lemmas }
    {
        match self.book.commit(node, patch) {
            Ok(Kids::Two(lower, upper)) => {
                self.waiting.push(upper)?;
                self.waiting.push(lower)?;
                Ok(())
            }
            Ok(Kids::None) => Ok(()),
            Err(refusal) => unless_memory(refusal),
        }
    }

    // Hands the lemma to the work on later boxes.
    fn hand(&mut self, lemma: Lemma) -> Result<(), AllocError>
        requires { CanHand self.old lemma }
        ensures search { OnOk result (IsSearch self.new self.new.waiting.items) }
        ensures book { self.new.book ≡ self.old.book }
        ensures waiting { self.new.waiting ≡ self.old.waiting }
    {
        self.lemmas.push(lemma)?;
        keep_latest(&mut self.lemmas);
        Ok(())
    }

    // Keeps the first state of the closed patch as a lemma, unless the book has as many as it may have.
    fn learn(&mut self, alloc: Global, closed: ClosedPatch) -> Result<(), AllocError>
        requires { CanLearn self.old closed }
        ensures search { OnOk result (IsSearch self.new self.new.waiting.items) }
        ensures left { OnOk result (work_left self.new ≤ work_left self.old) }
        ensures reached { Reaches self.old.book self.new.book }
    {
        let state = closed.kept().first.try_clone(alloc)?;
        match self.book.learn(closed) {
            Ok(id) => self.hand(Lemma::new(id, state)),
            Err(refusal) => unless_memory(refusal),
        }
    }

    // What is to be learned of a closed run and its copy, where lemmas are learned.
    fn lesson(
        &self,
        alloc: Global,
        room: &mut Room,
        run: &KeptPatch,
        own: Option<ClosedPatch>,
    ) -> Result<Option<ClosedPatch>, AllocError>
        requires { room.old ≡ self.now.book.problem }
        ensures lesson { let b = self.now.book in
            IfOk result (λ o. IfSome o (IsLesson b.problem (margins_of b.options) own)) }
        ensures room { room.new ≡ room.old }
    {
        if !self.learns {
            return Ok(None);
        }
        lesson(alloc, room, self.book.options(), run, own)
    }

    /// Works on a node that is not among those that wait, in room for the book's problem, and has the book keep what
    /// comes of it.
    pub fn visit(&mut self, alloc: Global, room: &mut Room, node: u32) -> Result<(), AllocError>
        requires search { IsSearch self.old (self.old.waiting.items ++ (node ∷ [])) }
        requires no_point { self.old.book.point ≡ None }
        requires room { room.old ≡ self.old.book.problem }
        ensures search { OnOk result (IsSearch self.new self.new.waiting.items) }
        ensures left { OnOk result (work_left self.new ≤ work_left self.old) }
        ensures reached { Reaches self.old.book self.new.book }
        ensures room { room.new ≡ room.old }
    {
        let state = match self.book.state_of(node) {
            Ok(state) => state,
            Err(refusal) => return unless_memory(refusal),
        };
        match work_in(alloc, room, self.book.options(), state, &self.lemmas)? {
            Worked::Point(point) => self.keep_point(node, point),
            Worked::Patch(patch) => self.commit(node, patch),
            Worked::Closed(patch, own) => {
                let lesson = self.lesson(alloc, room, &patch, own)?;
                self.commit(node, patch)?;
                match lesson {
                    Some(closed) => self.learn(alloc, closed),
                    None => Ok(()),
                }
            }
        }
    }

    /// The book.
    pub fn into_book(self) -> Book
        ensures { result ≡ self.book }
    {
        let Search {
            book,
            waiting: _,
            lemmas: _,
            learns: _,
        } = self;
        book
    }
}
