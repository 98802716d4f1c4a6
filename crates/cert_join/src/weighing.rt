// Which of several trees of one place is taken.
ghost use Rattle.std.specs.Prelude.{◌≡◌, [], ◌∷◌, ◌++◌, ℕ, List, MatchOption, map};
ghost use Rattle.cover_model.specs.Rules.{Line};
ghost use Rattle.cover_model.specs.Derivation.{Tree};
ghost use Rattle.cert_join.specs.Ahead.{AreBefore};
ghost use Rattle.cert_join.specs.Kinds.{rule_text};
ghost use Rattle.cert_join.specs.Spot.{Spot, IsBefore, IsMark};
ghost use Rattle.cert_join.specs.Weighed.{AreAhead, AreApart, Branch, IsChoosing, IsChosen, IsGone, IsLeft, IsWeighStep, IsWeighing, IsWithin, behind_next, behind_tree, first_closing, forest_texts, passed};

use crate::cursor::{Cursor, Mark};
use crate::joiner::Step;
use crate::line::{Left, left_of};

/// Goes through the trees that several certificates have at one place, one after the other, to see what they leave.
#[derive(Drop)]
pub struct Weighing {
    parts: Vec<usize>,
    // Which of them is gone through, and how many states wait in its tree.
    place: usize,
    waiting: u64,
    // Where its tree begins, once that is known, and whether a state of it stays.
    mark: Option<Mark>,
    leaves: bool,
    // The first tree, and the first that leaves nothing, each with where it begins.
    first: Option<(usize, Mark)>,
    closed: Option<(usize, Mark)>,
}

// What the certificate's next line leaves; none where more has to be read first.
fn left_of_next(cursor: &mut Cursor) -> Option<Left>
    ensures same { cursor.new ≡ record cursor.old { size = cursor.new.size } }
    ensures left { (cert : List ℕ) (r : Line) (ls : List (List ℕ)) →
        IsBefore cert (rule_text r ∷ ls) cursor.old → IsLeft r cursor.new result }
{
    if cursor.is_ready() {
        Some(left_of(cursor.text()))
    } else {
        None
    }
}

impl Weighing {
    /// The certificates have trees ahead, at least one.
    pub fn new(parts: Vec<usize>) -> Self
        ensures { (certs : List (List ℕ)) (lines : List (List (List ℕ))) (spots : List Spot) →
            (b : Branch) (more : List Branch) →
            parts.items ≡ map (λ (c : Branch). c.part) (b ∷ more) →
            AreBefore certs lines spots → AreAhead lines (b ∷ more) → AreApart (b ∷ more) →
            IsWeighing certs (first_closing b (b ∷ more)) (passed (b ∷ more) lines) result spots }
    {
        Weighing {
            parts,
            place: 0,
            waiting: 1,
            mark: None,
            leaves: false,
            first: None,
            closed: None,
        }
    }

    /// The certificate whose tree is taken, once all were gone through, and where the tree begins.
    pub fn chosen(&self) -> Option<(usize, Mark)>
        ensures { (certs : List (List ℕ)) (taken : Branch) →
            IsChoosing certs taken [] self.now.first self.now.closed →
            IsChosen certs taken result }
    {
        match self.closed {
            Some(closed) => Some(closed),
            None => self.first,
        }
    }

    // A tree was gone through.
    fn end_tree(&mut self, part: usize, mark: Mark)
        ensures { self.new ≡ behind_tree part mark self.old }
    {
        if self.first.is_none() {
            self.first = Some((part, mark));
        }
        if self.closed.is_none() && !self.leaves {
            self.closed = Some((part, mark));
        }
        self.place = self.place.saturating_add(1);
        self.waiting = 1;
        self.mark = None;
        self.leaves = false;
    }

    // Takes what a line leaves, of the tree of this certificate that begins at the mark.
    fn take(&mut self, part: usize, mark: Mark, left: Left)
        ensures { self.new ≡ behind_next part mark left self.old }
    {
        self.waiting = left.waiting(self.waiting);
        self.leaves = self.leaves || left.stays();
        if self.waiting == 0 {
            self.end_tree(part, mark);
        }
    }

    // Where the tree begins, in which the cursor stands.
    fn mark_at(&self, cursor: &Cursor) -> Mark
        ensures { MatchOption self.now.mark (IsMark cursor.now result) (λ m. result ≡ m) }
    {
        match self.mark {
            Some(mark) => mark,
            None => cursor.mark(),
        }
    }

    // Passes one more line of the certificate.
    fn step_in(&mut self, part: usize, cursor: &mut Cursor) -> Step
        ensures { (cert : List ℕ) (b : Branch) (left : List Tree) → part ≡ b.part →
            IsWithin cert b left self.old →
            IsBefore cert (forest_texts left ++ b.behind) cursor.old →
            IsGone cert b self.old self.new cursor.new result }
    {
        let mark = self.mark_at(cursor);
        self.mark = Some(mark);
        match left_of_next(cursor) {
            Some(left) => {
                cursor.pass();
                self.take(part, mark, left);
                Step::On
            }
            None => Step::Read(part),
        }
    }

    /// Passes one more line.
    pub fn step(&mut self, cursors: &mut [Cursor]) -> Step
        ensures { (certs : List (List ℕ)) (taken : Branch) (end : List (List (List ℕ))) →
            IsWeighing certs taken end self.old cursors.old →
            IsWeighStep certs taken end self.new cursors.new result }
    {
        if self.place >= self.parts.len() {
            return Step::Over;
        }
        let part = self.parts[self.place];
        if part >= cursors.len() {
            return Step::Over;
        }
        self.step_in(part, &mut cursors[part])
    }
}
