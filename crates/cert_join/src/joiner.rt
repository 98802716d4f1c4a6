// The lines of the joined certificate, one after the other.
ghost use Rattle.std.specs.Prelude.{◌≡◌, ◌++◌, ◌∷◌, ◌<◌, ◌≤◌, ◌^◌, ℕ, List, [], Ok, OnOk, IfOk, MatchOption, length, map};
ghost use Rattle.cert_joined.specs.Covers.{Cover, AreTextsOf};
ghost use Rattle.cert_join.specs.Ahead.{AreBefore};
ghost use Rattle.cert_join.specs.Gathered.{lists_of, spot_at};
ghost use Rattle.cert_read.specs.CertLine.{cover};
ghost use Rattle.cert_join.specs.Heads.{all_lines, head_text, AreHeadsRead};
ghost use Rattle.cert_join.specs.Numbered.{AreNumbered};
ghost use Rattle.cert_join.specs.Joining.{AreAtNumbers, AreLemmasWritten, HasStepped, IsAt, IsInMemory, Within, IsJoinText, IsJoining, IsOver, IsPiece};
ghost use Rattle.cert_join.specs.NextLine.{CopiesNext, EndsNext};
ghost use Rattle.cert_join.specs.Spot.{IsBefore};
ghost use Rattle.cert_join.specs.Written.{text_of};

use crate::cursor::Cursor;
use crate::heads::{Heads, append_line};
use crate::lemmas::Lemmas;
use crate::line::append_number;
use crate::numbering::Numbering;
use crate::stop::Unjoined;
use crate::trees::Trees;
use std::alloc::{AllocError, Global};
use std::mem;

/// About so many bytes of the joined certificate are held.
pub const ROOM: usize = 65_536;

/// What comes next.
#[derive(Clone, Copy, Debug, PartialEq, Eq)]
pub enum Step {
    /// More of this certificate has to be read.
    Read(usize),
    /// It goes on.
    On,
    /// All is done.
    Over,
}

#[derive(Drop)]
enum Stage {
    Heads(Heads),
    // The lines of this certificate of a point are copied.
    Point(usize),
    Numbering(Heads, Numbering),
    Lemmas(Lemmas),
    Trees(Trees),
    // The ends of the certificates from this one on are read; whether its last line was.
    Ends(usize, bool),
}

// The first lines of a certificate of a point.
fn append_point(heads: &Heads, text: &mut Vec<u8>) -> Result<(), AllocError> {
    match heads.append(text) {
        Ok(()) => text.extend_from_slice(b"point\n"),
        Err(error) => Err(error),
    }
}

// The first lines of a certificate of a cover with so many lemmas.
fn append_kind(heads: &Heads, count: u32, text: &mut Vec<u8>) -> Result<(), AllocError>
    ensures text { OnOk result (text.new.items ≡
        text.old.items ++ (head_text heads.now ++ text_of (cover count ∷ []))) }
    ensures few { count < 2 ^ 32 }
{
    match heads.append(text) {
        Ok(()) => {}
        Err(error) => return Err(error),
    }
    match text.extend_from_slice(b"cover ") {
        Ok(()) => {}
        Err(error) => return Err(error),
    }
    match append_number(text, count) {
        Ok(()) => {}
        Err(error) => return Err(error),
    }
    match text.push(b'\n') {
        Ok(()) => Ok(()),
        Err(_) => Err(AllocError),
    }
}

// The stage, where there was memory.
fn some(stage: Result<Stage, AllocError>) -> Result<Option<Stage>, AllocError>
    ensures { IfOk result (λ next. MatchOption next ⊥ (λ s. stage ≡ Ok s)) }
{
    match stage {
        Ok(stage) => Ok(Some(stage)),
        Err(error) => Err(error),
    }
}

// Reads the ends of a certificate.
fn step_of_ends(
    cursors: &mut [Cursor],
    part: usize,
    is_read: &mut bool,
    is_odd: &mut bool,
) -> Step {
    match cursors.get_mut(part) {
        Some(cursor) => step_to_end(cursor, part, is_read, is_odd),
        None => Step::Over,
    }
}

/// Follows certificates side by side, and gives the text of the one that joins them. It reads nothing itself: it says of
/// which certificate it needs more, and from where.
#[derive(Drop)]
pub struct Joiner {
    alloc: Global,
    cursors: Vec<Cursor>,
    // Of each certificate, the number of each of its lemmas.
    numbers: Vec<Vec<u32>>,
    stage: Stage,
    // Whether lines were dropped that no other certificate has, or one was gone through that no accepted one has.
    dropped: bool,
}

// Copies the next line of a certificate of a point.
fn copy_next(cursor: &mut Cursor, part: usize, text: &mut Vec<u8>) -> Result<Step, AllocError>
    ensures { (cert : List ℕ) (ls : List (List ℕ)) → IsBefore cert ls cursor.old →
        CopiesNext cert ls text.old.items result text.new.items cursor.new }
{
    if !cursor.is_ready() {
        return Ok(Step::Read(part));
    }
    let Some(line) = cursor.line() else {
        return Ok(Step::Over);
    };
    match append_line(text, line) {
        Ok(()) => {}
        Err(error) => return Err(error),
    }
    cursor.pass();
    Ok(Step::On)
}

// Copies a line of a certificate of a point.
fn step_of_point(
    cursors: &mut [Cursor],
    part: usize,
    text: &mut Vec<u8>,
) -> Result<Step, AllocError> {
    match cursors.get_mut(part) {
        Some(cursor) => copy_next(cursor, part, text),
        None => Ok(Step::Over),
    }
}

// Reads the last line of a certificate, and then that nothing stands behind it, where `is_read` says whether the line
// was read. It is odd where another line is there.
fn step_to_end(cursor: &mut Cursor, part: usize, is_read: &mut bool, is_odd: &mut bool) -> Step
    ensures { (cert : List ℕ) (ls : List (List ℕ)) → IsBefore cert ls cursor.old →
        EndsNext cert ls is_read.old result is_read.new is_odd.new cursor.new }
{
    if !cursor.is_ready() {
        return Step::Read(part);
    }
    match cursor.line() {
        None if *is_read => Step::Over,
        Some(line) if !*is_read && line == b"end".as_slice() => {
            cursor.pass();
            *is_read = true;
            Step::On
        }
        _ => {
            *is_odd = true;
            Step::Over
        }
    }
}

// What a step comes to that fails for want of memory alone.
fn in_memory(step: Result<Step, AllocError>) -> Result<Step, Unjoined>
    ensures { IsInMemory step result }
{
    match step {
        Ok(step) => Ok(step),
        Err(_) => Err(Unjoined::Memory),
    }
}

// Goes on within this stage.
fn step_in(
    stage: &mut Stage,
    cursors: &mut [Cursor],
    numbers: &[Vec<u32>],
    text: &mut Vec<u8>,
    is_odd: &mut bool,
) -> Result<Step, Unjoined>
    ensures many { length cursors.new ≡ length cursors.old }
    ensures steps { (certs : List (List ℕ)) (first : Cover) (covers : List Cover) (done : List ℕ) →
        AreTextsOf covers certs →
        IsAt certs first covers done text.old.items (lists_of numbers.now) stage.old cursors.old →
        Within certs first covers done result text.new.items (lists_of numbers.now) stage.new
        cursors.new }
{
    match stage {
        Stage::Heads(heads) => heads.step(cursors),
        Stage::Point(part) => in_memory(step_of_point(cursors, *part, text)),
        Stage::Numbering(heads, numbering) => numbering.step(cursors, &heads.counts),
        Stage::Lemmas(lemmas) => in_memory(lemmas.step(cursors, numbers, text, is_odd)),
        Stage::Trees(trees) => in_memory(trees.step(cursors, numbers, text)),
        Stage::Ends(part, is_read) => Ok(step_of_ends(cursors, *part, is_read, is_odd)),
    }
}

// Cursors at the beginnings of so many certificates.
fn fresh(alloc: Global, count: usize) -> Result<Vec<Cursor>, AllocError>
    ensures { IfOk result (λ cursors. (certs : List (List ℕ)) (covers : List Cover) →
        length certs ≡ count → AreTextsOf covers certs →
        AreBefore certs (map all_lines covers) cursors.items) }
{
    let mut cursors: Vec<Cursor> = Vec::new(alloc);
    for _ in 0..count {
        match cursors.push(Cursor::new(alloc)) {
            Ok(()) => {}
            Err(_) => return Err(AllocError),
        }
    }
    Ok(cursors)
}

impl Joiner {
    /// So many certificates, of which nothing is read yet.
    pub fn new(alloc: Global, count: usize) -> Result<Self, AllocError>
        ensures { IfOk result (λ joiner. (certs : List (List ℕ)) (first : Cover) →
            (others : List Cover) → length certs ≡ count → AreTextsOf (first ∷ others) certs →
            IsJoining certs first (first ∷ others) [] [] joiner) }
    {
        match fresh(alloc, count) {
            Ok(cursors) => Ok(Joiner {
                alloc,
                cursors,
                numbers: Vec::new(alloc),
                stage: Stage::Heads(Heads::new(alloc)),
                dropped: false,
            }),
            Err(error) => Err(error),
        }
    }

    /// Whether lines were dropped so far that no other certificate has.
    pub fn dropped(&self) -> bool {
        self.dropped
    }

    /// Where more of the certificate is read.
    pub fn place(&self, part: usize) -> u64
        ensures { part < length self.now.cursors.items →
            result ≡ (spot_at self.now.cursors.items part).behind }
    {
        if part >= self.cursors.len() {
            return 0;
        }
        self.cursors[part].place()
    }

    /// Takes bytes that were read of the certificate at that place; none are its end.
    pub fn give(&mut self, part: usize, piece: &[u8]) -> Result<(), AllocError>
        ensures none { length self.old.cursors.items ≤ part → self.new ≡ self.old }
        ensures gives { OnOk result ((certs : List (List ℕ)) (first : Cover) (covers : List Cover) →
            (done text : List ℕ) → IsPiece certs part piece.now self.old →
            IsJoining certs first covers done text self.old →
            IsJoining certs first covers done text self.new) }
    {
        if part >= self.cursors.len() {
            return Ok(());
        }
        self.cursors[part].give(piece)
    }

    // What follows the first lines.
    fn behind_heads(&mut self, heads: Heads, text: &mut Vec<u8>) -> Result<Stage, AllocError>
        ensures same { self.new.cursors ≡ self.old.cursors }
        ensures stage { IfOk result (λ stage. (certs : List (List ℕ)) (first : Cover) →
            (others : List Cover) → (done : List ℕ) → done ++ text.old.items ≡ [] →
            AreHeadsRead certs (first ∷ others) heads self.old.cursors.items →
            IsAt certs first (first ∷ others) done text.new.items (lists_of self.new.numbers.items)
            stage self.new.cursors.items) }
    {
        match heads.point {
            Some(part) => {
                // The others are not read.
                self.dropped = true;
                match append_point(&heads, text) {
                    Ok(()) => Ok(Stage::Point(part)),
                    Err(error) => Err(error),
                }
            }
            None => Ok(Stage::Numbering(heads, Numbering::new(self.alloc))),
        }
    }

    // What follows the numbers of the lemmas.
    fn behind_numbering(
        &mut self,
        heads: &Heads,
        numbering: Numbering,
        text: &mut Vec<u8>,
    ) -> Result<Stage, AllocError>
        ensures same { self.new.cursors ≡ self.old.cursors }
        ensures stage { IfOk result (λ stage. (certs : List (List ℕ)) (first : Cover) →
            (covers : List Cover) → (done : List ℕ) → AreTextsOf covers certs →
            done ++ text.old.items ≡ [] →
            AreAtNumbers certs first covers heads.now →
            AreNumbered certs covers numbering self.old.cursors.items →
            IsAt certs first covers done text.new.items (lists_of self.new.numbers.items)
            stage self.new.cursors.items) }
    {
        match append_kind(heads, numbering.count, text) {
            Ok(()) => {}
            Err(error) => return Err(error),
        }
        // What only the later version has would not be refused.
        self.dropped = self.dropped || numbering.dropped || heads.has_older();
        drop(mem::replace(&mut self.numbers, numbering.numbers));
        Ok(Stage::Lemmas(Lemmas::new()))
    }

    // What follows the lemmas.
    fn behind_lemmas(&mut self, text: &mut Vec<u8>) -> Result<Stage, AllocError>
        ensures same { self.new.cursors ≡ self.old.cursors }
        ensures stage { IfOk result (λ stage. (certs : List (List ℕ)) (first : Cover) →
            (others : List Cover) → (done : List ℕ) → AreTextsOf (first ∷ others) certs →
            AreLemmasWritten certs first (first ∷ others) (done ++ text.old.items)
            (lists_of self.old.numbers.items) self.old.cursors.items →
            IsAt certs first (first ∷ others) done text.new.items (lists_of self.new.numbers.items)
            stage self.new.cursors.items) }
    {
        match text.extend_from_slice(b"tree\n") {
            Ok(()) => {}
            Err(error) => return Err(error),
        }
        match Trees::new(self.alloc, self.cursors.len()) {
            Ok(trees) => Ok(Stage::Trees(trees)),
            Err(error) => Err(error),
        }
    }

    // What follows this stage, which is over; none behind the last.
    fn behind(&mut self, stage: Stage, text: &mut Vec<u8>) -> Result<Option<Stage>, AllocError>
        ensures same { self.new.cursors ≡ self.old.cursors }
        ensures next { IfOk result (λ next. (certs : List (List ℕ)) (first : Cover) →
            (others : List Cover) → (done : List ℕ) → AreTextsOf (first ∷ others) certs →
            IsOver certs first (first ∷ others) done text.old.items
            (lists_of self.old.numbers.items) stage self.old.cursors.items →
            MatchOption next (IsJoinText (first ∷ others) (done ++ text.new.items))
            (λ later. IsAt certs first (first ∷ others) done text.new.items
            (lists_of self.new.numbers.items) later self.new.cursors.items)) }
    {
        match stage {
            Stage::Heads(heads) => some(self.behind_heads(heads, text)),
            Stage::Numbering(heads, numbering) => {
                some(self.behind_numbering(&heads, numbering, text))
            }
            Stage::Lemmas(_) => some(self.behind_lemmas(text)),
            Stage::Trees(trees) => {
                self.dropped = self.dropped || trees.dropped;
                match text.extend_from_slice(b"end\n") {
                    Ok(()) => Ok(Some(Stage::Ends(0, false))),
                    Err(error) => Err(error),
                }
            }
            Stage::Ends(part, _) if part < self.cursors.len() => {
                Ok(Some(Stage::Ends(part + 1, false)))
            }
            Stage::Ends(_, _) | Stage::Point(_) => Ok(None),
        }
    }

    // Goes on within the stage.
    fn step_within(&mut self, text: &mut Vec<u8>) -> Result<Step, Unjoined>
        ensures many { length self.new.cursors.items ≡ length self.old.cursors.items }
        ensures steps { (certs : List (List ℕ)) (first : Cover) (covers : List Cover) →
            (done : List ℕ) → AreTextsOf covers certs →
            IsAt certs first covers done text.old.items (lists_of self.old.numbers.items)
            self.old.stage self.old.cursors.items →
            Within certs first covers done result text.new.items
            (lists_of self.new.numbers.items) self.new.stage self.new.cursors.items }
    {
        let is_odd = &mut self.dropped;
        step_in(
            &mut self.stage,
            &mut self.cursors,
            &self.numbers,
            text,
            is_odd,
        )
    }

    /// Appends more of the text, or says what has to be read first.
    pub fn step(&mut self, text: &mut Vec<u8>) -> Result<Step, Unjoined>
        ensures { (certs : List (List ℕ)) (first : Cover) (others : List Cover) (done : List ℕ) →
            AreTextsOf (first ∷ others) certs →
            IsJoining certs first (first ∷ others) done text.old.items self.old →
            HasStepped certs first (first ∷ others) done result text.new.items self.new }
    {
        match self.step_within(text) {
            Ok(Step::Over) => {}
            Ok(step) => return Ok(step),
            Err(unjoined) => return Err(unjoined),
        }
        let all = self.cursors.len();
        let stage = mem::replace(&mut self.stage, Stage::Ends(all, true));
        match self.behind(stage, text) {
            Ok(Some(next)) => {
                drop(mem::replace(&mut self.stage, next));
                Ok(Step::On)
            }
            Ok(None) => Ok(Step::Over),
            Err(_) => Err(Unjoined::Memory),
        }
    }
}
