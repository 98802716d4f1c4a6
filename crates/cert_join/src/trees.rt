// The main tree of the joined certificate.
ghost use Rattle.std.specs.Prelude.{◌≡◌, ◌<◌, ◌∷◌, ◌++◌, ℕ, List, [], Some, IfNone, IfOk, MatchBool, OnOk, length};
ghost use Rattle.cover_model.specs.Rules.{Line};
ghost use Rattle.cover_model.specs.Derivation.{Tree};
ghost use Rattle.cert_read.specs.CertLine.{rule_line};
ghost use Rattle.cert_read.specs.LineText.{IsSpelled};
ghost use Rattle.cert_join.specs.Kinds.{left_kind, rule_text};
ghost use Rattle.cert_join.specs.Spot.{Spot, line_in};
ghost use Rattle.cert_join.specs.declared.trees.Task.TheVariants as task;
ghost use Rattle.cert_join.specs.Due.{AllGo, AllLeave, AreTaken, Course, IsAfter, IsCopying, IsDue, IsDueBehind, IsDueWeighed, IsHere, IsNextDue, stacked, with_behind};
ghost use Rattle.cert_join.specs.Gathered.{AllReady, AllThere, AreAlike, AreDistinct, AreNext, ArePassed, AreResized, Meeting, going, leaving, lists_of, numbers_at, parts_of, spot_at, text_at};
ghost use Rattle.cert_join.specs.Joining.{IsFirstOf};

use crate::cursor::Cursor;
use crate::joiner::{ROOM, Step};
use crate::line::{Left, append_renumbered, left_of, names_before};
use crate::weighing::Weighing;
use std::alloc::{AllocError, Global};
use std::mem;

// What is done next.
#[derive(Drop)]
enum Task {
    // The trees of the next place are compared.
    Compare,
    // The rest of a certificate's tree is copied, in which so many states wait.
    Copy { part: usize, waiting: u64 },
    Weigh(Weighing),
}

/// Goes through the main trees side by side.
#[derive(Drop)]
pub struct Trees {
    alloc: Global,
    // The places where a tree is due, the next one last: the certificates that have a tree there.
    places: Vec<Vec<usize>>,
    task: Task,
    /// Whether a line was dropped that another certificate does not have: one of a tree that was not taken, or one
    /// that says that a state is stuck; or one was gone through that an accepted certificate does not have.
    pub dropped: bool,
}

// What the certificate's next line leaves.
fn left_at(cursors: &[Cursor], part: usize) -> Left
    ensures { part < length cursors.now → (r : Line) →
        line_in (spot_at cursors.now part) ≡ Some (rule_text r) → result ≡ left_kind r }
{
    if part >= cursors.len() {
        return Left::Unknown;
    }
    left_of(cursors[part].text())
}

// The numbers of a certificate's lemmas.
fn numbers_of(numbers: &[Vec<u32>], part: usize) -> &[u32]
    ensures { result.now ≡ numbers_at (lists_of numbers.now) part }
{
    if part >= numbers.len() {
        return &[];
    }
    &numbers[part]
}

// Passes a certificate's next line.
fn pass_at(cursors: &mut [Cursor], part: usize)
    ensures { ArePassed (part ∷ []) cursors.old cursors.new }
{
    if part < cursors.len() {
        cursors[part].pass();
    }
}

// Passes the next line of each of these certificates.
fn pass_all(cursors: &mut [Cursor], parts: &[usize])
    ensures { AreDistinct parts.now → ArePassed parts.now cursors.old cursors.new }
{
    for part in parts {
        pass_at(cursors, *part);
    }
}

// Appends a certificate's next line without its break.
fn append_at(
    cursors: &[Cursor],
    numbers: &[Vec<u32>],
    part: usize,
    text: &mut Vec<u8>,
) -> Result<(), AllocError>
    ensures { OnOk result (part < length cursors.now → (r : Line) →
        line_in (spot_at cursors.now part) ≡ Some (rule_text r) → IsSpelled (rule_line r) →
        text.new.items ≡ text.old.items ++ text_at (lists_of numbers.now) part r) }
{
    if part >= cursors.len() {
        return Ok(());
    }
    append_renumbered(text, cursors[part].text(), numbers_of(numbers, part))
}

// The first of these certificates whose next line is not there yet.
fn unread_of(cursors: &mut [Cursor], parts: &[usize]) -> Option<usize>
    ensures same { AreResized cursors.old cursors.new }
    ensures ready { IfNone result (AllReady parts.now cursors.new) }
{
    for part in parts {
        if *part < cursors.len() && !cursors[*part].is_ready() {
            return Some(*part);
        }
    }
    None
}

// Whether the certificate's next line, which leaves this, is none that an accepted one has.
fn is_odd_at(cursors: &[Cursor], numbers: &[Vec<u32>], part: usize, left: Left) -> bool {
    if part >= cursors.len() || left == Left::Unknown {
        return true;
    }
    !names_before(cursors[part].text(), numbers_of(numbers, part).len())
}

// Certificates by what their next lines leave.
#[derive(Drop)]
struct Split {
    // Those whose next line does not leave its state, and those whose does.
    grown: Vec<usize>,
    left: Vec<usize>,
    // Whether a line says that its state is stuck, or is none that an accepted certificate has.
    is_odd: bool,
}

// Sorts these certificates by what their next lines leave.
fn sorted(
    alloc: Global,
    cursors: &[Cursor],
    numbers: &[Vec<u32>],
    parts: &[usize],
) -> Result<Split, AllocError>
    ensures { IfOk result (λ s. (place : Meeting) → parts_of place ≡ parts.now →
        AllThere parts.now cursors.now → AreNext cursors.now place →
        (s.grown.items ≡ parts_of (going place)) × (s.left.items ≡ parts_of (leaving place))) }
{
    let mut grown: Vec<usize> = Vec::new(alloc);
    let mut left: Vec<usize> = Vec::new(alloc);
    let mut is_odd = false;
    for part in parts {
        let kind = left_at(cursors, *part);
        is_odd = is_odd || kind == Left::Stuck || is_odd_at(cursors, numbers, *part, kind);
        if kind.stays() {
            left.push(*part)?;
        } else {
            grown.push(*part)?;
        }
    }
    Ok(Split {
        grown,
        left,
        is_odd,
    })
}

// Whether the next lines of these certificates are the same as that of this one.
fn are_alike(
    alloc: Global,
    cursors: &[Cursor],
    numbers: &[Vec<u32>],
    first: usize,
    others: &[usize],
) -> Result<bool, AllocError>
    ensures { IfOk result (λ b. (x : ℕ × Tree) (place : Meeting) → x.0 ≡ first →
        parts_of place ≡ others.now → AllThere (parts_of (x ∷ place)) cursors.now →
        AreNext cursors.now (x ∷ place) →
        MatchBool b (AreAlike (lists_of numbers.now) x place)
        (AreAlike (lists_of numbers.now) x place → ⊥)) }
{
    let mut line: Vec<u8> = Vec::new(alloc);
    append_at(cursors, numbers, first, &mut line)?;
    let mut other: Vec<u8> = Vec::new(alloc);
    for part in others {
        other.clear();
        append_at(cursors, numbers, *part, &mut other)?;
        if line != other {
            return Ok(false);
        }
    }
    Ok(true)
}

// Copies the next line of a certificate's trees, of which so many wait; says whether it was there.
fn copy_line(
    cursor: &mut Cursor,
    numbers: &[u32],
    waiting: &mut u64,
    text: &mut Vec<u8>,
    is_odd: &mut bool,
) -> Result<bool, AllocError>
    ensures { IfOk result (λ _. (cert : List ℕ) (rest : List (List ℕ)) (whole : List ℕ) →
        0 < waiting.old →
        IsCopying cert numbers.now rest whole waiting.old text.old.items cursor.old →
        IsCopying cert numbers.now rest whole waiting.new text.new.items cursor.new) }
{
    if !cursor.is_ready() {
        return Ok(false);
    }
    let line = cursor.text();
    let left = left_of(line);
    *is_odd = *is_odd || left == Left::Unknown || !names_before(line, numbers.len());
    append_renumbered(text, line, numbers)?;
    text.push(b'\n')?;
    *waiting = left.waiting(*waiting);
    cursor.pass();
    Ok(true)
}

// Copies lines of a certificate's trees, as long as trees wait, up to so many bytes; says whether all that it wanted was
// there.
fn copy(
    cursor: &mut Cursor,
    numbers: &[u32],
    waiting: &mut u64,
    text: &mut Vec<u8>,
    is_odd: &mut bool,
) -> Result<bool, AllocError>
    ensures { IfOk result (λ _. (cert : List ℕ) (rest : List (List ℕ)) (whole : List ℕ) →
        IsCopying cert numbers.now rest whole waiting.old text.old.items cursor.old →
        IsCopying cert numbers.now rest whole waiting.new text.new.items cursor.new) }
{
    for _ in 0..ROOM {
        if *waiting == 0 || text.len() >= ROOM {
            break;
        }
        if !copy_line(cursor, numbers, waiting, text, is_odd)? {
            return Ok(false);
        }
    }
    Ok(true)
}

// Takes the next line of one certificate, and passes those of all of these, of which it is one.
fn take_line(
    cursors: &mut [Cursor],
    numbers: &[Vec<u32>],
    part: usize,
    parts: &[usize],
    text: &mut Vec<u8>,
) -> Result<(), AllocError>
    ensures { IfOk result (λ _. AreTaken (lists_of numbers.now) part parts.now
        text.old.items cursors.old text.new.items cursors.new) }
{
    append_at(cursors, numbers, part, text)?;
    text.push(b'\n')?;
    pass_all(cursors, parts);
    Ok(())
}

// Takes the line of the first of these certificates, where the lines of all leave their states.
fn leave(
    cursors: &mut [Cursor],
    numbers: &[Vec<u32>],
    parts: &[usize],
    text: &mut Vec<u8>,
) -> Result<(), AllocError>
    ensures { IfOk result (λ _. (k : Course) (places : List (List ℕ)) →
        k.numbers ≡ lists_of numbers.now →
        (h : IsHere k parts.now places text.old.items cursors.old) → AllLeave (h.first ∷ h.others) →
        IsDue k places text.new.items cursors.new) }
{
    if parts.is_empty() {
        return Ok(());
    }
    take_line(cursors, numbers, parts[0], parts, text)?;
    Ok(())
}

// What is done next where so many trees of a certificate wait to be copied.
fn copying(part: usize, waiting: u64) -> Task
    ensures { (k : Course) (places : List (List ℕ)) (text : List ℕ) (spots : List Spot) →
        IsDueBehind k part waiting places text spots → IsNextDue k result places text spots }
{
    if waiting > 0 {
        Task::Copy { part, waiting }
    } else {
        Task::Compare
    }
}

impl Trees {
    /// All certificates, of which there are so many, have a tree at the first place.
    pub fn new(alloc: Global, count: usize) -> Result<Self, AllocError>
        ensures { IfOk result (λ trees. IsFirstOf count trees) }
    {
        let mut all: Vec<usize> = Vec::new(alloc);
        for part in 0..count {
            match all.push(part) {
                Ok(()) => {}
                Err(_) => return Err(AllocError),
            }
        }
        let mut places = Vec::new(alloc);
        match places.push(all) {
            Ok(()) => {}
            Err(_) => return Err(AllocError),
        }
        Ok(Trees {
            alloc,
            places,
            task: Task::Compare,
            dropped: false,
        })
    }

    // Compares the trees of these certificates, whose next lines are there.
    fn compare(
        &mut self,
        cursors: &mut [Cursor],
        numbers: &[Vec<u32>],
        parts: &[usize],
        text: &mut Vec<u8>,
    ) -> Result<Task, AllocError>
        ensures { IfOk result (λ task. (k : Course) → k.numbers ≡ lists_of numbers.now →
            AllReady parts.now cursors.old →
            IsDue k (parts.now ∷ stacked self.old.places.items) text.old.items cursors.old →
            IsNextDue k task (stacked self.new.places.items) text.new.items cursors.new) }
    {
        let sorted = sorted(self.alloc, cursors, numbers, parts)?;
        if sorted.grown.is_empty() {
            leave(cursors, numbers, parts, text)?;
            return Ok(Task::Compare);
        }
        self.dropped = self.dropped || sorted.is_odd;
        pass_all(cursors, &sorted.left);
        let task = self.go_on(cursors, numbers, sorted.grown, text)?;
        Ok(task)
    }

    // Goes on with the trees of these certificates, none of which leaves its state at once.
    fn go_on(
        &mut self,
        cursors: &mut [Cursor],
        numbers: &[Vec<u32>],
        parts: Vec<usize>,
        text: &mut Vec<u8>,
    ) -> Result<Task, AllocError>
        ensures { IfOk result (λ task. (k : Course) → k.numbers ≡ lists_of numbers.now →
            (h : IsHere k parts.items (stacked self.old.places.items) text.old.items cursors.old) →
            AllGo (h.first ∷ h.others) →
            IsNextDue k task (stacked self.new.places.items) text.new.items cursors.new) }
    {
        if parts.is_empty() {
            return Ok(Task::Compare);
        }
        let part = parts[0];
        if parts.len() == 1 {
            return Ok(Task::Copy { part, waiting: 1 });
        }
        if are_alike(self.alloc, cursors, numbers, part, &parts[1..])? {
            self.share(cursors, numbers, part, parts, text)?;
            return Ok(Task::Compare);
        }
        self.dropped = true;
        Ok(Task::Weigh(Weighing::new(parts)))
    }

    // Adds the places behind a line of this kind.
    fn push_behind(&mut self, left: Left, parts: Vec<usize>) -> Result<(), AllocError>
        ensures { IfOk result (λ _. stacked self.new.places.items ≡
            with_behind left parts.items (stacked self.old.places.items)) }
    {
        match left {
            Left::Two => {
                let again = Vec::from_slice(self.alloc, &parts)?;
                self.places.push(again)?;
                self.places.push(parts)?;
                Ok(())
            }
            Left::One => {
                self.places.push(parts)?;
                Ok(())
            }
            Left::Nothing | Left::Open | Left::Stuck | Left::Unknown => Ok(()),
        }
    }

    // Takes the line that these certificates share, of which this is one, and goes on to the places behind it.
    fn share(
        &mut self,
        cursors: &mut [Cursor],
        numbers: &[Vec<u32>],
        part: usize,
        parts: Vec<usize>,
        text: &mut Vec<u8>,
    ) -> Result<(), AllocError>
        ensures { IfOk result (λ _. (k : Course) → k.numbers ≡ lists_of numbers.now →
            (h : IsHere k parts.items (stacked self.old.places.items) text.old.items cursors.old) →
            part ≡ h.first.0 → AllGo (h.first ∷ h.others) → AreAlike k.numbers h.first h.others →
            IsDue k (stacked self.new.places.items) text.new.items cursors.new) }
    {
        let left = left_at(cursors, part);
        take_line(cursors, numbers, part, &parts, text)?;
        self.push_behind(left, parts)?;
        Ok(())
    }

    // Goes on to the next place, once the lines there are read.
    fn step_to_place(
        &mut self,
        cursors: &mut [Cursor],
        numbers: &[Vec<u32>],
        text: &mut Vec<u8>,
    ) -> Result<Step, AllocError>
        ensures { IfOk result (λ step. (k : Course) → k.numbers ≡ lists_of numbers.now →
            self.old.task ≡ task.Compare →
            IsDue k (stacked self.old.places.items) text.old.items cursors.old →
            IsAfter k step self.new.task (stacked self.new.places.items)
            text.new.items cursors.new) }
    {
        let Some(parts) = self.places.pop() else {
            return Ok(Step::Over);
        };
        if let Some(part) = unread_of(cursors, &parts) {
            self.places.push(parts)?;
            return Ok(Step::Read(part));
        }
        self.task = self.compare(cursors, numbers, &parts, text)?;
        Ok(Step::On)
    }

    // Goes on with the copy of trees of a certificate, of which so many wait.
    fn step_to_copy(
        &mut self,
        cursors: &mut [Cursor],
        numbers: &[Vec<u32>],
        part: usize,
        waiting: u64,
        text: &mut Vec<u8>,
    ) -> Result<Step, AllocError>
        ensures { IfOk result (λ step. (k : Course) → k.numbers ≡ lists_of numbers.now →
            self.old.task ≡ task.Compare →
            IsDueBehind k part waiting (stacked self.old.places.items) text.old.items cursors.old →
            IsAfter k step self.new.task (stacked self.new.places.items)
            text.new.items cursors.new) }
    {
        if part >= cursors.len() {
            return Ok(Step::On);
        }
        let mut left = waiting;
        let own = numbers_of(numbers, part);
        let is_there = copy(&mut cursors[part], own, &mut left, text, &mut self.dropped)?;
        self.task = copying(part, left);
        if is_there {
            Ok(Step::On)
        } else {
            Ok(Step::Read(part))
        }
    }

    /// Writes one more line or a few, or reads.
    pub fn step(
        &mut self,
        cursors: &mut [Cursor],
        numbers: &[Vec<u32>],
        text: &mut Vec<u8>,
    ) -> Result<Step, AllocError>
        ensures { IfOk result (λ step. (k : Course) → k.numbers ≡ lists_of numbers.now →
            IsNextDue k self.old.task (stacked self.old.places.items) text.old.items cursors.old →
            IsAfter k step self.new.task (stacked self.new.places.items)
            text.new.items cursors.new) }
    {
        match mem::replace(&mut self.task, Task::Compare) {
            Task::Compare => {
                let step = self.step_to_place(cursors, numbers, text)?;
                Ok(step)
            }
            Task::Copy { part, waiting } => {
                let step = self.step_to_copy(cursors, numbers, part, waiting, text)?;
                Ok(step)
            }
            Task::Weigh(weighing) => Ok(self.step_to_weigh(cursors, weighing)),
        }
    }

    // Goes on with the choice of a tree.
    fn step_to_weigh(&mut self, cursors: &mut [Cursor], weighing: Weighing) -> Step
        ensures { (k : Course) (text : List ℕ) →
            IsDueWeighed k weighing (stacked self.old.places.items) text cursors.old →
            IsAfter k result self.new.task (stacked self.new.places.items) text cursors.new }
    {
        let mut weighing = weighing;
        match weighing.step(cursors) {
            Step::Over => {}
            Step::On => {
                self.task = Task::Weigh(weighing);
                return Step::On;
            }
            Step::Read(part) => {
                self.task = Task::Weigh(weighing);
                return Step::Read(part);
            }
        }
        let Some((part, mark)) = weighing.chosen() else {
            return Step::On;
        };
        if part >= cursors.len() {
            return Step::On;
        }
        cursors[part].rewind(mark);
        self.task = Task::Copy { part, waiting: 1 };
        Step::On
    }
}
