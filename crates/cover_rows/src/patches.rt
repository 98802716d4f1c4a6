// Patches that are led by hand: what they answer to each line, and the states that they leave.
ghost use Rattle.std.specs.Prelude.{◌≡◌, ◌<◌, ◌≤◌, length, IfSome, IsTrue};
ghost use Rattle.cover_model.specs.Fits.{FitsProblem};
ghost use Rattle.cover_model.specs.State.{IsLemma};
ghost use Rattle.cover_book.specs.Model.{margins_of, problem_in, loosenings_in};
ghost use Rattle.cover_data.specs.Runs.{CanPart};
ghost use Rattle.cover_data.specs.Views.{kept_of};
ghost use Rattle.cover_rule.specs.Narrowers.{NamesAtom};

use crate::made::problem;
use cert_read::{BoolSet, Line, LineReader};
use cover_book::Book;
use cover_line::{Branching, Ending, Marking, Narrowing, Rule, Staying};
use cover_rule::{
    Closing, End, KeptPatch, Lemma, Narrower, Narrowing as PatchNarrowing, Options, Patch,
    PatchRefusal, State, Step,
};
use ival::{Domain, Range, Space, Truths};
use poly_graph::{Lits, Mark};
use sample_problems::{USUAL, lies_within};
use std::alloc::Global;

// ---- states by hand

// What a line of a certificate says.
pub(crate) fn line_of(alloc: Global, text: &str) -> Option<Line> {
    let mut reader = LineReader::new(alloc);
    reader.feed(text.as_bytes()).ok()?;
    reader.end();
    reader.next_line().ok()?
}

// What a line leaves to an axis.
fn domain_in(line: &Line) -> Option<Domain> {
    match line {
        Line::RealInterval(low, high) => Some(Domain::Real(Range::between(*low, *high)?)),
        Line::Bool(BoolSet::False) => Some(Domain::Bool(Truths::False)),
        Line::Bool(BoolSet::True) => Some(Domain::Bool(Truths::True)),
        Line::Bool(BoolSet::Both) => Some(Domain::Bool(Truths::Either)),
        _ => None,
    }
}

// Marks these atoms.
fn mark_all(lits: &mut Lits, atoms: &[u32], mark: Mark) {
    for atom in atoms {
        if (*atom as usize) < lits.len() {
            lits.set(*atom, mark);
        }
    }
}

// Adds what a line says of an axis or of marks.
fn add(line: &Line, axes: &mut Vec<Domain>, lits: &mut Lits) -> Option<()> {
    match line {
        Line::Yes(atoms) => mark_all(lits, atoms, Mark::Yes),
        Line::No(atoms) => mark_all(lits, atoms, Mark::No),
        other => axes.push(domain_in(other)?).ok()?,
    }
    Some(())
}

// The state that these lines of a certificate say, of a problem with so many atoms.
pub(crate) fn state_of(alloc: Global, atoms: usize, lines: &[&str]) -> Option<State> {
    let mut axes = Vec::new(alloc);
    let mut lits = Lits::new(alloc, atoms).ok()?;
    for text in lines {
        let line = line_of(alloc, text)?;
        add(&line, &mut axes, &mut lits)?;
    }
    Some(State::new(Space { axes }, lits))
}

// Whether this is the state that the lines say.
pub(crate) fn is_state(alloc: Global, state: &State, lines: &[&str]) -> bool {
    match state_of(alloc, state.lits().len(), lines) {
        Some(said) => said.is_same(state),
        None => false,
    }
}

// ---- patches

// What a patch answers.
pub(crate) type Answer = Result<(), PatchRefusal>;

pub(crate) const DONE: Answer = Ok(());

pub(crate) const NOT_HONEST: Answer = Err(PatchRefusal::NotHonest);

pub(crate) const NOT_FALSE: Answer = Err(PatchRefusal::NotFalse);

pub(crate) const NOT_FORCED: Answer = Err(PatchRefusal::NotForced);

pub(crate) const NOT_STUCK: Answer = Err(PatchRefusal::NotStuck);

pub(crate) const NOT_YES: Answer = Err(PatchRefusal::NotYes);

pub(crate) const NOT_NO: Answer = Err(PatchRefusal::NotNo);

pub(crate) const NOT_COMBINABLE: Answer = Err(PatchRefusal::NotCombinable);

pub(crate) const NOT_GROUPS: Answer = Err(PatchRefusal::NotGroups);

pub(crate) const TOO_LONG: Answer = Err(PatchRefusal::TooLong);

pub(crate) const IS_VOID: Answer = Err(PatchRefusal::IsVoid);

pub(crate) const NOT_INSIDE: Answer = Err(PatchRefusal::NotInside);

pub(crate) const NOT_COVERED: Answer = Err(PatchRefusal::NotCovered);

pub(crate) const DECIDED: Answer = Err(PatchRefusal::Decided);

pub(crate) const ENDED: Answer = Err(PatchRefusal::Ended);

// The book with which a search for the script's problem opens, where axes are cut down to this width, so often at most.
pub(crate) fn book_of(alloc: Global, script: &str, least_bits: u32, budget: u32) -> Option<Book>
    requires least { least_bits ≤ 60 }
    requires budget { budget ≤ 100 }
{
    let problem = problem(alloc, script)?;
    let options = Options {
        least_bits,
        budget,
        ..USUAL
    };
    Book::new(alloc, problem, options).ok()
}

// A patch that begins in a state of the book's problem.
pub(crate) fn begun_at<'a>(alloc: Global, book: &'a Book, state: State) -> Option<Patch<'a>>
    ensures problem { IfSome result (λ p. p.problem ≡ book.now.problem) }
    ensures margins { IfSome result (λ p. p.margins ≡ margins_of book.now.options) }
{
    let problem = book.problem();
    if !lies_within(alloc, problem, &state) {
        return None;
    }
    let margins = book.options().margins();
    Patch::begin(alloc, problem, &margins, state).ok()
}

// Whether there is such an atom.
fn is_atom(book: &Book, j: u32) -> bool
    ensures { IsTrue result → j < length book.now.problem.atoms }
{
    (j as usize) < book.problem().atoms().len()
}

// Whether there is such an axis.
fn is_axis(book: &Book, axis: u32) -> bool
    ensures { IsTrue result → axis < length book.now.problem.axes }
{
    (axis as usize) < book.problem().axes().len()
}

// What it narrows by; none where the atom that it names is not there.
fn narrower<'a>(book: &Book, narrowing: &'a Narrowing) -> Option<Narrower<'a>>
    ensures { IfSome result (λ by. NamesAtom book.now.problem by) }
{
    match narrowing {
        Narrowing::Pull(j) if is_atom(book, *j) => Some(Narrower::Pull(*j)),
        Narrowing::Push(j) if is_atom(book, *j) => Some(Narrower::Push(*j)),
        Narrowing::Combine(pairs) => Some(Narrower::Combine(pairs)),
        _ => None,
    }
}

// What the patch answers to a line that narrows its state, or names an atom; none where the atom is not there, and for
// another line.
fn answer_at_atom(book: &Book, patch: &mut Patch, line: &Line) -> Option<Answer>
    requires { patch.old.problem ≡ book.now.problem }
    ensures problem { patch.new.problem ≡ patch.old.problem }
    ensures margins { patch.new.margins ≡ patch.old.margins }
{
    match line {
        Line::Rule(Rule::Narrow(narrowing)) => Some(patch.narrow(narrower(book, narrowing)?)),
        Line::Rule(Rule::End(Ending::Void(narrowing))) => {
            Some(patch.void(narrower(book, narrowing)?))
        }
        Line::Rule(Rule::Mark(Marking::Unit(j))) if is_atom(book, *j) => Some(patch.unit(*j)),
        Line::Rule(Rule::Branch(Branching::Case(j))) if is_atom(book, *j) => Some(patch.case(*j)),
        Line::Rule(Rule::Stay(Staying::Stuck(j))) if is_atom(book, *j) => Some(patch.stuck(*j)),
        _ => None,
    }
}

// What the patch answers to a line that quotes the lemma.
fn answer_by(book: &Book, lemma: &Lemma, patch: &mut Patch, line: &Line) -> Option<Answer>
    requires problem { patch.old.problem ≡ book.now.problem }
    requires margins { patch.old.margins ≡ margins_of book.now.options }
    requires fits { FitsProblem (problem_in book.now) lemma.now.state }
    requires lemma { IsLemma (problem_in book.now) (loosenings_in book.now) lemma.now.state }
    ensures problem { patch.new.problem ≡ patch.old.problem }
    ensures margins { patch.new.margins ≡ patch.old.margins }
{
    match line {
        Line::Rule(Rule::Mark(Marking::Ban(j, id))) if *id == lemma.id() && is_atom(book, *j) =>
            Some(patch.ban(*j, lemma)),
        Line::Rule(Rule::End(Ending::By(id))) if *id == lemma.id() => Some(patch.by(lemma)),
        _ => None,
    }
}

// What the patch answers to a line that has no lists of its own. It chooses where on its axis a cut is made.
fn answer_to(book: &Book, lemma: Option<&Lemma>, patch: &mut Patch, line: &Line) -> Option<Answer>
    requires problem { patch.old.problem ≡ book.now.problem }
    requires margins { patch.old.margins ≡ margins_of book.now.options }
    requires fits { IfSome lemma (λ l. FitsProblem (problem_in book.now) l.now.state) }
    requires lemma { IfSome lemma (λ l.
        IsLemma (problem_in book.now) (loosenings_in book.now) l.now.state) }
    ensures problem { patch.new.problem ≡ patch.old.problem }
    ensures margins { patch.new.margins ≡ patch.old.margins }
{
    match line {
        Line::Rule(Rule::End(Ending::False)) => Some(patch.make_false()),
        Line::Rule(Rule::Branch(Branching::Cut(axis, _))) => Some(patch.cut(*axis)),
        Line::Rule(Rule::Branch(Branching::Flip(axis))) if is_axis(book, *axis) => Some(patch.flip(
            *axis,
        )),
        Line::Rule(Rule::Mark(Marking::Ban(_, _))) | Line::Rule(Rule::End(Ending::By(_))) =>
            answer_by(book, lemma?, patch, line),
        _ => answer_at_atom(book, patch, line),
    }
}

// What the patch answers to a line.
fn answer(book: &Book, lemma: Option<&Lemma>, patch: &mut Patch, line: Line) -> Option<Answer>
    requires problem { patch.old.problem ≡ book.now.problem }
    requires margins { patch.old.margins ≡ margins_of book.now.options }
    requires fits { IfSome lemma (λ l. FitsProblem (problem_in book.now) l.now.state) }
    requires lemma { IfSome lemma (λ l.
        IsLemma (problem_in book.now) (loosenings_in book.now) l.now.state) }
    ensures problem { patch.new.problem ≡ patch.old.problem }
    ensures margins { patch.new.margins ≡ patch.old.margins }
{
    match line {
        Line::Rule(Rule::End(Ending::Squares(pairs, blocks))) => {
            Some(patch.squares(pairs, blocks))
        }
        Line::Rule(Rule::Branch(Branching::Either(first, second))) => {
            Some(patch.either(first, second))
        }
        other => answer_to(book, lemma, patch, &other),
    }
}

// Whether the patch answers so, and its state stays as it was before where it refuses.
fn answers_so(
    book: &Book,
    lemma: Option<&Lemma>,
    patch: &mut Patch,
    line: Line,
    expected: Answer,
    before: &State,
) -> bool
    requires problem { patch.old.problem ≡ book.now.problem }
    requires margins { patch.old.margins ≡ margins_of book.now.options }
    requires fits { IfSome lemma (λ l. FitsProblem (problem_in book.now) l.now.state) }
    requires lemma { IfSome lemma (λ l.
        IsLemma (problem_in book.now) (loosenings_in book.now) l.now.state) }
    ensures problem { patch.new.problem ≡ patch.old.problem }
    ensures margins { patch.new.margins ≡ patch.old.margins }
{
    match answer(book, lemma, patch, line) {
        None => false,
        Some(answer) => answer == expected && (answer.is_ok() || patch.reached().is_same(before)),
    }
}

// The same of the state that the patch has reached.
fn is_line_answered(
    alloc: Global,
    book: &Book,
    lemma: Option<&Lemma>,
    patch: &mut Patch,
    line: Line,
    expected: Answer,
) -> bool
    requires problem { patch.old.problem ≡ book.now.problem }
    requires margins { patch.old.margins ≡ margins_of book.now.options }
    requires fits { IfSome lemma (λ l. FitsProblem (problem_in book.now) l.now.state) }
    requires lemma { IfSome lemma (λ l.
        IsLemma (problem_in book.now) (loosenings_in book.now) l.now.state) }
    ensures problem { patch.new.problem ≡ patch.old.problem }
    ensures margins { patch.new.margins ≡ patch.old.margins }
{
    match patch.reached().try_clone(alloc) {
        Ok(before) => answers_so(book, lemma, patch, line, expected, &before),
        Err(_) => false,
    }
}

// The same of a line's text.
fn is_answered(
    alloc: Global,
    book: &Book,
    lemma: Option<&Lemma>,
    patch: &mut Patch,
    text: &str,
    expected: Answer,
) -> bool
    requires problem { patch.old.problem ≡ book.now.problem }
    requires margins { patch.old.margins ≡ margins_of book.now.options }
    requires fits { IfSome lemma (λ l. FitsProblem (problem_in book.now) l.now.state) }
    requires lemma { IfSome lemma (λ l.
        IsLemma (problem_in book.now) (loosenings_in book.now) l.now.state) }
    ensures problem { patch.new.problem ≡ patch.old.problem }
    ensures margins { patch.new.margins ≡ patch.old.margins }
{
    match line_of(alloc, text) {
        Some(line) => is_line_answered(alloc, book, lemma, patch, line, expected),
        None => false,
    }
}

// Whether the patch answers each line so, one after another.
fn follow(
    alloc: Global,
    book: &Book,
    lemma: Option<&Lemma>,
    patch: &mut Patch,
    lines: &[(&'static str, Answer)],
) -> bool
    requires problem { patch.old.problem ≡ book.now.problem }
    requires margins { patch.old.margins ≡ margins_of book.now.options }
    requires fits { IfSome lemma (λ l. FitsProblem (problem_in book.now) l.now.state) }
    requires lemma { IfSome lemma (λ l.
        IsLemma (problem_in book.now) (loosenings_in book.now) l.now.state) }
    ensures problem { patch.new.problem ≡ patch.old.problem }
    ensures margins { patch.new.margins ≡ patch.old.margins }
{
    for (text, expected) in lines {
        if !is_answered(alloc, book, lemma, patch, text, *expected) {
            return false;
        }
    }
    true
}

// The patch that begins in the state and answers each line so; none where it does not.
pub(crate) fn led<'a>(
    alloc: Global,
    book: &'a Book,
    lemma: Option<&Lemma>,
    state: State,
    lines: &[(&'static str, Answer)],
) -> Option<Patch<'a>>
    requires fits { IfSome lemma (λ l. FitsProblem (problem_in book.now) l.now.state) }
    requires lemma { IfSome lemma (λ l.
        IsLemma (problem_in book.now) (loosenings_in book.now) l.now.state) }
    ensures problem { IfSome result (λ p. p.problem ≡ book.now.problem) }
    ensures margins { IfSome result (λ p. p.margins ≡ margins_of book.now.options) }
{
    let mut patch = begun_at(alloc, book, state)?;
    if follow(alloc, book, lemma, &mut patch, lines) {
        Some(patch)
    } else {
        None
    }
}

// The lemma of this number that a closed patch gives.
fn lemma_of(alloc: Global, book: &Book, patch: Patch, id: u32) -> Option<Lemma>
    requires problem { patch.problem ≡ book.now.problem }
    requires margins { patch.margins ≡ margins_of book.now.options }
    ensures fits { IfSome result (λ l. FitsProblem (problem_in book.now) l.state) }
    ensures lemma { IfSome result (λ l.
        IsLemma (problem_in book.now) (loosenings_in book.now) l.state) }
{
    let _ = patch.reached();
    match patch.closed() {
        Ok(closed) => {
            let state = closed.kept().first.try_clone(alloc).ok()?;
            Some(Lemma::new(id, state))
        }
        Err(_) => None,
    }
}

// Whether the two states that are left are these; not so where no branch was made.
fn are_left(alloc: Global, kept: &KeptPatch, lower: &[&str], upper: &[&str]) -> bool
    requires { IfSome (kept_of kept.now).end (λ l. CanPart l kept.now.reached) }
{
    match kept.kids(alloc) {
        Ok(Some(kids)) => is_state(alloc, &kids.0, lower) && is_state(alloc, &kids.1, upper),
        _ => false,
    }
}

// The same of what the patch leaves.
pub(crate) fn leaves(alloc: Global, patch: Patch, lower: &[&str], upper: &[&str]) -> bool {
    let (kept, _) = patch.into_kept();
    are_left(alloc, &kept, lower, upper)
}

// Whether the line narrows so.
fn is_narrowing(read: &Narrowing, made: &PatchNarrowing) -> bool {
    match (read, made) {
        (Narrowing::Pull(j), PatchNarrowing::Pull(k)) => *j == *k,
        (Narrowing::Push(j), PatchNarrowing::Push(k)) => *j == *k,
        (Narrowing::Combine(pairs), PatchNarrowing::Combine(made)) => {
            pairs.as_slice() == made.pairs.as_slice()
        }
        _ => false,
    }
}

// Whether the line says this step.
fn is_step(line: &Line, step: &Step) -> bool {
    match (line, step) {
        (Line::Rule(Rule::Narrow(read)), Step::Narrow(made)) => is_narrowing(read, made),
        (Line::Rule(Rule::Mark(read)), Step::Mark(made)) => *read == *made,
        _ => false,
    }
}

fn says_step(alloc: Global, text: &str, step: &Step) -> bool {
    match line_of(alloc, text) {
        Some(line) => is_step(&line, step),
        None => false,
    }
}

// Whether the lines say these steps.
fn are_steps(alloc: Global, lines: &[&str], steps: &[Step]) -> bool {
    if lines.len() != steps.len() {
        return false;
    }
    for i in 0..lines.len() {
        if !says_step(alloc, lines[i], &steps[i]) {
            return false;
        }
    }
    true
}

// Whether the line says this end, which closes a state.
fn is_end(line: &Line, end: &End) -> bool {
    match (line, end) {
        (Line::Rule(Rule::End(Ending::Void(read))), End::Close(Closing::Void(made))) => {
            is_narrowing(read, made)
        }
        (
            Line::Rule(Rule::End(Ending::Squares(pairs, blocks))),
            End::Close(Closing::Squares(made)),
        ) => pairs.as_slice() == made.pairs.as_slice()
            && blocks.as_slice() == made.blocks.as_slice(),
        (Line::Rule(Rule::End(Ending::False)), End::Close(Closing::False)) => true,
        (Line::Rule(Rule::End(Ending::By(id))), End::Close(Closing::By(quoted))) => *id == *quoted,
        _ => false,
    }
}

fn says_end(alloc: Global, text: &str, end: &End) -> bool {
    match line_of(alloc, text) {
        Some(line) => is_end(&line, end),
        None => false,
    }
}

// Whether these lines say what is kept.
pub(crate) fn are_kept(alloc: Global, kept: &KeptPatch, steps: &[&str], line: &str) -> bool {
    match &kept.end {
        Some(end) => are_steps(alloc, steps, &kept.steps) && says_end(alloc, line, end),
        None => false,
    }
}

// The lemma of this number of the whole interval with the last atom marked yes.
pub(crate) fn outside_lemma(alloc: Global, book: &Book, id: u32) -> Option<Lemma>
    ensures fits { IfSome result (λ l. FitsProblem (problem_in book.now) l.state) }
    ensures lemma { IfSome result (λ l.
        IsLemma (problem_in book.now) (loosenings_in book.now) l.state) }
{
    let state = state_of(alloc, 5, &["real 0 1b0", "yes 4"])?;
    let lines = [("pull 4", DONE), ("false", DONE)];
    let patch = led(alloc, book, None, state, &lines)?;
    lemma_of(alloc, book, patch, id)
}
