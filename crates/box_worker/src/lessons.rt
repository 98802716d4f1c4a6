// Lemmas that are wider than the box whose run shows them. Which runs are repeated is a heuristic that promises nothing;
// that a lemma holds is what the patch ensures.
ghost use Rattle.std.specs.Prelude.{◌≡◌, [], None, Some, IfOk, IfSome, length};
ghost use Rattle.cover_model.specs.Fits.{FitsProblem};
ghost use Rattle.cover_model.specs.Root.{root_space};
ghost use Rattle.cover_data.specs.Margins.{AreMargins};
ghost use Rattle.cover_rule.specs.Narrowers.{NamesAtom};
ghost use Rattle.cover_rule.specs.Serves.{IsNumbered};
ghost use Rattle.poly_graph.specs.ProblemViews.{problem_of};
ghost use Rattle.box_worker.specs.Attempts.{Continues, Repeats, StaysOpen};
ghost use Rattle.box_worker.specs.Learned.{IsLesson, IsShownFromRoot};
ghost use Rattle.box_worker.specs.Worked.{margins_of};

use crate::room::Room;
use crate::{attempt, step};
use cover_data::{ClosedPatch, Closing, End, KeptPatch, Narrowing, Squares, Step};
use cover_rule::{Narrower, Options, Patch, State};
use dyadic::Dy;
use form_truth::{Root, root_space};
use poly_graph::{Lits, Problem};
use std::alloc::{AllocError, Global};

/// A run of more steps is not repeated.
const MOST_STEPS: usize = 64;

// Marks atom j as the state marks it, where there is such an atom.
fn copy_mark(from: &State, j: u32, into: &mut Lits)
    ensures { length into.new ≡ length into.old }
{
    let marks = from.lits();
    if (j as usize) < marks.len() && (j as usize) < into.len() {
        into.set(j, marks.mark(j));
    }
}

// Marks the atoms of these pairs as the state marks them.
fn copy_marks(from: &State, pairs: &[(u32, Dy)], into: &mut Lits)
    ensures { length into.new ≡ length into.old }
{
    for pair in pairs {
        copy_mark(from, pair.0, into);
    }
}

// Marks the atoms of a narrowing as the state marks them.
fn copy_marks_by(from: &State, narrowing: &Narrowing, into: &mut Lits)
    ensures { length into.new ≡ length into.old }
{
    match narrowing {
        Narrowing::Pull(j) => copy_mark(from, *j, into),
        Narrowing::Push(j) => copy_mark(from, *j, into),
        Narrowing::Combine(combination) => copy_marks(from, &combination.pairs, into),
    }
}

// Marks the atoms by which a step narrows as the state marks them.
fn copy_marks_of_step(from: &State, step: &Step, into: &mut Lits)
    ensures { length into.new ≡ length into.old }
{
    match step {
        Step::Narrow(narrowing) => copy_marks_by(from, narrowing, into),
        Step::Mark(_) => {}
    }
}

// Marks the atoms by which an end leaves nothing as the state marks them.
fn copy_marks_of_end(from: &State, end: &Option<End>, into: &mut Lits)
    ensures { length into.new ≡ length into.old }
{
    match end {
        Some(End::Close(Closing::Void(narrowing))) => copy_marks_by(from, narrowing, into),
        Some(End::Close(Closing::Squares(squares))) => copy_marks(from, &squares.pairs, into),
        _ => {}
    }
}

// The marks of the atoms by which a run narrows, as the state that it reaches has them.
fn marks_in_use(alloc: Global, problem: &Problem, run: &KeptPatch) -> Result<Lits, AllocError>
    ensures { IfOk result (λ l. length l ≡ length problem.now.atoms) }
{
    let mut marks = Lits::new(alloc, problem.atoms().len())?;
    for step in &run.steps {
        copy_marks_of_step(&run.reached, step, &mut marks);
    }
    copy_marks_of_end(&run.reached, &run.end, &mut marks);
    Ok(marks)
}

// The state of the root space with these marks, unless the root space is empty.
fn root_with(alloc: Global, problem: &Problem, marks: Lits) -> Result<Option<State>, AllocError>
    requires { length marks ≡ length problem.now.atoms }
    ensures fits { IfOk result (λ o. IfSome o (FitsProblem (problem_of problem.now))) }
    ensures root { IfOk result (λ o.
        IfSome o (λ s. s.space ≡ root_space (problem_of problem.now))) }
{
    match root_space(alloc, problem)? {
        Root::Empty(_) => Ok(None),
        Root::Space(space) => Ok(Some(State::new(space, marks))),
    }
}

// The same narrowing, where its atom is one of the patch's problem.
fn narrower<'a>(narrowing: &'a Narrowing, patch: &Patch) -> Option<Narrower<'a>>
    ensures { IfSome result (NamesAtom patch.now.problem) }
{
    let count = patch.problem().atoms().len();
    match narrowing {
        Narrowing::Pull(j) if (*j as usize) < count => Some(Narrower::Pull(*j)),
        Narrowing::Push(j) if (*j as usize) < count => Some(Narrower::Push(*j)),
        Narrowing::Combine(combination) => Some(Narrower::Combine(&combination.pairs)),
        _ => None,
    }
}

// Takes a step by which a run narrows once more.
fn repeat_step(step: &Step, patch: &mut Patch) -> Result<(), AllocError>
    ensures { StaysOpen patch.old patch.new }
{
    if let Step::Narrow(narrowing) = step {
        if let Some(by) = narrower(narrowing, patch) {
            step::narrow_by(patch, by)?;
        }
    }
    Ok(())
}

// Takes the steps by which a run narrows once more.
fn repeat_steps(steps: &[Step], patch: &mut Patch) -> Result<(), AllocError>
    ensures { StaysOpen patch.old patch.new }
{
    for step in steps {
        repeat_step(step, patch)?;
    }
    Ok(())
}

// Ends the patch where nothing is left by the same atom or combination.
fn void_again(narrowing: &Narrowing, patch: &mut Patch) -> Result<(), AllocError>
    ensures { IfOk result (λ u. Continues patch.old patch.new) }
{
    if let Some(by) = narrower(narrowing, patch) {
        attempt::void_by(patch, by)?;
    }
    Ok(())
}

// Ends the patch by the same squares, where that may be.
fn square_again(alloc: Global, squares: &Squares, patch: &mut Patch) -> Result<(), AllocError>
    ensures { IfOk result (λ u. Continues patch.old patch.new) }
{
    let Squares { pairs, blocks } = squares.try_clone(alloc)?;
    attempt::squares(patch, pairs, blocks)?;
    Ok(())
}

// Ends the patch as a run ended, where nothing is left by the same atom or combination, or by the same squares.
fn repeat_end(alloc: Global, end: &Option<End>, patch: &mut Patch) -> Result<(), AllocError>
    ensures { IfOk result (λ u. Continues patch.old patch.new) }
{
    match end {
        Some(End::Close(Closing::Void(narrowing))) => void_again(narrowing, patch),
        Some(End::Close(Closing::Squares(squares))) => square_again(alloc, squares, patch),
        _ => Ok(()),
    }
}

// Takes the steps by which a run narrows once more, and ends the patch as the run ended.
fn repeat(alloc: Global, run: &KeptPatch, patch: &mut Patch) -> Result<(), AllocError>
    requires quoted { patch.old.kept.quoted ≡ [] }
    requires open { patch.old.kept.end ≡ None }
    ensures { IfOk result (λ u. Repeats patch.old patch.new) }
{
    repeat_steps(&run.steps, patch)?;
    repeat_end(alloc, &run.end, patch)?;
    Ok(())
}

// Whether a run begins at the whole root space.
fn begins_at_root(alloc: Global, problem: &Problem, run: &KeptPatch) -> Result<bool, AllocError> {
    let space = run.first.space();
    match root_space(alloc, problem)? {
        Root::Empty(_) => Ok(false),
        Root::Space(root) => Ok(root.len() == space.len() && root.within(space)),
    }
}

// Whether a run ended by an atom or a combination that leaves nothing, or at the whole root space by squares, which hold about
// the middle of their box alone; and after few enough steps.
fn is_worth(alloc: Global, problem: &Problem, run: &KeptPatch) -> Result<bool, AllocError> {
    if run.steps.len() > MOST_STEPS {
        return Ok(false);
    }
    match &run.end {
        Some(End::Close(Closing::Void(_))) => Ok(true),
        Some(End::Close(Closing::Squares(_))) => begins_at_root(alloc, problem, run),
        _ => Ok(false),
    }
}

// What a closed run of the room's problem shows where it is repeated at this state of the whole root space. None where
// that does not leave nothing.
fn shown_at(
    alloc: Global,
    room: &mut Room,
    options: &Options,
    run: &KeptPatch,
    state: State,
) -> Result<Option<ClosedPatch>, AllocError>
    requires numbered { IsNumbered room.old }
    requires margins { AreMargins (margins_of options.now) }
    requires state { FitsProblem (problem_of room.old) state }
    requires root { state.space ≡ root_space (problem_of room.old) }
    ensures shown { IfOk result (λ o.
        IfSome o (IsShownFromRoot room.old (margins_of options.now))) }
    ensures room { room.new ≡ room.old }
{
    let margins = options.margins();
    let mut patch = room.begin(alloc, &margins, state)?;
    repeat(alloc, run, &mut patch)?;
    let kept = room.end(patch);
    match kept.closed() {
        Ok(closed) => Ok(Some(closed)),
        Err(_) => Ok(None),
    }
}

// What a closed run of the room's problem shows of the whole root space: it is repeated there with the marks alone of the
// atoms by which it narrows. None where that does not leave nothing.
fn widened(
    alloc: Global,
    room: &mut Room,
    options: &Options,
    run: &KeptPatch,
) -> Result<Option<ClosedPatch>, AllocError>
    requires numbered { IsNumbered room.old }
    requires margins { AreMargins (margins_of options.now) }
    ensures shown { IfOk result (λ o.
        IfSome o (IsShownFromRoot room.old (margins_of options.now))) }
    ensures room { room.new ≡ room.old }
{
    let problem = room.problem();
    if !is_worth(alloc, problem, run)? {
        return Ok(None);
    }
    let marks = marks_in_use(alloc, problem, run)?;
    match root_with(alloc, problem, marks)? {
        Some(state) => shown_at(alloc, room, options, run, state),
        None => Ok(None),
    }
}

// What a closed run of the room's problem shows of the whole root space, where it is due to be repeated.
fn repeated(
    alloc: Global,
    room: &mut Room,
    options: &Options,
    run: &KeptPatch,
) -> Result<Option<ClosedPatch>, AllocError>
    requires numbered { IsNumbered room.old }
    requires margins { AreMargins (margins_of options.now) }
    ensures shown { IfOk result (λ o.
        IfSome o (IsShownFromRoot room.old (margins_of options.now))) }
    ensures room { room.new ≡ room.old }
{
    if !room.heuristics.lessons.is_due() {
        return Ok(None);
    }
    let shown = widened(alloc, room, options, run)?;
    room.heuristics.lessons.note_repeat(shown.is_some());
    Ok(shown)
}

// The closed run, where it begins at the whole root space.
fn own_lesson(
    alloc: Global,
    problem: &Problem,
    own: Option<ClosedPatch>,
) -> Result<Option<ClosedPatch>, AllocError>
    ensures { IfOk result (λ o. IfSome o (λ c. own ≡ Some c)) }
{
    let Some(closed) = own else {
        return Ok(None);
    };
    if begins_at_root(alloc, problem, closed.kept())? {
        Ok(Some(closed))
    } else {
        Ok(None)
    }
}

/// What is to be learned of a closed run of the room's problem, of which `own` is a copy: a lemma that holds in each box
/// where some atoms are marked together. It is the run repeated at the whole root space with the marks alone of the atoms
/// by which it narrows, where that leaves nothing, else the copy where it begins at the root space. Runs are not repeated
/// for 1, 2, 4 boxes and so on, at most 32, after one that showed nothing so, nor after 16 that were repeated while
/// no lemma was quoted. A lemma of a smaller space is none to be learned: the boxes of a cover do not overlap, so it would not be quoted. What is repeated is a choice: that nothing is
/// learned is ruled out by no clause.
///
/// # Errors
///
/// Memory ran out.
pub fn lesson(
    alloc: Global,
    room: &mut Room,
    options: &Options,
    run: &KeptPatch,
    own: Option<ClosedPatch>,
) -> Result<Option<ClosedPatch>, AllocError>
    requires numbered { IsNumbered room.old }
    requires margins { AreMargins (margins_of options.now) }
    ensures lesson { IfOk result (λ o. IfSome o (IsLesson room.old (margins_of options.now) own)) }
    ensures room { room.new ≡ room.old }
{
    match repeated(alloc, room, options, run)? {
        Some(shown) => Ok(Some(shown)),
        None => own_lesson(alloc, room.problem(), own),
    }
}
