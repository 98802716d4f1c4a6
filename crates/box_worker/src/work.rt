// The work on one box.
ghost use Rattle.std.specs.Prelude.{◌≡◌, IfOk, IsTrue, MatchOption, not, length, None, All};
ghost use Rattle.poly_graph.specs.ProblemViews.{problem_of};
ghost use Rattle.cover_model.specs.State.{sure};
ghost use Rattle.interval_model.specs.Space.{middle};
ghost use Rattle.cover_model.specs.Fits.{FitsProblem, IsShownAt};
ghost use Rattle.cover_data.specs.Margins.{AreMargins};
ghost use Rattle.cover_rule.specs.Middle.{LiesInRoot};
ghost use Rattle.cover_rule.specs.Patch.{loosenings_in, problem_in, run_at};
ghost use Rattle.cover_rule.specs.Serves.{IsNumbered};
ghost use Rattle.box_worker.specs.Attempts.{Continues};
ghost use Rattle.box_worker.specs.Ended.{AtOnce, ComesToEnd, HasEnded, first_covering};
ghost use Rattle.box_worker.specs.OpenPatch.{IsOpenFor, open_model};
ghost use Rattle.box_worker.specs.Worked.{margins_of, AreLemmasFor, AreLemmasAt, AnswersAtOnceFor, IsWorkFor, IsClosedWork, WorkOf};
ghost use Rattle.cover_data.specs.Runs.{IsClosed};
ghost use Rattle.cover_data.specs.Views.{kept_of};

use crate::attempt;
use crate::branching::part;
use crate::contraction::Contraction;
use crate::ended::Ended;
use crate::facts::{problem_is_whole, run_is_lawful};
use crate::found::found_point;
use crate::heuristics::Heuristics;
use crate::learn::{copy, teaches_nothing};
use crate::open_patch::OpenPatch;
use crate::preconditions::{close_at, mark_conjuncts, void_any};
use crate::room::Room;
use crate::scout::{Emptied, Scout};
use crate::split::split;
use crate::squaring::close_by_squares;
use crate::worked::Worked;
use cover_rule::{KeptPatch, Lemma, MiddlePoint, Options, Patch, Point, State};
use std::alloc::{AllocError, Global};

// The middle of the state that the patch has reached; none where the form is not sure there.
fn middle_point(alloc: Global, patch: &mut Patch) -> Result<Option<Point>, AllocError>
    requires root { LiesInRoot (problem_in patch.old) patch.old.kept.first.space }
    ensures middle { let p = problem_in patch.old in
        let s = loosenings_in patch.old in
        let point = middle patch.old.kept.reached.space in
        IfOk result (λ o. MatchOption o (IsTrue (not (sure p s point)))
        (λ x. (x ≡ point) × IsShownAt p s x)) }
    ensures same { patch.new ≡ patch.old }
{
    if !patch.is_sure_at_middle() {
        return Ok(None);
    }
    let problem = patch.problem();
    let margins = patch.margins();
    Point::of_middle(alloc, problem, margins, patch.reached().space())
}

// The first lemma that covers the state.
fn first_covering<'a>(lemmas: &'a [Lemma], state: &State) -> Option<&'a Lemma>
    requires axes { All (λ l. length l.state.space ≡ length state.now.space) lemmas.now }
    requires atoms { All (λ l. length l.state.marks ≡ length state.now.marks) lemmas.now }
    ensures { MatchOption result
        (first_covering lemmas.now state.now ≡ None)
        (λ l. first_covering lemmas.now state.now ≡ Some l.now) }
{
    for lemma in lemmas {
        if lemma.state().covers(state) {
            return Some(lemma);
        }
    }
    None
}

// What ends a patch that has just begun before any step: that the form cannot hold, that it is sure at the
// middle, or that a lemma covers the state.
fn at_once(alloc: Global, lemmas: &[Lemma], patch: &mut Patch) -> Result<Option<Ended>, AllocError>
    requires open { patch.old.kept.end ≡ None }
    requires root { LiesInRoot (problem_in patch.old) patch.old.kept.first.space }
    requires lemmas { AreLemmasFor (problem_in patch.old) (loosenings_in patch.old) lemmas.now }
    ensures { IfOk result (AtOnce lemmas.now patch.old patch.new) }
{
    if attempt::make_false(patch) {
        return Ok(Some(Ended::Closed));
    }
    if let Some(point) = middle_point(alloc, patch)? {
        return Ok(Some(Ended::Shown(point)));
    }
    let Some(lemma) = first_covering(lemmas, patch.reached()) else {
        return Ok(None);
    };
    if attempt::by(patch, lemma)? {
        Ok(Some(Ended::Closed))
    } else {
        unreachable!()
    }
}

// Does what is left to do at a state, and splits it where it is then still open and no point is found in it. By the atom or
// combination that is given nothing may be left.
fn finish(
    alloc: Global,
    heuristics: &mut Heuristics,
    void: &Option<Emptied>,
    patch: &mut Patch,
) -> Result<Ended, AllocError>
    requires open { patch.old.kept.end ≡ None }
    requires root { LiesInRoot (problem_in patch.old) patch.old.kept.first.space }
    ensures continues { IfOk result (λ e. Continues patch.old patch.new) }
    ensures ended { IfOk result (HasEnded patch.new) }
{
    if close_at(void, patch)? {
        return Ok(Ended::Closed);
    }
    if close_by_squares(alloc, &mut heuristics.squaring, patch)? {
        return Ok(Ended::Closed);
    }
    mark_conjuncts(alloc, patch)?;
    if attempt::make_false(patch) {
        return Ok(Ended::Closed);
    }
    if let Some(found) = found_point(alloc, &mut heuristics.searches, patch)? {
        return Ok(Ended::Found(found));
    }
    if split(alloc, heuristics, patch)? {
        return Ok(Ended::Parted);
    }
    if let Some(point) = middle_point(alloc, patch)? {
        return Ok(Ended::Shown(point));
    }
    if void_any(patch) {
        return Ok(Ended::Closed);
    }
    let problem = patch.problem();
    problem_is_whole(problem);
    run_is_lawful(patch);
    part(patch);
    Ok(Ended::Parted)
}

// A run that has closed its state, and what may be learned of it.
fn closed(alloc: Global, kept: KeptPatch) -> Result<Worked, AllocError>
    requires { IsClosed (kept_of kept) }
    ensures { IfOk result (IsClosedWork (kept_of kept)) }
{
    if teaches_nothing(&kept) {
        return Ok(Worked::Closed(kept, None));
    }
    let learned = copy(alloc, &kept)?;
    match learned.closed() {
        Ok(learned) => Ok(Worked::Closed(kept, Some(learned))),
        Err(_) => unreachable!(),
    }
}

// What the work has come to, where a patch for the room's problem has come to its end. Its workspace is kept.
fn worked(alloc: Global, room: &mut Room, ended: Ended, patch: Patch) -> Result<Worked, AllocError>
    requires ended { HasEnded patch ended }
    requires problem { patch.problem ≡ room.old }
    ensures work { IfOk result (WorkOf patch.entry ended) }
    ensures room { room.new ≡ room.old }
{
    let kept = room.end(patch);
    if !kept.quoted.is_empty() {
        room.heuristics.lessons.note_quote();
    }
    match ended {
        Ended::Closed => closed(alloc, kept),
        Ended::Parted => Ok(Worked::Patch(kept)),
        Ended::Shown(point) => Ok(Worked::Point(point)),
        Ended::Found(point) => Ok(Worked::Point(point)),
    }
}

// Takes steps on a patch that has just begun; by what nothing is left, where that is met.
fn take_steps<'a>(
    alloc: Global,
    lemmas: &[Lemma],
    patch: Patch<'a>,
    scout: Scout,
) -> (Patch<'a>, Scout, Result<Option<Emptied>, AllocError>)
    requires begun { patch.kept ≡ run_at patch.kept.first }
    requires lemmas { AreLemmasFor (problem_in patch) (loosenings_in patch) lemmas.now }
    ensures { IsOpenFor (open_model lemmas.now patch.entry) result.0 }
{
    let open = OpenPatch::new(patch, lemmas);
    let mut contraction = Contraction { alloc, open, scout };
    let void = contraction.take_steps();
    let Contraction {
        alloc: _,
        open,
        scout,
    } = contraction;
    (open.into_patch(), scout, void)
}

// Contracts the state of a patch that has just begun, by the scout that is kept; by what nothing is left, where that is
// met.
fn contract<'a>(
    alloc: Global,
    heuristics: &mut Heuristics,
    lemmas: &[Lemma],
    patch: Patch<'a>,
) -> (Patch<'a>, Result<Option<Emptied>, AllocError>)
    requires begun { patch.kept ≡ run_at patch.kept.first }
    requires lemmas { AreLemmasFor (problem_in patch) (loosenings_in patch) lemmas.now }
    ensures { IsOpenFor (open_model lemmas.now patch.entry) result.0 }
{
    match heuristics.take_scout(alloc, &patch) {
        Ok(scout) => {
            let (patch, scout, void) = take_steps(alloc, lemmas, patch, scout);
            heuristics.keep(scout);
            (patch, void)
        }
        Err(error) => (patch, Err(error)),
    }
}

// Finishes after a contraction, unless it ran out of memory.
fn finish_after(
    alloc: Global,
    heuristics: &mut Heuristics,
    void: Result<Option<Emptied>, AllocError>,
    patch: &mut Patch,
) -> Result<Ended, AllocError>
    requires open { patch.old.kept.end ≡ None }
    requires root { LiesInRoot (problem_in patch.old) patch.old.kept.first.space }
    ensures continues { IfOk result (λ e. Continues patch.old patch.new) }
    ensures ended { IfOk result (HasEnded patch.new) }
{
    let void = void?;
    finish(alloc, heuristics, &void, patch)
}

// Goes on with a patch that has just begun until it has ended.
fn come_to_end<'a>(
    alloc: Global,
    heuristics: &mut Heuristics,
    lemmas: &[Lemma],
    patch: Patch<'a>,
) -> Result<(Patch<'a>, Ended), AllocError>
    requires begun { patch.kept ≡ run_at patch.kept.first }
    requires root { LiesInRoot (problem_in patch) patch.kept.first.space }
    requires lemmas { AreLemmasFor (problem_in patch) (loosenings_in patch) lemmas.now }
    ensures comes { let P = patch.entry in IfOk result (λ r.
        ComesToEnd P.problem P.margins lemmas.now P r.0 r.1) }
    ensures problem { IfOk result (λ r. r.0.problem ≡ patch.entry.problem) }
    ensures ended { IfOk result (λ r. HasEnded r.0 r.1) }
{
    let mut patch = patch;
    if let Some(ended) = at_once(alloc, lemmas, &mut patch)? {
        return Ok((patch, ended));
    }
    let (mut patch, void) = contract(alloc, heuristics, lemmas, patch);
    let ended = finish_after(alloc, heuristics, void, &mut patch)?;
    Ok((patch, ended))
}

/// Works on the box of a state of the room's problem that lies within the root space, by lawful and honest lines: until
/// it is closed, until a point is found in it, or else until it is split or found stuck. Where the form cannot hold at
/// the state it is closed by that alone; else a point is its middle, where the form is sure there; else it is closed by
/// the first of the lemmas that covers it. No other lemmas are quoted. Any other point is the middle of a state that
/// steps reach, or lies within the box.
pub fn work_in(
    alloc: Global,
    room: &mut Room,
    options: &Options,
    state: State,
    lemmas: &[Lemma],
) -> Result<Worked, AllocError>
    requires numbered { IsNumbered room.old }
    requires margins { AreMargins (margins_of options.now) }
    requires state { FitsProblem (problem_of room.old) state }
    requires root { LiesInRoot (problem_of room.old) state.space }
    requires lemmas { AreLemmasAt room.old options.now lemmas.now }
    ensures at_once { IfOk result (AnswersAtOnceFor room.old options.now lemmas.now state) }
    ensures work { IfOk result (IsWorkFor room.old options.now lemmas.now state) }
    ensures room { room.new ≡ room.old }
{
    let margins = options.margins();
    let patch = room.begin(alloc, &margins, state)?;
    let (patch, ended) = come_to_end(alloc, &mut room.heuristics, lemmas, patch)?;
    worked(alloc, room, ended, patch)
}
