// Steps of an open patch, by which it stays open.
ghost use Rattle.std.specs.Prelude.{◌<◌, length};
ghost use Rattle.cover_rule.specs.Narrowers.{NamesAtom};
ghost use Rattle.box_worker.specs.Attempts.{StaysOpen};
ghost use Rattle.box_worker.specs.OpenPatch.{IsOpenFor, IsUnderWay, open_model};

use cover_rule::{Lemma, Narrower, Patch, PatchRefusal, State};
use poly_graph::Mark;
use std::alloc::AllocError;

/// What a step came to.
#[derive(Clone, Copy)]
pub enum Outcome {
    Done,
    /// Narrowing leaves the space as it is.
    Idle,
    Refused,
    /// Narrowing leaves nothing.
    Void,
}

// The outcome of an answer that says whether something changed. Out of memory is handed on.
fn outcome_of(answer: Result<bool, PatchRefusal>) -> Result<Outcome, AllocError> {
    match answer {
        Ok(true) => Ok(Outcome::Done),
        Ok(false) => Ok(Outcome::Idle),
        Err(PatchRefusal::Memory) => Err(AllocError),
        Err(PatchRefusal::IsVoid) => Ok(Outcome::Void),
        Err(_) => Ok(Outcome::Refused),
    }
}

/// Narrows the space where the marks allow it, if that leaves less of it.
pub fn narrow_by(patch: &mut Patch, by: Narrower) -> Result<Outcome, AllocError>
    requires { NamesAtom patch.old.problem by }
    ensures { StaysOpen patch.old patch.new }
{
    let answer = patch.narrow_if_less(by);
    outcome_of(answer)
}

// Whether atom j is marked no.
fn is_no(state: &State, j: u32) -> bool {
    let marks = state.lits().marks();
    let j = j as usize;
    j < marks.len() && matches!(marks[j], Mark::No)
}

/// Pulls atom j where it is marked yes, and pushes it where it is marked no, if that leaves less of the space.
pub fn narrow(patch: &mut Patch, j: u32) -> Result<Outcome, AllocError>
    requires { j < length patch.old.problem.atoms }
    ensures { StaysOpen patch.old patch.new }
{
    if is_no(patch.reached(), j) {
        narrow_by(patch, Narrower::Push(j))
    } else {
        narrow_by(patch, Narrower::Pull(j))
    }
}

/// Marks atom j yes where the form can't hold without it.
pub fn unit(patch: &mut Patch, j: u32) -> Result<Outcome, AllocError>
    requires { j < length patch.old.problem.atoms }
    ensures { StaysOpen patch.old patch.new }
{
    let answer = patch.unit(j);
    outcome_of(answer.map(|()| true))
}

/// Marks atom j no where the lemma at this place of the list covers the state with the atom marked yes.
pub fn ban(patch: &mut Patch, lemmas: &[Lemma], j: u32, place: usize) -> Result<Outcome, AllocError>
    requires atom { j < length patch.old.problem.atoms }
    requires place { place < length lemmas.now }
    requires open { IsUnderWay lemmas.now patch.old }
    ensures { IsOpenFor (open_model lemmas.now patch.old) patch.new }
{
    let answer = patch.ban(j, &lemmas[place]);
    outcome_of(answer.map(|()| true))
}
