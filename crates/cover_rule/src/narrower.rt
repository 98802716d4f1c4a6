// What a space is narrowed by, and what that leaves of it.
ghost use Rattle.std.specs.Prelude.{◌≡◌, ◌≢◌, ◌<◌, length, true, not, IfOk, OnErr};
ghost use Rattle.poly_graph.specs.ProblemViews.{problem_of};
ghost use Rattle.cover_model.specs.Fits.{FitsProblem};
ghost use Rattle.cover_model.specs.Honest.{is_some_space};
ghost use Rattle.ival.specs.Narrows.{IsNarrowed};
ghost use Rattle.ival.specs.SpaceViews.{space_of};
ghost use Rattle.cover_data.specs.Margins.{AreMargins, loosenings_of};
ghost use Rattle.cover_model.specs.Rules.{can_push, end_by, narrow_by, void_by};
ghost use Rattle.cover_data.specs.Views as views;
ghost use Rattle.cover_data.specs.Views.{end_line, step_line};
ghost use Rattle.cover_rule.specs.declared.refusal.PatchRefusal.TheVariants as refusal;
ghost use Rattle.cover_rule.specs.Narrowers.{NamesAtom, CanNarrow, IsSized, TakesMemory, may_narrow, narrowing_of, narrows_to};
ghost use Rattle.cover_rule.specs.Refusals.{why_not};
ghost use Rattle.cover_rule.specs.Serves.{HasRowsOf, IsReady};

use crate::combining::{can_combine, combine_spare};
use crate::facts::problem_is_whole;
use crate::narrowing::{copy_space, is_no_one_sided, narrow_off_spare, narrow_spare};
use crate::refusal::PatchRefusal;
use crate::workspace::Workspace;
use cover_data::{Closing, Combination, End, Margins, Narrowing, State, Step};
use dyadic::Dy;
use ival::Narrowed;
use poly_graph::Problem;
use std::alloc::{AllocError, Global};

/// What the space of a state is narrowed by.
#[derive(Clone, Copy)]
pub enum Narrower<'a> {
    /// The range of an atom that is marked yes.
    Pull(u32),
    /// The off-range of an atom that is marked no and is an inequality.
    Push(u32),
    /// Marked atoms, each with its multiplier.
    Combine(&'a [(u32, Dy)]),
}

// Whether the version has such lines, and atom j is marked no and is an inequality.
fn can_push(problem: &Problem, margins: &Margins, state: &State, j: u32) -> bool
    requires state { FitsProblem (problem_of problem.now) state.now }
    requires atom { j < length problem.now.atoms }
    ensures { result ≡ can_push (problem_of problem.now) (loosenings_of margins.now) state.now j }
{
    margins.version >= 2 && is_no_one_sided(problem, state, j)
}

/// Whether the version and the marks of the state allow it.
pub fn may_narrow(problem: &Problem, margins: &Margins, state: &State, by: Narrower) -> bool
    requires state { FitsProblem (problem_of problem.now) state.now }
    requires atom { NamesAtom problem.now by }
    ensures may { result ≡ may_narrow problem.now margins.now state.now by.entry }
    ensures size { result ≡ true → IsSized by.entry }
{
    match by {
        Narrower::Pull(j) => state.is_yes(j),
        Narrower::Push(j) => can_push(problem, margins, state, j),
        Narrower::Combine(multipliers) => can_combine(problem, margins, state, multipliers),
    }
}

/// The refusal where they do not.
pub fn why_not(by: Narrower) -> PatchRefusal
    ensures refusal { result ≡ why_not (narrowing_of by.entry) }
    ensures other { result ≢ refusal.Memory }
{
    match by {
        Narrower::Pull(_) => PatchRefusal::NotYes,
        Narrower::Push(_) => PatchRefusal::NotNo,
        Narrower::Combine(_) => PatchRefusal::NotCombinable,
    }
}

/// Narrows the spare space, a copy of the state's.
pub fn narrow_by(
    problem: &Problem,
    margins: &Margins,
    state: &State,
    by: Narrower,
    work: &mut Workspace,
) -> Narrowed
    requires margins { AreMargins margins.now }
    requires state { FitsProblem (problem_of problem.now) state.now }
    requires can { CanNarrow problem.now margins.now state.now by }
    requires work { IsReady problem.now margins.now state.now.space work.old }
    ensures narrowed { let narrow = narrows_to problem.now margins.now state.now by.entry in
        IsNarrowed state.now.space (space_of work.new.spare) narrow result }
    ensures work { HasRowsOf problem.now margins.now state.now.space work.new }
{
    match by {
        Narrower::Pull(j) => narrow_spare(problem, margins, state, j, work),
        Narrower::Push(j) => narrow_off_spare(problem, margins, state, j, work),
        Narrower::Combine(multipliers) => combine_spare(problem, margins, state, multipliers, work),
    }
}

// Whether it is known that nothing is left.
fn is_known_void(
    problem: &Problem,
    margins: &Margins,
    state: &State,
    by: Narrower,
    work: &Workspace,
) -> bool
    requires state { FitsProblem (problem_of problem.now) state.now }
    requires can { CanNarrow problem.now margins.now state.now by }
    requires work { HasRowsOf problem.now margins.now state.now.space work.now }
    ensures { let narrow = narrows_to problem.now margins.now state.now by.entry in
        result ≡ true → not (is_some_space narrow) ≡ true }
{
    match by {
        Narrower::Pull(_) => false,
        Narrower::Push(_) => false,
        Narrower::Combine(multipliers) => work.voiding.knows(state.lits(), multipliers),
    }
}

/// Whether nothing is left; it is tried only where that is not known.
pub fn leaves_nothing(
    problem: &Problem,
    margins: &Margins,
    state: &State,
    by: Narrower,
    work: &mut Workspace,
) -> bool
    requires margins { AreMargins margins.now }
    requires state { FitsProblem (problem_of problem.now) state.now }
    requires can { CanNarrow problem.now margins.now state.now by }
    requires work { IsReady problem.now margins.now state.now.space work.old }
    ensures empty { let narrow = narrows_to problem.now margins.now state.now by.entry in
        result ≡ not (is_some_space narrow) }
    ensures work { IsReady problem.now margins.now state.now.space work.new }
{
    problem_is_whole(problem);
    if is_known_void(problem, margins, state, by, work) {
        return true;
    }
    match narrow_by(problem, margins, state, by, work) {
        Narrowed::Empty => true,
        Narrowed::Same => false,
        Narrowed::Less => {
            copy_space(state.space(), &mut work.spare);
            false
        }
    }
}

// The narrowing, in memory of its own.
fn kept(alloc: Global, by: Narrower) -> Result<Narrowing, AllocError>
    requires { IsSized by }
    ensures narrowing { IfOk result (λ n. views.narrowing_of n ≡ narrowing_of by.entry) }
    ensures memory { OnErr result (TakesMemory by.entry) }
{
    match by {
        Narrower::Pull(j) => Ok(Narrowing::Pull(j)),
        Narrower::Push(j) => Ok(Narrowing::Push(j)),
        Narrower::Combine(multipliers) => {
            Ok(Narrowing::Combine(Combination::new(alloc, multipliers)?))
        }
    }
}

/// The step that narrows so.
pub fn step_by(alloc: Global, by: Narrower) -> Result<Step, AllocError>
    requires { IsSized by }
    ensures { IfOk result (λ s. step_line s ≡ narrow_by (narrowing_of by.entry)) }
{
    Ok(Step::Narrow(kept(alloc, by)?))
}

/// The end that says that nothing is left.
pub fn end_by(alloc: Global, by: Narrower) -> Result<End, AllocError>
    requires { IsSized by }
    ensures line { IfOk result (λ e. end_line e ≡ end_by (void_by (narrowing_of by.entry))) }
    ensures memory { OnErr result (TakesMemory by.entry) }
{
    Ok(End::Close(Closing::Void(kept(alloc, by)?)))
}
