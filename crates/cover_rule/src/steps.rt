// Steps of a patch, over its parts.
ghost use Rattle.std.specs.Prelude.{◌≡◌, ◌≢◌, ◌<◌, [], ◌∷◌, ◌++◌, length, not, true, false, IsTrue, None, Some, OnOk, OnErr, IfErr, IfNone, OnSome};
ghost use Rattle.poly_graph.specs.ProblemViews.{problem_of};
ghost use Rattle.cover_model.specs.Fits.{FitsProblem};
ghost use Rattle.cover_model.specs.Rules.{narrow_by};
ghost use Rattle.cover_model.specs.State.{IsLemma, may, undecided, with_yes, with_no, with_space, covers};
ghost use Rattle.ival.specs.SpaceViews.{space_of};
ghost use Rattle.cover_data.specs.Margins.{AreMargins, loosenings_of};
ghost use Rattle.cover_rule.specs.Serves.{HasRowsOf, IsReady, IsNumbered};
ghost use Rattle.cover_rule.specs.Patch.{narrowed_in, narrowed_space, stepped, with_step};
ghost use Rattle.cover_rule.specs.Narrowers.{FitsNarrowed, IsNarrowRefusal, IsSized, NamesAtom, narrowing_of};
ghost use Rattle.cover_rule.specs.Refusals.{NarrowIfLessStep, NarrowStep, UnitStep, RunBanStep, narrow_refusal, unit_refusal, ban_refusal};
ghost use Rattle.cover_rule.specs.declared.refusal.PatchRefusal.TheVariants as refusal;
ghost use Rattle.cover_data.specs.Views.{kept_of, step_line};
ghost use Rattle.cover_rule.specs.Held.{IsHeld, patch_of};

use crate::narrower::{Narrower, may_narrow, narrow_by, step_by, why_not};
use crate::narrowing::{adopt_spare, copy_space};
use crate::refusal::PatchRefusal;
use crate::truth::may_hold;
use crate::workspace::Workspace;
use cover_data::{KeptPatch, Lemma, Margins, State, Step};
use cover_line::Marking;
use ival::Narrowed;
use poly_graph::{Mark, Problem};
use std::alloc::{AllocError, Global};

// Narrows the spare space where that may be, and tells whether that leaves less than the state's space.
fn narrowed(
    problem: &Problem,
    margins: &Margins,
    kept: &KeptPatch,
    work: &mut Workspace,
    by: Narrower,
) -> Result<bool, PatchRefusal>
    requires held { IsHeld problem.now margins.now kept.now work.old }
    requires atom { NamesAtom problem.now by }
    ensures may { let P = patch_of problem.now margins.now kept.now in
        OnOk result (narrow_refusal P (narrowing_of by.entry) ≡ None) }
    ensures refusal { let P = patch_of problem.now margins.now kept.now in
        IfErr result (λ e. IsNarrowRefusal P by.entry e) }
    ensures refused { OnErr result
        (IsReady problem.now margins.now kept.now.reached.space work.new) }
    ensures serves { HasRowsOf problem.now margins.now kept.now.reached.space work.new }
    ensures length { length (space_of work.new.spare) ≡ length kept.now.reached.space }
    ensures size { OnOk result (IsSized by.entry) }
    ensures fits { OnOk result (FitsNarrowed (patch_of problem.now margins.now kept.now) by.entry) }
    ensures spare { let P = patch_of problem.now margins.now kept.now in
        OnOk result (space_of work.new.spare ≡ narrowed_space P (narrowing_of by.entry)) }
    ensures same { let P = patch_of problem.now margins.now kept.now in
        let space = kept.now.reached.space in
        result ≡ Ok false →
        (narrowed_in P (narrowing_of by.entry) ≡ Some space) ×
        IsReady problem.now margins.now space work.new }
    ensures less { let P = patch_of problem.now margins.now kept.now in
        let narrow = narrowed_in P (narrowing_of by.entry) in
        result ≡ Ok true → narrow ≢ Some kept.now.reached.space }
{
    if kept.end.is_some() {
        return Err(PatchRefusal::Ended);
    }
    if !may_narrow(problem, margins, &kept.reached, by) {
        return Err(why_not(by));
    }
    match narrow_by(problem, margins, &kept.reached, by, work) {
        Narrowed::Empty => Err(PatchRefusal::IsVoid),
        Narrowed::Same => Ok(false),
        Narrowed::Less => Ok(true),
    }
}

// Adds a step that quotes no lemma; where there is no memory all stays.
fn add_step(kept: &mut KeptPatch, step: Step) -> Result<(), PatchRefusal>
    ensures ok { OnOk result (kept_of kept.new ≡ with_step (kept_of kept.old) (step_line step)) }
    ensures err { OnErr result (kept_of kept.new ≡ kept_of kept.old) }
    ensures memory { OnErr result (result ≡ Err PatchRefusal.Memory) }
{
    match kept.steps.push(step) {
        Ok(()) => Ok(()),
        Err(_) => Err(PatchRefusal::Memory),
    }
}

// Takes the step that the spare space was narrowed by; out of memory, all stays.
fn take_narrowed(
    problem: &Problem,
    margins: &Margins,
    kept: &mut KeptPatch,
    work: &mut Workspace,
    step: Step,
) -> Result<(), PatchRefusal>
    requires numbered { IsNumbered problem.now }
    requires state { FitsProblem (problem_of problem.now) kept.old.reached }
    requires serves { HasRowsOf problem.now margins.now kept.old.reached.space work.old }
    requires length { length (space_of work.old.spare) ≡ length kept.old.reached.space }
    ensures ok { let k = kept_of kept.old in
        let reached = with_space k.reached (space_of work.old.spare) in
        OnOk result (kept_of kept.new ≡ stepped k (step_line step) k.quoted reached) }
    ensures err { OnErr result (kept_of kept.new ≡ kept_of kept.old) }
    ensures memory { OnErr result (result ≡ Err refusal.Memory) }
    ensures ready { IsReady problem.now margins.now kept.new.reached.space work.new }
{
    if add_step(kept, step).is_err() {
        copy_space(kept.reached.space(), &mut work.spare);
        return Err(PatchRefusal::Memory);
    }
    adopt_spare(problem, margins, &mut kept.reached, work);
    Ok(())
}

// Takes the step by which the spare space was narrowed; out of memory, all stays.
fn take(
    alloc: Global,
    problem: &Problem,
    margins: &Margins,
    kept: &mut KeptPatch,
    work: &mut Workspace,
    by: Narrower,
) -> Result<(), PatchRefusal>
    requires size { IsSized by }
    requires numbered { IsNumbered problem.now }
    requires state { FitsProblem (problem_of problem.now) kept.old.reached }
    requires serves { HasRowsOf problem.now margins.now kept.old.reached.space work.old }
    requires length { length (space_of work.old.spare) ≡ length kept.old.reached.space }
    ensures ok { let k = kept_of kept.old in
        let reached = with_space k.reached (space_of work.old.spare) in
        let line = narrow_by (narrowing_of by.entry) in
        OnOk result (kept_of kept.new ≡ stepped k line k.quoted reached) }
    ensures err { OnErr result (kept_of kept.new ≡ kept_of kept.old) }
    ensures memory { OnErr result (result ≡ Err refusal.Memory) }
    ensures ready { IsReady problem.now margins.now kept.new.reached.space work.new }
{
    let Ok(step) = step_by(alloc, by) else {
        copy_space(kept.reached.space(), &mut work.spare);
        return Err(PatchRefusal::Memory);
    };
    take_narrowed(problem, margins, kept, work, step)
}

/// Narrows the space, where the marks allow it and something is left.
pub fn narrow(
    alloc: Global,
    problem: &Problem,
    margins: &Margins,
    kept: &mut KeptPatch,
    work: &mut Workspace,
    by: Narrower,
) -> Result<(), PatchRefusal>
    requires held { IsHeld problem.now margins.now kept.old work.old }
    requires atom { NamesAtom problem.now by }
    ensures answer { let P = patch_of problem.now margins.now in
        NarrowStep (P kept.old) (narrowing_of by.entry) (P kept.new) result }
    ensures ready { IsReady problem.now margins.now kept.new.reached.space work.new }
    ensures fits { OnOk result (FitsNarrowed (patch_of problem.now margins.now kept.old) by.entry) }
{
    narrowed(problem, margins, kept, work, by)?;
    take(alloc, problem, margins, kept, work, by)
}

/// Narrows the space where that leaves less of it; whether it does.
pub fn narrow_if_less(
    alloc: Global,
    problem: &Problem,
    margins: &Margins,
    kept: &mut KeptPatch,
    work: &mut Workspace,
    by: Narrower,
) -> Result<bool, PatchRefusal>
    requires held { IsHeld problem.now margins.now kept.old work.old }
    requires atom { NamesAtom problem.now by }
    ensures answer { let P = patch_of problem.now margins.now in
        NarrowIfLessStep (P kept.old) (narrowing_of by.entry) (P kept.new) result }
    ensures ready { IsReady problem.now margins.now kept.new.reached.space work.new }
    ensures fits { OnOk result (FitsNarrowed (patch_of problem.now margins.now kept.old) by.entry) }
{
    if !narrowed(problem, margins, kept, work, by)? {
        return Ok(false);
    }
    take(alloc, problem, margins, kept, work, by)?;
    Ok(true)
}

/// Whether the form may hold with the atom, which is not marked, marked no.
pub fn may_without(
    problem: &Problem,
    margins: &Margins,
    state: &mut State,
    work: &mut Workspace,
    j: u32,
) -> bool
    requires margins { AreMargins margins.now }
    requires state { FitsProblem (problem_of problem.now) state.old }
    requires atom { IsTrue (undecided state.old j) }
    requires small { j < length problem.now.atoms }
    requires work { IsReady problem.now margins.now state.old.space work.old }
    ensures truth { result ≡
        may (problem_of problem.now) (loosenings_of margins.now) (with_no state.old j) }
    ensures state { state.new ≡ state.old }
    ensures work { IsReady problem.now margins.now state.old.space work.new }
{
    state.set_mark(j, Mark::No);
    let holds = may_hold(problem, margins, state, work);
    state.set_mark(j, Mark::Neither);
    holds
}

// Whether the state of a lemma covers the state with the atom, which is not marked, marked yes.
fn covers_with(lemma: &State, state: &mut State, j: u32) -> bool
    requires atom { IsTrue (undecided state.old j) }
    requires small { j < length state.old.marks }
    requires axes { length lemma.now.space ≡ length state.old.space }
    requires atoms { length lemma.now.marks ≡ length state.old.marks }
    ensures covers { result ≡ covers lemma.now (with_yes state.old j) }
    ensures state { state.new ≡ state.old }
{
    state.set_mark(j, Mark::Yes);
    let holds = lemma.covers(state);
    state.set_mark(j, Mark::Neither);
    holds
}

// Why atom j can't be marked yes.
fn unit_refusal(
    problem: &Problem,
    margins: &Margins,
    kept: &mut KeptPatch,
    work: &mut Workspace,
    j: u32,
) -> Option<PatchRefusal>
    requires held { IsHeld problem.now margins.now kept.old work.old }
    requires atom { j < length problem.now.atoms }
    ensures refusal { result ≡ unit_refusal (patch_of problem.now margins.now kept.old) j }
    ensures kept { kept_of kept.new ≡ kept_of kept.old }
    ensures reached { kept.new.reached ≡ kept.old.reached }
    ensures ready { IsReady problem.now margins.now kept.old.reached.space work.new }
{
    if kept.end.is_some() {
        return Some(PatchRefusal::Ended);
    }
    if !kept.reached.is_undecided(j) {
        return Some(PatchRefusal::Decided);
    }
    if may_without(problem, margins, &mut kept.reached, work, j) {
        return Some(PatchRefusal::NotForced);
    }
    None
}

/// Marks atom j yes, without which the form can't hold.
pub fn unit(
    problem: &Problem,
    margins: &Margins,
    kept: &mut KeptPatch,
    work: &mut Workspace,
    j: u32,
) -> Result<(), PatchRefusal>
    requires held { IsHeld problem.now margins.now kept.old work.old }
    requires atom { j < length problem.now.atoms }
    ensures answer { let P = patch_of problem.now margins.now in
        UnitStep (P kept.old) j (P kept.new) result }
    ensures ready { IsReady problem.now margins.now kept.new.reached.space work.new }
{
    if let Some(refusal) = unit_refusal(problem, margins, kept, work, j) {
        return Err(refusal);
    }
    if add_step(kept, Step::Mark(Marking::Unit(j))).is_err() {
        return Err(PatchRefusal::Memory);
    }
    kept.reached.set_mark(j, Mark::Yes);
    Ok(())
}

// Why atom j can't be marked no by the lemma.
fn ban_refusal(kept: &mut KeptPatch, j: u32, lemma: &Lemma) -> Option<PatchRefusal>
    requires atom { j < length kept.old.reached.marks }
    requires axes { length lemma.now.state.space ≡ length kept.old.reached.space }
    requires atoms { length lemma.now.state.marks ≡ length kept.old.reached.marks }
    ensures refusal { result ≡ ban_refusal (kept_of kept.old) j lemma.now }
    ensures kept { kept_of kept.new ≡ kept_of kept.old }
    ensures reached { kept.new.reached ≡ kept.old.reached }
{
    if kept.end.is_some() {
        return Some(PatchRefusal::Ended);
    }
    if !kept.reached.is_undecided(j) {
        return Some(PatchRefusal::Decided);
    }
    if !covers_with(lemma.state(), &mut kept.reached, j) {
        return Some(PatchRefusal::NotCovered);
    }
    None
}

// Adds a copy of the lemma to those that are quoted; where there is no memory all stays.
pub fn quote(alloc: Global, kept: &mut KeptPatch, lemma: &Lemma) -> Result<(), AllocError>
    ensures ok { OnOk result (kept.new.quoted.items ≡ kept.old.quoted.items ++ (lemma.now ∷ [])) }
    ensures err { OnErr result (kept.new.quoted.items ≡ kept.old.quoted.items) }
    ensures first { kept.new.first ≡ kept.old.first }
    ensures steps { kept.new.steps ≡ kept.old.steps }
    ensures end { kept.new.end ≡ kept.old.end }
    ensures reached { kept.new.reached ≡ kept.old.reached }
{
    let copy = lemma.try_clone(alloc)?;
    kept.quoted.push(copy)?;
    Ok(())
}

// Adds a step that quotes the lemma; where there is no memory all stays.
fn add_quoting_step(
    alloc: Global,
    kept: &mut KeptPatch,
    step: Step,
    lemma: &Lemma,
) -> Result<(), PatchRefusal>
    ensures ok { let k = kept_of kept.old in
        let quoted = k.quoted ++ (lemma.now ∷ []) in
        OnOk result (kept_of kept.new ≡ stepped k (step_line step) quoted k.reached) }
    ensures err { OnErr result (kept_of kept.new ≡ kept_of kept.old) }
    ensures memory { OnErr result (result ≡ Err PatchRefusal.Memory) }
{
    if quote(alloc, kept, lemma).is_err() {
        return Err(PatchRefusal::Memory);
    }
    if kept.steps.push(step).is_err() {
        let _ = kept.quoted.pop();
        return Err(PatchRefusal::Memory);
    }
    Ok(())
}

/// Marks atom j no, since the lemma covers the state with the atom marked yes.
pub fn ban(alloc: Global, kept: &mut KeptPatch, j: u32, lemma: &Lemma) -> Result<(), PatchRefusal>
    requires atom { j < length kept.old.reached.marks }
    requires axes { length lemma.now.state.space ≡ length kept.old.reached.space }
    requires atoms { length lemma.now.state.marks ≡ length kept.old.reached.marks }
    ensures answer { RunBanStep (kept_of kept.old) j lemma.now (kept_of kept.new) result }
    ensures space { kept.new.reached.space ≡ kept.old.reached.space }
{
    if let Some(refusal) = ban_refusal(kept, j, lemma) {
        return Err(refusal);
    }
    let step = Step::Mark(Marking::Ban(j, lemma.id()));
    if add_quoting_step(alloc, kept, step, lemma).is_err() {
        return Err(PatchRefusal::Memory);
    }
    kept.reached.set_mark(j, Mark::No);
    Ok(())
}
