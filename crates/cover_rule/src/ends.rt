// Ends of a patch that close its state, over its parts.
ghost use Rattle.std.specs.Prelude.{◌≡◌, ◌<◌, [], ◌∷◌, ◌++◌, length};
ghost use Rattle.poly_graph.specs.ProblemViews.{problem_of};
ghost use Rattle.cover_model.specs.Rules.{make_false};
ghost use Rattle.cover_rule.specs.Serves.{IsReady};
ghost use Rattle.cover_rule.specs.Narrowers.{NamesAtom, narrowing_of};
ghost use Rattle.cover_rule.specs.Patch.{ended_by};
ghost use Rattle.cover_rule.specs.Refusals.{FalseEnd, RunLemmaEnd, VoidEnd};
ghost use Rattle.cover_data.specs.Views.{kept_of, end_line};
ghost use Rattle.cover_rule.specs.Held.{IsHeld, patch_of};

use crate::narrower::{self, Narrower, leaves_nothing, may_narrow, why_not};
use crate::refusal::PatchRefusal;
use crate::steps::quote;
use crate::truth::may_hold;
use crate::workspace::Workspace;
use cover_data::{Closing, End, KeptPatch, Lemma, Margins};
use poly_graph::Problem;
use std::alloc::Global;
use std::mem;

/// Ends the patch by this line.
pub fn end_by(kept: &mut KeptPatch, end: End)
    ensures kept { let k = kept_of kept.old in
        kept_of kept.new ≡ ended_by k (end_line end) k.quoted }
    ensures reached { kept.new.reached ≡ kept.old.reached }
{
    drop(mem::replace(&mut kept.end, Some(end)));
}

/// Ends the patch where narrowing leaves nothing, and the marks allow it.
pub fn void(
    alloc: Global,
    problem: &Problem,
    margins: &Margins,
    kept: &mut KeptPatch,
    work: &mut Workspace,
    by: Narrower,
) -> Result<(), PatchRefusal>
    requires held { IsHeld problem.now margins.now kept.old work.old }
    requires atom { NamesAtom problem.now by }
    ensures answer { let P = patch_of problem.now margins.now in
        VoidEnd (P kept.old) (narrowing_of by.entry) (P kept.new) result }
    ensures reached { kept.new.reached ≡ kept.old.reached }
    ensures ready { IsReady problem.now margins.now kept.old.reached.space work.new }
{
    if kept.end.is_some() {
        return Err(PatchRefusal::Ended);
    }
    if !may_narrow(problem, margins, &kept.reached, by) {
        return Err(why_not(by));
    }
    if !leaves_nothing(problem, margins, &kept.reached, by, work) {
        return Err(PatchRefusal::NotFalse);
    }
    match narrower::end_by(alloc, by) {
        Ok(end) => {
            end_by(kept, end);
            Ok(())
        }
        Err(_) => Err(PatchRefusal::Memory),
    }
}

/// Ends the patch where the form can't hold.
pub fn make_false(
    problem: &Problem,
    margins: &Margins,
    kept: &mut KeptPatch,
    work: &mut Workspace,
) -> Result<(), PatchRefusal>
    requires held { IsHeld problem.now margins.now kept.old work.old }
    ensures answer { let P = patch_of problem.now margins.now in
        FalseEnd (P kept.old) (P kept.new) result }
    ensures reached { kept.new.reached ≡ kept.old.reached }
    ensures ready { IsReady problem.now margins.now kept.old.reached.space work.new }
{
    if kept.end.is_some() {
        return Err(PatchRefusal::Ended);
    }
    if may_hold(problem, margins, &kept.reached, work) {
        return Err(PatchRefusal::NotFalse);
    }
    end_by(kept, End::Close(Closing::False));
    Ok(())
}

/// Ends the patch by a lemma that covers the state.
pub fn by(alloc: Global, kept: &mut KeptPatch, lemma: &Lemma) -> Result<(), PatchRefusal>
    requires axes { length lemma.now.state.space ≡ length kept.old.reached.space }
    requires atoms { length lemma.now.state.marks ≡ length kept.old.reached.marks }
    ensures answer { RunLemmaEnd (kept_of kept.old) lemma.now (kept_of kept.new) result }
    ensures reached { kept.new.reached ≡ kept.old.reached }
{
    if kept.end.is_some() {
        return Err(PatchRefusal::Ended);
    }
    if !lemma.state().covers(&kept.reached) {
        return Err(PatchRefusal::NotCovered);
    }
    if quote(alloc, kept, lemma).is_err() {
        return Err(PatchRefusal::Memory);
    }
    end_by(kept, End::Close(Closing::By(lemma.id())));
    Ok(())
}
