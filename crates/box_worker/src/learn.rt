// What may be learned of a patch that has closed its state.
ghost use Rattle.std.specs.Prelude.{◌≡◌, IfOk, None, map};
ghost use Rattle.cover_data.specs.Views.{end_of, kept_of, step_line};
ghost use Rattle.box_worker.specs.Worked.{teaches_nothing};

use cover_rule::{Closing, End, KeptPatch, Lemma, Step};
use std::alloc::{AllocError, Global};

// The same lemmas in memory of their own.
fn copies(alloc: Global, lemmas: &[Lemma]) -> Result<Vec<Lemma, Global>, AllocError>
    ensures { IfOk result (λ v. v.items ≡ lemmas.now) }
{
    let mut all = Vec::new(alloc);
    for lemma in lemmas {
        all.push(lemma.try_clone(alloc)?)?;
    }
    Ok(all)
}

// The same steps in memory of their own.
fn copies_of_steps(alloc: Global, steps: &[Step]) -> Result<Vec<Step, Global>, AllocError>
    ensures { IfOk result (λ v. map step_line v.items ≡ map step_line steps.now) }
{
    let mut all = Vec::new(alloc);
    for step in steps {
        all.push(step.try_clone(alloc)?)?;
    }
    Ok(all)
}

// The same end in memory of its own.
fn copy_of_end(alloc: Global, end: &Option<End>) -> Result<Option<End>, AllocError>
    ensures { IfOk result (λ e. end_of e ≡ end_of end.now) }
{
    match end {
        Some(end) => Ok(Some(end.try_clone(alloc)?)),
        None => Ok(None),
    }
}

/// The same run in memory of its own.
pub fn copy(alloc: Global, kept: &KeptPatch) -> Result<KeptPatch, AllocError>
    ensures { IfOk result (λ k. kept_of k ≡ kept_of kept.now) }
{
    let steps = copies_of_steps(alloc, &kept.steps)?;
    Ok(KeptPatch {
        first: kept.first.try_clone(alloc)?,
        steps,
        quoted: copies(alloc, &kept.quoted)?,
        end: copy_of_end(alloc, &kept.end)?,
        reached: kept.reached.try_clone(alloc)?,
    })
}

/// Whether the run is the one line `false`, or ends by a lemma.
pub fn teaches_nothing(kept: &KeptPatch) -> bool
    ensures { result ≡ teaches_nothing (kept_of kept.now) }
{
    match &kept.end {
        Some(End::Close(Closing::False)) => kept.steps.is_empty(),
        Some(End::Close(Closing::By(_))) => true,
        Some(End::Close(Closing::Void(_) | Closing::Squares(_))) => false,
        Some(End::Part(_)) => false,
        Some(End::Stuck(_)) => false,
        None => false,
    }
}
