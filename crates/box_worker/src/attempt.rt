// Attempts at steps and ends of a patch: what is refused leaves it as it is.
ghost use Rattle.std.specs.Prelude.{◌≡◌, ◌<◌, length, Option, IfOk};
ghost use Rattle.cover_line.specs.Views.{blocks_of, multipliers_of};
ghost use Rattle.cover_model.specs.Fits.{FitsProblem};
ghost use Rattle.cover_model.specs.State.{IsLemma};
ghost use Rattle.cover_model.specs.Rules.{by_range};
ghost use Rattle.cover_rule.specs.declared.refusal.PatchRefusal.{PatchRefusal as Refusal};
ghost use Rattle.cover_rule.specs.Patch.{problem_in, loosenings_in};
ghost use Rattle.cover_rule.specs.Models.{PatchModel};
ghost use Rattle.cover_rule.specs.Narrowers.{NamesAtom, narrowing_of};
ghost use Rattle.cover_rule.specs.Refusals.{EndAnswer, PatchAnswer, TestAnswer};
ghost use Rattle.box_worker.specs.Attempts.{Attempts, UnitAttempt, VoidAttempt, SquaresAttempt, FalseAttempt, LemmaAttempt, CutAttempt, WidestAttempt, FlipAttempt, CaseAttempt, EitherAttempt, StuckAttempt};

use cover_line::Block;
use cover_rule::{Lemma, Narrower, Patch, PatchRefusal};
use dyadic::Dy;
use std::alloc::AllocError;

// Whether it was done. Out of memory is handed on.
fn was_done(answer: Result<(), PatchRefusal>) -> Result<bool, AllocError>
    ensures done { (refusal : Option Refusal) (old done new : PatchModel) →
        PatchAnswer refusal old done new answer →
        IfOk result (Attempts refusal old done new) }
    ensures ended { (refusal : Option Refusal) (old done new : PatchModel) →
        EndAnswer refusal old done new answer →
        IfOk result (Attempts refusal old done new) }
    ensures tested { (first refusal : Option Refusal) (old done new : PatchModel) →
        TestAnswer first refusal old done new answer →
        IfOk result (Attempts refusal old done new) }
{
    match answer {
        Ok(()) => Ok(true),
        Err(PatchRefusal::Memory) => Err(AllocError),
        Err(_) => Ok(false),
    }
}

// Whether it was done.
fn was_ended(answer: Result<(), PatchRefusal>) -> bool
    ensures { (refusal : Option Refusal) (old done new : PatchModel) →
        EndAnswer refusal old done new answer → Attempts refusal old done new result }
{
    match answer {
        Ok(()) => true,
        Err(_) => false,
    }
}

/// Marks atom j yes where the form can't hold without it.
pub fn unit(patch: &mut Patch, j: u32) -> Result<bool, AllocError>
    requires { j < length patch.old.problem.atoms }
    ensures { IfOk result (UnitAttempt j patch.old patch.new) }
{
    let answer = patch.unit(j);
    was_done(answer)
}

/// Ends the patch by atom j where it is marked yes and leaves nothing.
pub fn void(patch: &mut Patch, j: u32) -> bool
    requires { j < length patch.old.problem.atoms }
    ensures { VoidAttempt (by_range j) patch.old patch.new result }
{
    let answer = patch.void(Narrower::Pull(j));
    was_ended(answer)
}

/// Ends the patch where narrowing leaves nothing, and the marks allow it.
pub fn void_by(patch: &mut Patch, by: Narrower) -> Result<bool, AllocError>
    requires { NamesAtom patch.old.problem by }
    ensures { IfOk result (VoidAttempt (narrowing_of by.entry) patch.old patch.new) }
{
    let answer = patch.void(by);
    was_done(answer)
}

/// Ends the patch where the combination of these atoms without the blocks is above what the atoms allow, and the marks allow
/// it.
pub fn squares(
    patch: &mut Patch,
    pairs: Vec<(u32, Dy)>,
    blocks: Vec<Block>,
) -> Result<bool, AllocError>
    ensures { IfOk result (SquaresAttempt (multipliers_of pairs.items) (blocks_of blocks.items)
        patch.old patch.new) }
{
    let answer = patch.squares(pairs, blocks);
    was_done(answer)
}

/// Ends the patch where the form can't hold.
pub fn make_false(patch: &mut Patch) -> bool
    ensures { FalseAttempt patch.old patch.new result }
{
    let answer = patch.make_false();
    was_ended(answer)
}

/// Ends the patch where the lemma covers its state.
pub fn by(patch: &mut Patch, lemma: &Lemma) -> Result<bool, AllocError>
    requires state { FitsProblem (problem_in patch.old) lemma.now.state }
    requires lemma { IsLemma (problem_in patch.old) (loosenings_in patch.old) lemma.now.state }
    ensures { IfOk result (LemmaAttempt lemma.now patch.old patch.new) }
{
    let answer = patch.by(lemma);
    was_done(answer)
}

/// Ends the patch by cutting the axis, where it may be cut and nothing else is left to do.
pub fn cut(patch: &mut Patch, axis: u32) -> bool
    ensures { CutAttempt axis patch.old patch.new result }
{
    let answer = patch.cut(axis);
    was_ended(answer)
}

/// Ends the patch by cutting the widest axis, where it is wide and nothing else is left to do.
pub fn cut_widest(patch: &mut Patch) -> bool
    ensures { WidestAttempt patch.old patch.new result }
{
    match patch.widest() {
        Some(axis) => cut(patch, axis),
        None => false,
    }
}

/// Ends the patch by parting the axis where it is a Bool that is not decided, and nothing else is left to do.
pub fn flip(patch: &mut Patch, axis: u32) -> bool
    requires { axis < length patch.old.problem.axes }
    ensures { FlipAttempt axis patch.old patch.new result }
{
    let answer = patch.flip(axis);
    was_ended(answer)
}

/// Ends the patch by parting the state at atom j where it is not marked and not forced, and nothing else is left to
/// do.
pub fn case(patch: &mut Patch, j: u32) -> bool
    requires { j < length patch.old.problem.atoms }
    ensures { CaseAttempt j patch.old patch.new result }
{
    let answer = patch.case(j);
    was_ended(answer)
}

/// Ends the patch by parting the state by two groups of atoms, where one of the two holds as a whole and nothing else is left
/// to do.
pub fn either(patch: &mut Patch, first: Vec<u32>, second: Vec<u32>) -> bool
    ensures { EitherAttempt first.items second.items patch.old patch.new result }
{
    let answer = patch.either(first, second);
    was_ended(answer)
}

/// Ends the patch where nothing can be split any more, and atom j is the first that is stuck.
pub fn stuck(patch: &mut Patch, j: u32) -> bool
    requires { j < length patch.old.problem.atoms }
    ensures { StuckAttempt j patch.old patch.new result }
{
    let answer = patch.stuck(j);
    was_ended(answer)
}
