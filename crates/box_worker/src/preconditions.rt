// The preconditions of a branch: what has to be done before a state may be split.
ghost use Rattle.std.specs.Prelude.{◌≡◌, ◌<◌, IfOk, IsTrue, length, true, false, None};
ghost use Rattle.cover_data.specs.Runs.{IsClosed};
ghost use Rattle.box_worker.specs.Attempts.{Continues, conjuncts_are_decided, no_atom_empties};

use crate::attempt;
use crate::facts::run_is_lawful;
use crate::scout::Emptied;
use cover_rule::{Narrower, Patch};
use form_truth::{Marks, conjuncts_in_yes};
use std::alloc::{AllocError, Global};

/// Marks each conjunct that is not marked.
pub fn mark_conjuncts(alloc: Global, patch: &mut Patch) -> Result<(), AllocError>
    requires open { patch.old.kept.end ≡ None }
    ensures continues { IfOk result (λ u. Continues patch.old patch.new) }
    ensures open { IfOk result (λ u. patch.new.kept.end ≡ None) }
    ensures decided { IfOk result (λ u. conjuncts_are_decided patch.new ≡ true) }
{
    let problem = patch.problem();
    let mut marks = Marks::new(alloc, problem)?;
    if conjuncts_in_yes(problem, patch.reached().lits(), &mut marks) {
        return Ok(());
    }
    for j in 0..problem.atoms().len() {
        attempt::unit(patch, j as u32)?;
    }
    Ok(())
}

/// Ends the patch by the first atom marked yes that leaves nothing.
pub fn void_any(patch: &mut Patch) -> bool
    requires open { patch.old.kept.end ≡ None }
    ensures continues { Continues patch.old patch.new }
    ensures closed { result ≡ true → IsClosed patch.new.kept }
    ensures same { result ≡ false → patch.new ≡ patch.old }
    ensures none { result ≡ false → no_atom_empties patch.old ≡ true }
{
    run_is_lawful(patch);
    let problem = patch.problem();
    for j in 0..problem.atoms().len() {
        if attempt::void(patch, j as u32) {
            return true;
        }
    }
    false
}

// Ends the patch by atom j, where it is marked and leaves nothing.
fn void_by(j: u32, patch: &mut Patch) -> Result<bool, AllocError>
    requires { j < length patch.old.problem.atoms }
    ensures continues { IfOk result (λ b. Continues patch.old patch.new) }
    ensures closed { IfOk result (λ b. b ≡ true → IsClosed patch.new.kept) }
    ensures same { IfOk result (λ b. b ≡ false → patch.new ≡ patch.old) }
{
    if attempt::void(patch, j) {
        return Ok(true);
    }
    attempt::void_by(patch, Narrower::Push(j))
}

// Ends the patch by this atom or combination, where there is such a one that leaves nothing.
fn void_at(by: &Option<Emptied>, patch: &mut Patch) -> Result<bool, AllocError>
    ensures continues { IfOk result (λ b. Continues patch.old patch.new) }
    ensures closed { IfOk result (λ b. b ≡ true → IsClosed patch.new.kept) }
    ensures same { IfOk result (λ b. b ≡ false → patch.new ≡ patch.old) }
{
    match by {
        Some(Emptied::Atom(j)) => {
            if (*j as usize) < patch.problem().atoms().len() {
                void_by(*j, patch)
            } else {
                Ok(false)
            }
        }
        Some(Emptied::Combination(multipliers)) => {
            attempt::void_by(patch, Narrower::Combine(multipliers))
        }
        Some(Emptied::Form) | None => Ok(false),
    }
}

/// Ends the patch by this atom or combination, where there is such a one that leaves nothing, or else where the form
/// cannot hold.
pub fn close_at(by: &Option<Emptied>, patch: &mut Patch) -> Result<bool, AllocError>
    ensures continues { IfOk result (λ b. Continues patch.old patch.new) }
    ensures closed { IfOk result (λ b. b ≡ true → IsClosed patch.new.kept) }
    ensures same { IfOk result (λ b. b ≡ false → patch.new ≡ patch.old) }
{
    if void_at(by, patch)? {
        return Ok(true);
    }
    Ok(attempt::make_false(patch))
}
