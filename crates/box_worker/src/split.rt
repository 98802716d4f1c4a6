// Branches at an atom or an axis that was chosen.
ghost use Rattle.std.specs.Prelude.{◌≡◌, IfOk, IsTrue, true, false, None};
ghost use Rattle.box_worker.specs.Attempts.{Continues};
ghost use Rattle.box_worker.specs.Ended.{is_left};

use crate::choice::{Choice, Chosen, choose, is_open};
use crate::groups::groups;
use crate::heuristics::Heuristics;
use crate::needs::Needs;
use crate::worth::worths;
use crate::{attempt, axis};
use cover_rule::Patch;
use std::alloc::{AllocError, Global};

// Branches by groups are there from this version of the format on.
const GROUPS_FROM: u32 = 5;

// Parts the state by what the two children of the disjunction ask for, where they do and nothing else is left to do.
fn part_by_groups(
    alloc: Global,
    needs: &Needs,
    disjunction: Option<u32>,
    patch: &mut Patch,
) -> Result<bool, AllocError>
    ensures continues { IfOk result (λ b. Continues patch.old patch.new) }
    ensures parted { IfOk result (λ b. b ≡ true → IsTrue (is_left patch.new.kept.end)) }
    ensures same { IfOk result (λ b. b ≡ false → patch.new ≡ patch.old) }
{
    let Some(disjunction) = disjunction else {
        return Ok(false);
    };
    if patch.margins().version < GROUPS_FROM {
        return Ok(false);
    }
    match groups(alloc, patch.problem(), needs, patch.reached(), disjunction)? {
        Some((first, second)) => Ok(attempt::either(patch, first, second)),
        None => Ok(false),
    }
}

// Parts the state at what was chosen, where nothing else is left to do.
fn part_at(choice: Choice, patch: &mut Patch) -> bool
    ensures continues { Continues patch.old patch.new }
    ensures parted { result ≡ true → IsTrue (is_left patch.new.kept.end) }
    ensures same { result ≡ false → patch.new ≡ patch.old }
{
    match choice {
        Choice::Atom(j) => {
            if (j as usize) < patch.problem().atoms().len() {
                attempt::case(patch, j)
            } else {
                false
            }
        }
        Choice::Flip(axis) => {
            if (axis as usize) < patch.problem().axes().len() {
                attempt::flip(patch, axis)
            } else {
                false
            }
        }
    }
}

// Parts the state at an atom or axis of a needed disjunction of at most so many children, by what is expected of the atoms.
fn part_by_form(
    alloc: Global,
    needs: &Needs,
    worths: &[f64],
    most: u32,
    patch: &mut Patch,
) -> Result<bool, AllocError>
    ensures continues { IfOk result (λ b. Continues patch.old patch.new) }
    ensures parted { IfOk result (λ b. b ≡ true → IsTrue (is_left patch.new.kept.end)) }
    ensures same { IfOk result (λ b. b ≡ false → patch.new ≡ patch.old) }
{
    let problem = patch.problem();
    let Some(chosen) = choose(alloc, problem, needs, worths, patch.reached(), most)? else {
        return Ok(false);
    };
    let Chosen {
        choice,
        disjunction,
    } = chosen;
    let is_atom = matches!(choice, Choice::Atom(_));
    if is_atom && part_by_groups(alloc, needs, disjunction, patch)? {
        return Ok(true);
    }
    Ok(part_at(choice, patch))
}

// What is needed at the state that the patch has reached, as the scout that is kept sees it.
fn needs(alloc: Global, heuristics: &mut Heuristics, patch: &Patch) -> Result<Needs, AllocError> {
    let mut scout = heuristics.take_scout(alloc, patch)?;
    let needs = scout.see(alloc, patch);
    heuristics.keep(scout);
    needs
}

// Parts the state by what is needed: at a disjunction with two children left, else by a cut, else at any disjunction.
fn part_by_needs(
    alloc: Global,
    needs: &Needs,
    worths: &[f64],
    patch: &mut Patch,
) -> Result<bool, AllocError>
    ensures continues { IfOk result (λ b. Continues patch.old patch.new) }
    ensures parted { IfOk result (λ b. b ≡ true → IsTrue (is_left patch.new.kept.end)) }
    ensures same { IfOk result (λ b. b ≡ false → patch.new ≡ patch.old) }
{
    if part_by_form(alloc, needs, worths, 2, patch)? {
        return Ok(true);
    }
    if axis::cut(alloc, patch)? {
        return Ok(true);
    }
    part_by_form(alloc, needs, worths, u32::MAX, patch)
}

/// Parts the state where nothing else is left to do: at a Bool axis that is needed at one value, or at an atom or
/// axis of a needed disjunction with two children left; else by a cut; else at an atom or axis of any needed
/// disjunction. Where the two children are conjunctions of atoms, the state is parted by what each of them asks for.
pub fn split(
    alloc: Global,
    heuristics: &mut Heuristics,
    patch: &mut Patch,
) -> Result<bool, AllocError>
    ensures continues { IfOk result (λ b. Continues patch.old patch.new) }
    ensures parted { IfOk result (λ b. b ≡ true → IsTrue (is_left patch.new.kept.end)) }
    ensures same { IfOk result (λ b. b ≡ false → patch.new ≡ patch.old) }
{
    if !is_open(patch.reached()) {
        return axis::cut(alloc, patch);
    }
    let needs = needs(alloc, heuristics, patch)?;
    let worths = worths(alloc, patch)?;
    part_by_needs(alloc, &needs, &worths, patch)
}
