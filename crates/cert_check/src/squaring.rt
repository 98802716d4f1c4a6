// The rule that closes a state by sums of squares.
ghost use Rattle.std.specs.Prelude.{◌≡◌, ◌<◌, [], length, map, All, IfOk, IsTrue};
ghost use Rattle.cover_line.specs.Views.{blocks_of, multipliers_of};
ghost use Rattle.cover_model.specs.Rules.{void_squares};
ghost use Rattle.cert_model.specs.Due.{are_atoms};
ghost use Rattle.interval_model.specs.Space.{middle};
ghost use Rattle.ival.specs.SpaceViews.{space_of};
ghost use Rattle.ival.specs.Views.{interval_of};
ghost use Rattle.poly_graph.specs.ProblemViews.{problem_of};
ghost use Rattle.cert_check.specs.Squares.{is_positive_at, range_at};
ghost use Rattle.cert_check.specs.States.{state_of, loosenings_of, Fits};
ghost use Rattle.cert_check.specs.Steps.{IsLeftBy};

use crate::combination::can_combine;
use crate::left::Left;
use crate::loosenings::Loosenings;
use crate::state::State;
use cover_line::Block;
use dyadic::Dy;
use ival::{Ival, Space};
use plain_eval::marked_range;
use poly_graph::Problem;
use squares::{Combination, is_positive};
use std::alloc::{AllocError, Global};

// The ranges of the atoms' values, by their marks.
fn ranges_of(
    alloc: Global,
    problem: &Problem,
    s: Loosenings,
    state: &State,
    pairs: &[(u32, Dy)],
) -> Result<Vec<Ival>, AllocError>
    requires fits { Fits problem.now (state_of state.now) }
    requires atoms { All (λ x. x.0 < length problem.now.atoms) pairs.now }
    ensures { let at = range_at (problem_of problem.now) (loosenings_of s) (state_of state.now) in
        IfOk result (λ v. map interval_of v.items ≡ map (λ x. at x.0) pairs.now) }
{
    let mut ranges = Vec::new(alloc);
    for pair in pairs {
        ranges.push(marked_range(problem, s.margin, &state.lits, pair.0))?;
    }
    Ok(ranges)
}

// The middle of the space.
fn middle_of(alloc: Global, space: &Space) -> Result<Space, AllocError>
    ensures { IfOk result (λ m. space_of m ≡ middle (space_of space.now)) }
{
    let mut centre = space.try_clone(alloc)?;
    space.middle(&mut centre);
    Ok(centre)
}

// Whether the combination of these atoms without the blocks, about the middle of the state's space, is above what the
// atoms allow.
fn is_positive_at(
    alloc: Global,
    problem: &Problem,
    s: Loosenings,
    state: &State,
    pairs: &[(u32, Dy)],
    blocks: &[Block],
) -> Result<bool, AllocError>
    requires fits { Fits problem.now (state_of state.now) }
    requires atoms { IsTrue (are_atoms (problem_of problem.now) (multipliers_of pairs.now)) }
    ensures { let ms = multipliers_of pairs.now in
        let bs = blocks_of blocks.now in
        IfOk result (λ b. b ≡
        is_positive_at (problem_of problem.now) (loosenings_of s) (state_of state.now) ms bs) }
{
    let ranges = ranges_of(alloc, problem, s, state, pairs)?;
    let combination = Combination {
        problem,
        multipliers: pairs,
        ranges: &ranges,
    };
    let centre = middle_of(alloc, &state.space)?;
    is_positive(alloc, &combination, blocks, &state.space, &centre)
}

/// Closed, where the atoms may be combined and their combination without the blocks is above what they allow.
pub fn squares(
    alloc: Global,
    problem: &Problem,
    s: Loosenings,
    state: &State,
    pairs: &[(u32, Dy)],
    blocks: &[Block],
) -> Result<Option<Left>, AllocError>
    requires fits { Fits problem.now (state_of state.now) }
    requires atoms { IsTrue (are_atoms (problem_of problem.now) (multipliers_of pairs.now)) }
    ensures { let ms = multipliers_of pairs.now in
        IfOk result (IsLeftBy (void_squares ms (blocks_of blocks.now))
        problem.now (loosenings_of s) [] state.now) }
{
    if s.version < 5 || !can_combine(problem, s, state, pairs) {
        return Ok(None);
    }
    if is_positive_at(alloc, problem, s, state, pairs, blocks)? {
        Ok(Some(Left::Closed))
    } else {
        Ok(None)
    }
}
