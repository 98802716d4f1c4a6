// The end of a patch by sums of squares, over its parts.
ghost use Rattle.std.specs.Prelude.{◌≡◌, ◌≤◌, ◌<◌, IfOk, IsTrue, OnOk, length, map, true};
ghost use Rattle.std.specs.List.{All, list_all};
ghost use Rattle.cover_line.specs.Views.{blocks_of, multipliers_of};
ghost use Rattle.cover_model.specs.Fits.{FitsProblem};
ghost use Rattle.cover_model.specs.Rules.{can_combine};
ghost use Rattle.interval_model.specs.Space.{middle as middle_space};
ghost use Rattle.ival.specs.SpaceViews.{space_of};
ghost use Rattle.ival.specs.Views.{interval_of};
ghost use Rattle.poly_graph.specs.ProblemViews.{problem_of};
ghost use Rattle.square_model.specs.Block.{are_rows};
ghost use Rattle.square_model.specs.Positive.{all_numbers, most_numbers};
ghost use Rattle.combine.specs.Hands.{range_by_mark};
ghost use Rattle.cover_data.specs.Margins.{AreMargins, loosenings_of};
ghost use Rattle.cover_rule.specs.Held.{IsHeld, patch_of};
ghost use Rattle.cover_rule.specs.Refusals.{IsTold, SquaresEnd, can_square, is_positive_at, squares_refusal, squaring_refusal};
ghost use Rattle.cover_rule.specs.Serves.{IsReady};

use crate::combining::can_combine;
use crate::ends::end_by;
use crate::refusal::PatchRefusal;
use crate::truth::find_centre;
use crate::workspace::Workspace;
use combine::{Combination, marked_range};
use cover_data::{Closing, End, KeptPatch, Margins, Squares, State};
use cover_line::Block;
use dyadic::Dy;
use ival::{Ival, Space};
use poly_graph::Problem;
use squares::{are_few, is_positive};
use std::alloc::{AllocError, Global};

// Whether the version has such ends, and these atoms may be combined at the state.
fn can_square(problem: &Problem, margins: &Margins, state: &State, pairs: &[(u32, Dy)]) -> bool
    requires { FitsProblem (problem_of problem.now) state.now }
    ensures { let ms = multipliers_of pairs.now in
        result ≡ can_square (problem_of problem.now) (loosenings_of margins.now) state.now ms }
{
    margins.version >= 5 && can_combine(problem, margins, state, pairs)
}

/// Atoms, each with its multiplier, and the blocks that are taken away from their combination.
#[derive(Drop)]
pub struct Difference {
    pub pairs: Vec<(u32, Dy)>,
    pub blocks: Vec<Block>,
}

// The ranges of the atoms' values, by their marks.
fn ranges_of(alloc: Global, combination: &Combination<'_>) -> Result<Vec<Ival>, AllocError>
    requires loosen { combination.now.loosen ≤ 120 }
    requires atoms { All (λ x. x.0 < length combination.now.problem.now.atoms)
        combination.now.multipliers.now }
    requires lits { length combination.now.lits.now ≡ length combination.now.problem.now.atoms }
    ensures { IfOk result (λ v. map interval_of v.items ≡
        map (λ x. range_by_mark combination.now x.0) combination.now.multipliers.now) }
{
    let multipliers = combination.multipliers;
    let mut ranges = Vec::new(alloc);
    for pair in multipliers {
        ranges.push(marked_range(combination, pair.0))?;
    }
    Ok(ranges)
}

// Whether the difference, about the middle of the state's space, is above what the atoms allow.
fn is_positive_at(
    alloc: Global,
    problem: &Problem,
    margins: &Margins,
    state: &State,
    difference: &Difference,
    middle: &Space,
) -> Result<bool, AllocError>
    requires margins { AreMargins margins.now }
    requires state { FitsProblem (problem_of problem.now) state.now }
    requires may { let ms = multipliers_of difference.now.pairs.items in
        IsTrue (can_combine (problem_of problem.now) (loosenings_of margins.now) state.now ms) }
    requires middle { space_of middle.now ≡ middle_space state.now.space }
    ensures { let ms = multipliers_of difference.now.pairs.items in
        let bs = blocks_of difference.now.blocks.items in
        let s = loosenings_of margins.now in
        IfOk result (λ b. b ≡ is_positive_at (problem_of problem.now) s state.now ms bs) }
{
    let combination = Combination {
        problem,
        loosen: margins.margin_bits,
        lits: state.lits(),
        multipliers: &difference.pairs,
    };
    let ranges = ranges_of(alloc, &combination)?;
    let combination = squares::Combination {
        problem,
        multipliers: &difference.pairs,
        ranges: &ranges,
    };
    is_positive(
        alloc,
        &combination,
        &difference.blocks,
        state.space(),
        middle,
    )
}

// Tells whether the patch may be ended so.
fn test_end(
    alloc: Global,
    problem: &Problem,
    margins: &Margins,
    kept: &KeptPatch,
    work: &mut Workspace,
    difference: &Difference,
) -> Result<(), PatchRefusal>
    requires held { IsHeld problem.now margins.now kept.now work.old }
    ensures told { let P = patch_of problem.now margins.now kept.now in
        let ms = multipliers_of difference.now.pairs.items in
        let bs = blocks_of difference.now.blocks.items in
        IsTold (squaring_refusal P ms bs) (squares_refusal P ms bs) result }
    ensures shaped { let bs = blocks_of difference.now.blocks.items in
        OnOk result (IsTrue (list_all (λ b. are_rows b.monomials b.rows) bs)) }
    ensures few { let ms = multipliers_of difference.now.pairs.items in
        let bs = blocks_of difference.now.blocks.items in
        OnOk result (all_numbers ms bs ≤ most_numbers) }
    ensures ready { IsReady problem.now margins.now kept.now.reached.space work.new }
{
    if kept.end.is_some() {
        return Err(PatchRefusal::Ended);
    }
    let state = &kept.reached;
    if !can_square(problem, margins, state, &difference.pairs) {
        return Err(PatchRefusal::NotCombinable);
    }
    if !are_few(&difference.pairs, &difference.blocks) {
        return Err(PatchRefusal::TooLong);
    }
    find_centre(problem, state.space(), &mut work.centre);
    let middle = &work.centre.middle;
    match is_positive_at(alloc, problem, margins, state, difference, middle) {
        Ok(true) => Ok(()),
        Ok(false) => Err(PatchRefusal::NotFalse),
        Err(_) => Err(PatchRefusal::Memory),
    }
}

/// Ends the patch where the difference is above what the atoms allow, and the marks allow it.
pub fn squares(
    alloc: Global,
    problem: &Problem,
    margins: &Margins,
    kept: &mut KeptPatch,
    work: &mut Workspace,
    difference: Difference,
) -> Result<(), PatchRefusal>
    requires held { IsHeld problem.now margins.now kept.old work.old }
    ensures answer { let P = patch_of problem.now margins.now in
        let ms = multipliers_of difference.pairs.items in
        let bs = blocks_of difference.blocks.items in
        SquaresEnd (P kept.old) ms bs (P kept.new) result }
    ensures reached { kept.new.reached ≡ kept.old.reached }
    ensures ready { IsReady problem.now margins.now kept.old.reached.space work.new }
{
    test_end(alloc, problem, margins, kept, work, &difference)?;
    let Difference { pairs, blocks } = difference;
    end_by(
        kept,
        End::Close(Closing::Squares(Squares { pairs, blocks })),
    );
    Ok(())
}
