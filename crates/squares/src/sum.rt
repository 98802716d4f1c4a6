// The polynomial of a combination: its atoms' terms, each times its multiplier.
ghost use Rattle.std.specs.Prelude.{◌≡◌, length, map, IfOk};
ghost use Rattle.cover_line.specs.Views.{multipliers_of};
ghost use Rattle.dyadic.specs.Views.{dyadic_of};
ghost use Rattle.poly_graph.specs.ProblemViews.{problem_of};
ghost use Rattle.square_model.specs.Steps.{counted, counted_sum};
ghost use Rattle.squares.specs.Blocks.{ComesTo};
ghost use Rattle.squares.specs.Pairs.{NamesAtoms};
ghost use Rattle.squares.specs.Sums.{combined_terms, with_multiple, IsAdded};
ghost use Rattle.squares.specs.Views.{terms_of};

use crate::block::times;
use crate::budget::Budget;
use crate::combination::Combination;
use crate::marks::atom_at;
use crate::node::{at, constant};
use crate::number::only;
use crate::polynomial::Polynomial;
use dyadic::Dy;
use std::alloc::{AllocError, Global};

// Adds a polynomial, and tells whether enough steps were left.
fn add_within(
    alloc: Global,
    more: &Polynomial,
    sum: &mut Polynomial,
    budget: &mut Budget,
) -> Result<bool, AllocError>
    ensures { IfOk result (IsAdded
        (counted_sum (counted (terms_of sum.old)) (counted (terms_of more.now)))
        budget.old budget.new sum.new) }
{
    if !budget.take_sum(sum.len(), more.len()) {
        return Ok(false);
    }
    sum.add(alloc, more)?;
    Ok(true)
}

// Adds a multiple of a term's polynomial, and tells whether enough steps were left.
fn add_multiple(
    alloc: Global,
    multiplier: Dy,
    term: &Polynomial,
    sum: &mut Polynomial,
    budget: &mut Budget,
) -> Result<bool, AllocError>
    ensures { IfOk result (IsAdded
        (with_multiple (counted (terms_of sum.old)) (dyadic_of multiplier) (terms_of term.now))
        budget.old budget.new sum.new) }
{
    let factor = constant(alloc, only(multiplier))?;
    match times(alloc, &factor, term, budget)? {
        None => Ok(false),
        Some(multiple) => add_within(alloc, &multiple, sum, budget),
    }
}

/// The polynomial of a combination, from those of the nodes, or none where too few steps are left.
pub fn combined_polynomial(
    alloc: Global,
    combination: &Combination<'_>,
    polynomials: &[Polynomial],
    budget: &mut Budget,
) -> Result<Option<Polynomial>, AllocError>
    requires atoms { NamesAtoms combination.now }
    requires count { length polynomials.now ≡ length combination.now.problem.now.nodes }
    ensures { IfOk result (ComesTo
        (combined_terms (problem_of combination.now.problem.now) (map terms_of polynomials.now)
        (multipliers_of combination.now.multipliers.now)) budget.old budget.new) }
{
    let mut sum = Polynomial::new(alloc);
    let multipliers = combination.multipliers;
    for k in (0..multipliers.len()).rev() {
        let pair = multipliers[k];
        let atom = atom_at(combination.problem, pair.0);
        let term = at(polynomials, atom.term);
        if !add_multiple(alloc, pair.1, term, &mut sum, budget)? {
            return Ok(None);
        }
    }
    Ok(Some(sum))
}
