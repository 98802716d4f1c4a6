// Boxes, blocks by texts of numbers, and whether a line with them is positive.
ghost use Rattle.std.specs.Prelude.{◌≡◌, ◌<◌, length, All, IsTrue};

use cover_line::{Block, Factor};
use dyadic::{Dy, read_dy};
use ival::{Domain, Range, Space, Truths};
use poly_graph::{Declared, Problem};
use squares::{Combination, is_positive};
use std::alloc::Global;

// A block by texts of numbers: an axis, if its factor bounds one; its monomials, and for each the coefficients of its row.
pub(crate) struct Squares {
    pub(crate) bound: Option<u32>,
    pub(crate) monomials: &'static [&'static [u32]],
    pub(crate) rows: &'static [&'static [&'static str]],
}

pub(crate) fn number(text: &str) -> Option<Dy> {
    read_dy(text.as_bytes()).ok()
}

fn numbers(alloc: Global, texts: &[&str]) -> Option<Vec<Dy>> {
    let mut numbers = Vec::new(alloc);
    for text in texts {
        numbers.push(number(text)?).ok()?;
    }
    Some(numbers)
}

fn block(alloc: Global, squares: &Squares) -> Option<Block> {
    let mut monomials = Vec::new(alloc);
    for axes in squares.monomials {
        monomials.push(Vec::from_slice(alloc, axes).ok()?).ok()?;
    }
    let mut rows = Vec::new(alloc);
    for row in squares.rows {
        rows.push(numbers(alloc, row)?).ok()?;
    }
    let factor = match squares.bound {
        None => Factor::One,
        Some(axis) => Factor::BoundOf(axis),
    };
    Some(Block {
        factor,
        monomials,
        rows,
    })
}

// Blocks, each so many times.
pub(crate) fn blocks(alloc: Global, all: &[(usize, Squares)]) -> Option<Vec<Block>> {
    let mut blocks = Vec::new(alloc);
    for (times, squares) in all {
        for _ in 0..*times {
            blocks.push(block(alloc, squares)?).ok()?;
        }
    }
    Some(blocks)
}

// The problem's axes, each Real one between these.
pub(crate) fn space(alloc: Global, problem: &Problem, low: &str, high: &str) -> Option<Space> {
    let range = Range::between(number(low)?, number(high)?)?;
    let mut axes = Vec::new(alloc);
    for axis in problem.axes() {
        let domain = match axis.declared {
            Declared::Real(_, _) => Domain::Real(range),
            Declared::Bool => Domain::Bool(Truths::Either),
        };
        axes.push(domain).ok()?;
    }
    Some(Space { axes })
}

// Whether the pairs name atoms of the problem.
fn are_atoms(problem: &Problem, pairs: &[(u32, Dy)]) -> bool
    ensures { IsTrue result → All (λ x. x.0 < length problem.now.atoms) pairs.now }
{
    for i in 0..pairs.len() {
        if pairs[i].0 as usize >= problem.atoms().len() {
            return false;
        }
    }
    true
}

// Whether a line is positive, expanded at the centre of the space; none where it names an atom that is not there.
pub(crate) fn told(
    alloc: Global,
    combination: &Combination<'_>,
    blocks: &[Block],
    space: &Space,
    centre: &Space,
) -> Option<bool> {
    if !are_atoms(combination.problem, combination.multipliers)
        || combination.ranges.len() != combination.multipliers.len()
    {
        return None;
    }
    is_positive(alloc, combination, blocks, space, centre).ok()
}
