// How many numbers a line has.
ghost use Rattle.std.specs.Prelude.{◌≡◌, map, nat_le};
ghost use Rattle.cover_line.specs.Views.{axes_of, block_of, multipliers_of, numbers_of};
ghost use Rattle.square_model.specs.Positive.{all_numbers, block_numbers, blocks_numbers, most_numbers, sizes_of};
ghost use Rattle.squares.specs.Views.{Leaves};

use cover_line::Block;
use dyadic::Dy;

const MOST_NUMBERS: usize = 8_000;

// What is left without the axes, or none where there are more.
#[tactic(auto, using(crate::proofs::Counting::axes_more, crate::proofs::Counting::axes_done))]
fn without_axes(left: usize, monomials: &[Vec<u32>]) -> Option<usize>
    ensures { Leaves (sizes_of (map axes_of monomials.now)) left result }
{
    let mut less = left;
    for axes in monomials {
        less = less.checked_sub(axes.len())?;
    }
    Some(less)
}

// What is left without the numbers of rows, or none where there are more.
#[tactic(auto, using(crate::proofs::Counting::rows_more, crate::proofs::Counting::rows_done))]
fn without_rows(left: usize, rows: &[Vec<Dy>]) -> Option<usize>
    ensures { Leaves (sizes_of (map numbers_of rows.now)) left result }
{
    let mut less = left;
    for row in rows {
        less = less.checked_sub(row.len())?;
    }
    Some(less)
}

// What is left without the numbers of a block, or none where there are more.
#[tactic(auto, using(crate::proofs::Counting::numbers_in))]
fn without_block(left: usize, block: &Block) -> Option<usize>
    ensures { Leaves (block_numbers (block_of block.now)) left result }
{
    let less = left.checked_sub(3)?.checked_sub(block.monomials.len())?;
    let less = without_axes(less, &block.monomials)?;
    without_rows(less, &block.rows)
}

// What is left without the numbers of blocks, or none where there are more.
#[tactic(auto, using(crate::proofs::Counting::blocks_more, crate::proofs::Counting::blocks_done))]
fn without_blocks(left: usize, blocks: &[Block]) -> Option<usize>
    ensures { Leaves (blocks_numbers (map block_of blocks.now)) left result }
{
    let mut less = left;
    for block in blocks {
        less = without_block(less, block)?;
    }
    Some(less)
}

/// Whether the line has at most 8,000 numbers.
#[tactic(auto, using(crate::proofs::Counting::pairs_are))]
pub fn are_few(pairs: &[(u32, Dy)], blocks: &[Block]) -> bool
    ensures { result ≡
        nat_le (all_numbers (multipliers_of pairs.now) (map block_of blocks.now)) most_numbers }
{
    if pairs.len() >= MOST_NUMBERS / 2 {
        return false;
    }
    without_blocks(MOST_NUMBERS - 1 - 2 * pairs.len(), blocks).is_some()
}
