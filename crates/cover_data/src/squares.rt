// Combinations less sums of squares, as the ends of patches have them.
ghost use Rattle.std.specs.Prelude.{◌≡◌, ◌≤◌, map, IfOk, IsTrue};
ghost use Rattle.std.specs.List.{list_all};
ghost use Rattle.square_model.specs.Block.{are_rows};
ghost use Rattle.cover_line.specs.Views.{axes_of, blocks_of, multipliers_of, numbers_of};
ghost use Rattle.square_model.specs.Positive.{all_numbers, most_numbers};

use cover_line::Block;
use dyadic::Dy;
use std::alloc::{AllocError, Global};

/// Numbers of atoms, each with its multiplier, and blocks of squares: at most 8,000 numbers in all, as a line of a
/// certificate has.
#[derive(Drop, PartialEq, Eq, Debug)]
pub struct Squares {
    pub pairs: Vec<(u32, Dy)>,
    pub blocks: Vec<Block>,
    /// A block has a row for each monomial.
    pub ghost shaped: { IsTrue (list_all (λ b. are_rows b.monomials b.rows) (blocks_of blocks.items)) },
    pub ghost few: { all_numbers (multipliers_of pairs.items) (blocks_of blocks.items) ≤ most_numbers },
}

// The same lists in memory of their own.
fn copies_of_axes(alloc: Global, monomials: &[Vec<u32>]) -> Result<Vec<Vec<u32>>, AllocError>
    ensures { IfOk result (λ v. map axes_of v.items ≡ map axes_of monomials.now) }
{
    let mut all = Vec::new(alloc);
    for axes in monomials {
        all.push(Vec::from_slice(alloc, axes)?)?;
    }
    Ok(all)
}

// The same rows in memory of their own.
fn copies_of_rows(alloc: Global, rows: &[Vec<Dy>]) -> Result<Vec<Vec<Dy>>, AllocError>
    ensures { IfOk result (λ v. map numbers_of v.items ≡ map numbers_of rows.now) }
{
    let mut all = Vec::new(alloc);
    for row in rows {
        all.push(Vec::from_slice(alloc, row)?)?;
    }
    Ok(all)
}

// The same blocks in memory of their own.
fn copies(alloc: Global, blocks: &[Block]) -> Result<Vec<Block>, AllocError>
    ensures { IfOk result (λ v. blocks_of v.items ≡ blocks_of blocks.now) }
{
    let mut all = Vec::new(alloc);
    for block in blocks {
        all.push(Block {
            factor: block.factor,
            monomials: copies_of_axes(alloc, &block.monomials)?,
            rows: copies_of_rows(alloc, &block.rows)?,
        })?;
    }
    Ok(all)
}

impl Squares {
    /// The same in memory of their own.
    pub fn try_clone(&self, alloc: Global) -> Result<Squares, AllocError>
        ensures pairs { IfOk result
            (λ s. multipliers_of s.pairs.items ≡ multipliers_of self.now.pairs.items) }
        ensures blocks { IfOk result
            (λ s. blocks_of s.blocks.items ≡ blocks_of self.now.blocks.items) }
    {
        let pairs = Vec::from_slice(alloc, &self.pairs)?;
        let blocks = copies(alloc, &self.blocks)?;
        Ok(Squares { pairs, blocks })
    }
}
