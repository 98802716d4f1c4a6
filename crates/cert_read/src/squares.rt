// The operands of a line of squares, read from the left.
ghost use Rattle.std.specs.Prelude.{length, option_copied};
ghost use Rattle.cover_line.specs.Views.{axes_of, block_of, factor_of, numbers_of};
ghost use Rattle.dyadic.specs.Views.{dyadic_of};
ghost use Rattle.cert_read.specs.CertLine.{take_block, take_blocks, take_count, take_dyadic, take_factor, take_many, take_monomial, take_pair, take_rows};
ghost use Rattle.cert_read.specs.Taking.{AreSquaresIn, IsNextWord, IsTaken, blocks_in, itself, lists_in, pair_in, pairs_in, rows_in, words_ahead};
ghost use Rattle.cert_read.specs.Words.{words_behind};

use crate::place::cut;
use crate::{LineFault, number};
use cover_line::{Block, Factor};
use dyadic::Dy;
use std::alloc::Global;

/// The words that are still to be read: those of what stands behind a space, where there is one. Numbers of things are
/// not to be trusted before the things are read, since a few words may say that there are billions.
#[derive(Clone, Copy)]
pub(crate) struct Ahead<'a> {
    pub(crate) rest: Option<&'a [u8]>,
}

impl<'a> Ahead<'a> {
    // The next word.
    fn word(&mut self) -> Option<&'a [u8]>
        ensures { IsNextWord (words_ahead self.old) result (words_ahead self.new) }
    {
        let Some(text) = self.rest else {
            return None;
        };
        let (word, rest) = cut(text);
        self.rest = rest;
        Some(word)
    }

    /// A plain number.
    pub(crate) fn count(&mut self) -> Result<u32, LineFault>
        ensures { IsTaken itself (take_count (words_ahead self.old)) result (words_ahead self.new) }
    {
        match self.word() {
            Some(word) => number::count(word),
            None => Err(LineFault::BadLine),
        }
    }

    // A number of the grid.
    fn dyadic(&mut self) -> Result<Dy, LineFault>
        ensures { IsTaken dyadic_of (take_dyadic (words_ahead self.old)) result (words_ahead self.new) }
    {
        match self.word() {
            Some(word) => number::dyadic(word),
            None => Err(LineFault::BadLine),
        }
    }

    /// So many plain numbers.
    pub(crate) fn counts(&mut self, alloc: Global, many: u32) -> Result<Vec<u32>, LineFault>
        ensures { IsTaken axes_of (take_many take_count many (words_ahead self.old)) result
            (words_ahead self.new) }
    {
        let mut counts = Vec::new(alloc);
        for _ in 0..many {
            counts.push(self.count()?)?;
        }
        Ok(counts)
    }

    // So many numbers of the grid.
    fn dyadics(&mut self, alloc: Global, many: u32) -> Result<Vec<Dy>, LineFault>
        ensures { IsTaken numbers_of (take_many take_dyadic many (words_ahead self.old)) result
            (words_ahead self.new) }
    {
        let mut dyadics = Vec::new(alloc);
        for _ in 0..many {
            dyadics.push(self.dyadic()?)?;
        }
        Ok(dyadics)
    }

    // A plain number and a number of the grid.
    fn pair(&mut self) -> Result<(u32, Dy), LineFault>
        ensures { IsTaken pair_in (take_pair (words_ahead self.old)) result (words_ahead self.new) }
    {
        let atom = self.count()?;
        let multiplier = self.dyadic()?;
        Ok((atom, multiplier))
    }

    // So many pairs.
    fn pairs(&mut self, alloc: Global, many: u32) -> Result<Vec<(u32, Dy)>, LineFault>
        ensures { IsTaken pairs_in (take_many take_pair many (words_ahead self.old)) result
            (words_ahead self.new) }
    {
        let mut pairs = Vec::new(alloc);
        for _ in 0..many {
            pairs.push(self.pair()?)?;
        }
        Ok(pairs)
    }

    // The axes of a monomial, behind their number.
    fn monomial(&mut self, alloc: Global) -> Result<Vec<u32>, LineFault>
        ensures { IsTaken axes_of (take_monomial (words_ahead self.old)) result (words_ahead self.new) }
    {
        let many = self.count()?;
        self.counts(alloc, many)
    }

    // So many monomials.
    fn monomials(&mut self, alloc: Global, many: u32) -> Result<Vec<Vec<u32>>, LineFault>
        ensures { IsTaken lists_in (take_many take_monomial many (words_ahead self.old)) result
            (words_ahead self.new) }
    {
        let mut monomials = Vec::new(alloc);
        for _ in 0..many {
            monomials.push(self.monomial(alloc)?)?;
        }
        Ok(monomials)
    }

    // Rows with so many numbers, one less, .. and one.
    fn rows(&mut self, alloc: Global, many: u32) -> Result<Vec<Vec<Dy>>, LineFault>
        ensures { IsTaken rows_in (take_rows many (words_ahead self.old)) result (words_ahead self.new) }
    {
        let mut rows = Vec::new(alloc);
        for above in 0..many {
            rows.push(self.dyadics(alloc, many - above)?)?;
        }
        Ok(rows)
    }

    // What the squares of a block are times.
    fn factor(&mut self) -> Result<Factor, LineFault>
        ensures { IsTaken factor_of (take_factor (words_ahead self.old)) result (words_ahead self.new) }
    {
        match self.count()? {
            0 => Ok(Factor::One),
            1 => Ok(Factor::BoundOf(self.count()?)),
            _ => Err(LineFault::BadLine),
        }
    }

    // A block.
    fn block(&mut self, alloc: Global) -> Result<Block, LineFault>
        ensures { IsTaken block_of (take_block (words_ahead self.old)) result (words_ahead self.new) }
    {
        let factor = self.factor()?;
        let many = self.count()?;
        let monomials = self.monomials(alloc, many)?;
        let rows = self.rows(alloc, many)?;
        Ok(Block {
            factor,
            monomials,
            rows,
        })
    }

    // Blocks up to the last word.
    fn blocks(&mut self, alloc: Global) -> Result<Vec<Block>, LineFault>
        ensures { IsTaken blocks_in
            (take_blocks (length (words_ahead self.old)) (words_ahead self.old)) result
            (words_ahead self.new) }
    {
        let mut blocks = Vec::new(alloc);
        while self.rest.is_some() {
            blocks.push(self.block(alloc)?)?;
        }
        Ok(blocks)
    }
}

/// The pairs and the blocks of what stands behind a space, where there is one.
pub(crate) fn squares(
    alloc: Global,
    rest: Option<&[u8]>,
) -> Result<(Vec<(u32, Dy)>, Vec<Block>), LineFault>
    ensures { AreSquaresIn result (words_behind (option_copied rest.entry)) }
{
    let mut ahead = Ahead { rest };
    let many = ahead.count()?;
    let pairs = ahead.pairs(alloc, many)?;
    let blocks = ahead.blocks(alloc)?;
    Ok((pairs, blocks))
}
