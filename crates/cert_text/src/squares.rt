// The words of squares, each after a space.
ghost use Rattle.std.specs.Prelude.{◌∷◌, [], OnOk, decimal, map};
ghost use Rattle.std.specs.List.{AllByRecursion};
ghost use Rattle.dyadic.specs.NumberText.{number_spelling};
ghost use Rattle.dyadic.specs.Views.{dyadic_of};
ghost use Rattle.cover_line.specs.Views.{axes_of, block_of, blocks_of, factor_of, multipliers_of, numbers_of};
ghost use Rattle.cover_line.specs.Words.{of_squares};
ghost use Rattle.cert_read.specs.LineText.{IsCount, IsSpelledFactor, block_words, factor_words, monomial_words, row_words};
ghost use Rattle.cert_text.specs.Ruled.{HasCounts, HasOperands, HasWords};

use crate::append::{append_number, append_pairs, append_word_and_count};
use cover_line::{Block, Factor};
use dyadic::Dy;
use itoa::Buffer;
use std::alloc::AllocError;

/// How many there are.
pub(crate) fn append_size(text: &mut Vec<u8>, size: usize) -> Result<(), AllocError>
    ensures { OnOk result (HasWords text.old.items (decimal size ∷ []) text.new.items) }
{
    let mut buffer = Buffer::new();
    text.extend_from_slice(b" ")?;
    text.extend_from_slice(buffer.format(size as u64).as_bytes())
}

/// Plain numbers.
pub(crate) fn append_each(text: &mut Vec<u8>, numbers: &[u32]) -> Result<(), AllocError>
    ensures words { OnOk result (HasWords text.old.items (map decimal numbers.now) text.new.items) }
    ensures counts { OnOk result (AllByRecursion IsCount numbers.now) }
{
    for number in numbers {
        append_word_and_count(text, "", *number)?;
    }
    Ok(())
}

// The numbers of a row.
fn append_row(text: &mut Vec<u8>, row: &[Dy]) -> Result<(), AllocError>
    ensures { OnOk result (HasWords text.old.items (map number_spelling (map dyadic_of row.now))
        text.new.items) }
{
    for number in row {
        text.extend_from_slice(b" ")?;
        append_number(text, *number)?;
    }
    Ok(())
}

// Monomials, each with the number of its axes before it.
fn append_monomials(text: &mut Vec<u8>, monomials: &[Vec<u32>]) -> Result<(), AllocError>
    ensures words { OnOk result (HasWords text.old.items
        (monomial_words (map axes_of monomials.now)) text.new.items) }
    ensures counts { OnOk result (AllByRecursion (AllByRecursion IsCount) (map axes_of monomials.now)) }
{
    for axes in monomials {
        append_size(text, axes.len())?;
        append_each(text, axes)?;
    }
    Ok(())
}

fn append_rows(text: &mut Vec<u8>, rows: &[Vec<Dy>]) -> Result<(), AllocError>
    ensures { OnOk result (HasWords text.old.items (row_words (map numbers_of rows.now))
        text.new.items) }
{
    for row in rows {
        append_row(text, row)?;
    }
    Ok(())
}

// What the squares of a block are times.
fn append_factor(text: &mut Vec<u8>, factor: Factor) -> Result<(), AllocError>
    ensures words { OnOk result (HasWords text.old.items (factor_words (factor_of factor))
        text.new.items) }
    ensures count { OnOk result (IsSpelledFactor (factor_of factor)) }
{
    match factor {
        Factor::One => append_word_and_count(text, "", 0),
        Factor::BoundOf(axis) => {
            append_word_and_count(text, "", 1)?;
            append_word_and_count(text, "", axis)
        }
    }
}

fn append_block(text: &mut Vec<u8>, block: &Block) -> Result<(), AllocError>
    ensures words { OnOk result (HasWords text.old.items (block_words (block_of block.now ∷ []))
        text.new.items) }
    ensures counts { OnOk result (HasCounts (block_of block.now)) }
{
    append_factor(text, block.factor)?;
    append_size(text, block.monomials.len())?;
    append_monomials(text, &block.monomials)?;
    append_rows(text, &block.rows)
}

fn append_blocks(text: &mut Vec<u8>, blocks: &[Block]) -> Result<(), AllocError>
    ensures words { OnOk result (HasWords text.old.items (block_words (blocks_of blocks.now))
        text.new.items) }
    ensures counts { OnOk result (AllByRecursion HasCounts (blocks_of blocks.now)) }
{
    for block in blocks {
        append_block(text, block)?;
    }
    Ok(())
}

/// Appends how many pairs there are, the pairs, and the blocks.
pub(crate) fn append_squares(
    text: &mut Vec<u8>,
    pairs: &[(u32, Dy)],
    blocks: &[Block],
) -> Result<(), AllocError>
    ensures { OnOk result (HasOperands text.old.items
        (of_squares (multipliers_of pairs.now) (blocks_of blocks.now)) text.new.items) }
{
    append_size(text, pairs.len())?;
    append_pairs(text, pairs)?;
    append_blocks(text, blocks)
}
