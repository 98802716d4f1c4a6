// The expressions of assertions that are to be written.
ghost use Rattle.std.specs.Prelude.{◌≡◌, ◌<◌, ◌≤◌, ◌+◌, [], IfErr, OnOk, codes, length, slice_index_or};
ghost use Rattle.root_rewriting.specs.Drafts.{IsContentBelow, constant_at, expression_of};
ghost use Rattle.root_rewriting.specs.Limits.{limit_at};
ghost use Rattle.root_rewriting.specs.Opened.{CanWrite, symbol_at};
ghost use Rattle.root_rewriting.specs.Spelling.{AreNamed, IsSpelling, Stops};
ghost use Rattle.root_rewriting.specs.Nodes.{tree_at, trees_in};
ghost use Rattle.script_roots.specs.Fresh.{Table};
ghost use Rattle.script_roots.specs.Refused.{most_tokens, tokens_of};
ghost use Rattle.script_roots.specs.Rewritten.{spelled, two_of};
ghost use Rattle.smt_sexp.specs.Views.{place_of};
ghost use Rattle.smt_sexp.specs.Writing.{Writes, tokens_in};

use crate::claims::{Limit, write_bound};
use crate::drafts::Content;
use crate::spelling::{Spelling, Stop, head, spell, symbol};
use script_fault::Place;
use smt_sexp::Writer;
use std::alloc::{AllocError, Global};

// The name of a constant.
fn constant_name<'t>(spelling: &Spelling<'t, '_>, constant: usize) -> &'t [u8]
    requires { constant < length spelling.now.names.now }
    ensures { result.now ≡ slice_index_or spelling.now.names.now constant [] }
{
    spelling.names[constant].as_slice()
}

// Writes the square of a constant.
fn write_square(
    alloc: Global,
    writer: &mut Writer,
    at: Place,
    name: &[u8],
) -> Result<(), AllocError>
    requires { CanWrite writer.old 8 }
    ensures { OnOk result (Writes writer.old writer.new (two_of (place_of at) (codes "*")
        (symbol_at (place_of at) name.now) (symbol_at (place_of at) name.now))) }
{
    head(alloc, writer, at, b"*")?;
    symbol(alloc, writer, at, name)?;
    symbol(alloc, writer, at, name)?;
    writer.close()
}

// Writes that the square of a constant is a tree.
fn square_is(
    alloc: Global,
    spelling: &Spelling<'_, '_>,
    writer: &mut Writer,
    at: Place,
    constant: usize,
    tree: usize,
) -> Result<(), Stop>
    requires spelling { IsSpelling spelling.now }
    requires named { (table : Table) × AreNamed table spelling.now }
    requires can { CanWrite writer.old 0 }
    requires constant { constant < length spelling.now.names.now }
    requires tree { tree < length spelling.now.trees.now }
    ensures written { (table : Table) → AreNamed table spelling.now →
        OnOk result (Writes writer.old writer.new
        (expression_of spelling.now.names.now table (trees_in spelling.now.trees.now)
        (place_of at) (Content.Square constant tree))) }
    ensures stops { (table : Table) → AreNamed table spelling.now →
        IfErr result (λ stop. Stops stop (tokens_in writer.old +
        tokens_of (expression_of spelling.now.names.now table (trees_in spelling.now.trees.now)
        (place_of at) (Content.Square constant tree)))) }
{
    head(alloc, writer, at, b"=")?;
    write_square(alloc, writer, at, constant_name(spelling, constant))?;
    spell(alloc, spelling, writer, tree)?;
    writer.close()?;
    Ok(())
}

// Writes the product of a constant and a tree.
fn write_product(
    alloc: Global,
    spelling: &Spelling<'_, '_>,
    writer: &mut Writer,
    at: Place,
    constant: usize,
    tree: usize,
) -> Result<(), Stop>
    requires spelling { IsSpelling spelling.now }
    requires named { (table : Table) × AreNamed table spelling.now }
    requires can { CanWrite writer.old 8 }
    requires constant { constant < length spelling.now.names.now }
    requires tree { tree < length spelling.now.trees.now }
    ensures written { (table : Table) → AreNamed table spelling.now →
        OnOk result (Writes writer.old writer.new (two_of (place_of at) (codes "*")
        (constant_at spelling.now.names.now (place_of at) constant)
        (spelled table (tree_at (trees_in spelling.now.trees.now) tree)))) }
    ensures room { OnOk result (tokens_in writer.new ≤ most_tokens + 1) }
    ensures stops { (table : Table) → AreNamed table spelling.now →
        IfErr result (λ stop. Stops stop (tokens_in writer.old +
        tokens_of (two_of (place_of at) (codes "*")
        (constant_at spelling.now.names.now (place_of at) constant)
        (spelled table (tree_at (trees_in spelling.now.trees.now) tree))))) }
{
    head(alloc, writer, at, b"*")?;
    symbol(alloc, writer, at, constant_name(spelling, constant))?;
    spell(alloc, spelling, writer, tree)?;
    writer.close()?;
    Ok(())
}

// Writes that a constant times the first tree is the second.
fn product_is(
    alloc: Global,
    spelling: &Spelling<'_, '_>,
    writer: &mut Writer,
    at: Place,
    constant: usize,
    trees: (usize, usize),
) -> Result<(), Stop>
    requires spelling { IsSpelling spelling.now }
    requires named { (table : Table) × AreNamed table spelling.now }
    requires can { CanWrite writer.old 0 }
    requires constant { constant < length spelling.now.names.now }
    requires one { trees.0 < length spelling.now.trees.now }
    requires other { trees.1 < length spelling.now.trees.now }
    ensures written { (table : Table) → AreNamed table spelling.now →
        OnOk result (Writes writer.old writer.new
        (expression_of spelling.now.names.now table (trees_in spelling.now.trees.now)
        (place_of at) (Content.Product constant trees.0 trees.1))) }
    ensures stops { (table : Table) → AreNamed table spelling.now →
        IfErr result (λ stop. Stops stop (tokens_in writer.old +
        tokens_of (expression_of spelling.now.names.now table (trees_in spelling.now.trees.now)
        (place_of at) (Content.Product constant trees.0 trees.1)))) }
{
    head(alloc, writer, at, b"=")?;
    write_product(alloc, spelling, writer, at, constant, trees.0)?;
    spell(alloc, spelling, writer, trees.1)?;
    writer.close()?;
    Ok(())
}

// Writes in what relation a constant is to a limit.
fn limit_is(
    alloc: Global,
    spelling: &Spelling<'_, '_>,
    writer: &mut Writer,
    at: Place,
    relation: &[u8],
    limited: (usize, Limit),
) -> Result<(), AllocError>
    requires can { CanWrite writer.old 0 }
    requires constant { limited.0 < length spelling.now.names.now }
    ensures { OnOk result (Writes writer.old writer.new (two_of (place_of at) relation.now
        (constant_at spelling.now.names.now (place_of at) limited.0)
        (limit_at (place_of at) limited.1))) }
{
    let (constant, limit) = limited;
    let name = constant_name(spelling, constant);
    write_bound(alloc, writer, at, relation, name, limit)
}

/// Writes what is to be asserted.
///
/// # Errors
///
/// That there are more than `MOST_TOKENS` tokens with it, or out of memory.
pub(crate) fn write_content(
    alloc: Global,
    spelling: &Spelling<'_, '_>,
    writer: &mut Writer,
    at: Place,
    content: Content,
) -> Result<(), Stop>
    requires spelling { IsSpelling spelling.now }
    requires named { (table : Table) × AreNamed table spelling.now }
    requires can { CanWrite writer.old 0 }
    requires below { IsContentBelow (length spelling.now.trees.now)
        (length spelling.now.names.now) content }
    ensures written { (table : Table) → AreNamed table spelling.now →
        OnOk result (Writes writer.old writer.new
        (expression_of spelling.now.names.now table (trees_in spelling.now.trees.now)
        (place_of at) content)) }
    ensures stops { (table : Table) → AreNamed table spelling.now →
        IfErr result (λ stop. Stops stop (tokens_in writer.old +
        tokens_of (expression_of spelling.now.names.now table (trees_in spelling.now.trees.now)
        (place_of at) content))) }
{
    match content {
        Content::Tree(tree) => spell(alloc, spelling, writer, tree),
        Content::AtLeast(constant, limit) => {
            limit_is(alloc, spelling, writer, at, b">=", (constant, limit))?;
            Ok(())
        }
        Content::AtMost(constant, limit) => {
            limit_is(alloc, spelling, writer, at, b"<=", (constant, limit))?;
            Ok(())
        }
        Content::Square(constant, tree) => {
            square_is(alloc, spelling, writer, at, constant, tree)
        }
        Content::Product(constant, divisor, dividend) => {
            product_is(alloc, spelling, writer, at, constant, (divisor, dividend))
        }
    }
}
