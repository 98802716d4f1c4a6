// The rewriting of a script.
ghost use Rattle.std.specs.Prelude.{◌≡◌, ◌∷◌, ◌++◌, ◌<◌, [], List, None, IfErr, IfOk, OnOk, length, map};
ghost use Rattle.root_rewriting.specs.Classes.{AreClasses};
ghost use Rattle.root_rewriting.specs.Placing.{InWriting, IsTooLarge};
ghost use Rattle.root_rewriting.specs.Rewriting.{IsAnswer, commands_of, declared_command, introduced_command, refusal_fault, refused_later};
ghost use Rattle.root_rewriting.specs.Enclosures.{AreEnclosures};
ghost use Rattle.root_rewriting.specs.Table.{AreEntriesBelow, entry_of};
ghost use Rattle.root_rewriting.specs.Asserted.{AreAsserted};
ghost use Rattle.root_rewriting.specs.Nodes.{node_tree, trees_in};
ghost use Rattle.script_fault.specs.Answers.{IsFaultOrMemory};
ghost use Rattle.script_roots.specs.Fresh as fresh;
ghost use Rattle.script_roots.specs.Ranges.{Ranges};
ghost use Rattle.script_roots.specs.Reached.{first_beyond};
ghost use Rattle.script_roots.specs.Refused.{most_tokens, refusal, tokens_from};
ghost use Rattle.script_roots.specs.Rewritten.{assertion, claims_of_all, declaration, declarations, place_of_tree, rewritten_by};
ghost use Rattle.script_roots.specs.Tree.{Tree};
ghost use Rattle.smt_script.specs.Views.{command_of, commands_in};
ghost use Rattle.smt_sexp.specs.Views.{place_of};
ghost use Rattle.smt_sexp.specs.declared.sexps.Sexps as arena;

use crate::classes::classes;
use crate::constants::{Fresh, table};
use crate::drafts::drafts;
use crate::names::{name, names};
use crate::places::left_out;
use crate::plain::holds_fresh;
use crate::range::enclosures;
use crate::script::{Declared, Introduced, Rewriting};
use crate::spelling::{Spelling, numbers};
use crate::unfold::{AssertedTrees, Node, Trees, asserted};
use crate::writing::{Writing, write_all};
use ival::Ival;
use script_fault::{FaultKind, Place, ReadError};
use smt_script::{Command, Script};
use std::alloc::{AllocError, Global};

// Adds the constant that a command declares, if it declares one.
fn push_constant<'a>(
    declared: &mut Vec<Declared<'a>>,
    command: &Command<'a>,
) -> Result<(), AllocError>
    ensures { (s : arena.Sexps) → OnOk result (map declared_command declared.new.items ≡
        map declared_command declared.old.items ++
        declarations (command_of s command.now ∷ [])) }
{
    match command {
        Command::Declare(place, name, sort) => {
            declared.push(Declared {
                place: *place,
                name: *name,
                sort: *sort,
            })?;
            Ok(())
        }
        _ => Ok(()),
    }
}

// The constants that a script declares.
fn declared<'a>(alloc: Global, script: &Script<'a>) -> Result<Vec<Declared<'a>>, AllocError>
    ensures { IfOk result (λ declared. map declared_command declared.items ≡
        declarations (commands_in script.now)) }
{
    let mut declared = Vec::new(alloc);
    let mut rest = script.commands.as_slice();
    while let [command, later @ ..] = rest {
        push_constant(&mut declared, command)?;
        rest = later;
    }
    Ok(declared)
}

// The place of a tree.
fn tree_place(node: &Node<'_>) -> Place
    ensures { (ts : List Tree) → place_of result ≡ place_of_tree (node_tree ts node.now) }
{
    match node {
        Node::Atomic(place, _) => *place,
        Node::Applied(place, _, _) => *place,
        Node::Root(place, _) => *place,
        Node::Quotient(place, _, _) => *place,
        Node::Formless(place) => *place,
    }
}

// The constant that stands for a tree.
fn constant(alloc: Global, trees: &Trees<'_>, fresh: Fresh) -> Result<Introduced, AllocError>
    requires { fresh.tree < length trees.now }
    ensures { IfOk result (λ constant. introduced_command constant ≡
        declaration (entry_of (trees_in trees.now) fresh)) }
{
    Ok(Introduced {
        place: tree_place(trees.look(fresh.tree)),
        name: name(alloc, fresh)?,
    })
}

// The constants of a table.
fn introduced(
    alloc: Global,
    trees: &Trees<'_>,
    table: &[Fresh],
) -> Result<Vec<Introduced>, AllocError>
    requires { AreEntriesBelow (length trees.now) table.now }
    ensures { IfOk result (λ introduced. map introduced_command introduced.items ≡
        map declaration (map (entry_of (trees_in trees.now)) table.now)) }
{
    let mut introduced = Vec::with_capacity(alloc, table.len())?;
    for fresh in table {
        introduced.push(constant(alloc, trees, *fresh)?)?;
    }
    Ok(introduced)
}

// Writes what is asserted.
fn written(
    alloc: Global,
    asserted: &AssertedTrees<'_>,
    ranges: &[Ival],
    classes: &[usize],
    table: &[Fresh],
) -> Result<Writing, ReadError>
    requires ranges { length ranges.now ≡ length asserted.now.trees }
    requires classes { AreClasses (trees_in asserted.now.trees) classes.now }
    requires all { length classes.now ≡ length asserted.now.trees }
    requires table { AreEntriesBelow (length asserted.now.trees) table.now }
    requires assertions { (claims : List fresh.Asserted) ×
        AreAsserted (trees_in asserted.now.trees) asserted.now.assertions.items claims }
    ensures writes { (ranged : Ranges) (claims : List fresh.Asserted) →
        AreEnclosures ranged (trees_in asserted.now.trees) ranges.now →
        AreAsserted (trees_in asserted.now.trees) asserted.now.assertions.items claims →
        let names = map (entry_of (trees_in asserted.now.trees)) table.now in
        IfOk result (λ writing. InWriting writing.writer writing.placed.items
        (claims_of_all ranged names names ++ map (assertion names) claims) []) }
    ensures refuses { (ranged : Ranges) (claims : List fresh.Asserted) →
        AreEnclosures ranged (trees_in asserted.now.trees) ranges.now →
        AreAsserted (trees_in asserted.now.trees) asserted.now.assertions.items claims →
        let names = map (entry_of (trees_in asserted.now.trees)) table.now in
        IfErr result (λ e. IsTooLarge e (first_beyond most_tokens 0 (tokens_from
        (claims_of_all ranged names names ++ map (assertion names) claims)))) }
{
    let drafts = drafts(alloc, asserted, ranges, table)?;
    let names = names(alloc, table)?;
    let numbers = numbers(alloc, classes, table)?;
    let spelling = Spelling {
        trees: &asserted.trees,
        classes,
        numbers: numbers.as_slice(),
        names: names.as_slice(),
    };
    write_all(alloc, &spelling, drafts.as_slice())
}

// The script in which the constants of a table stand for trees.
fn rewritten<'a>(
    alloc: Global,
    script: &Script<'a>,
    asserted: &AssertedTrees<'a>,
    ranges: &[Ival],
    classes: &[usize],
    table: &[Fresh],
) -> Result<Rewriting<'a>, ReadError>
    requires ranges { length ranges.now ≡ length asserted.now.trees }
    requires classes { AreClasses (trees_in asserted.now.trees) classes.now }
    requires all { length classes.now ≡ length asserted.now.trees }
    requires table { AreEntriesBelow (length asserted.now.trees) table.now }
    requires assertions { AreAsserted (trees_in asserted.now.trees)
        asserted.now.assertions.items (fresh.asserted (commands_in script.now)) }
    ensures writes { (ranged : Ranges) →
        AreEnclosures ranged (trees_in asserted.now.trees) ranges.now →
        IfOk result (λ r. commands_of r ≡ rewritten_by ranged
        (map (entry_of (trees_in asserted.now.trees)) table.now) (commands_in script.now)) }
    ensures within { (ranged : Ranges) →
        AreEnclosures ranged (trees_in asserted.now.trees) ranges.now →
        IfOk result (λ r. first_beyond most_tokens 0 (tokens_from (rewritten_by ranged
        (map (entry_of (trees_in asserted.now.trees)) table.now) (commands_in script.now))) ≡
        None) }
    ensures refuses { (ranged : Ranges) →
        AreEnclosures ranged (trees_in asserted.now.trees) ranges.now →
        IfErr result (λ e. IsTooLarge e (first_beyond most_tokens 0 (tokens_from
        (rewritten_by ranged (map (entry_of (trees_in asserted.now.trees)) table.now)
        (commands_in script.now))))) }
{
    let Writing { writer, placed } = written(alloc, asserted, ranges, classes, table)?;
    let declared = declared(alloc, script)?;
    let introduced = introduced(alloc, &asserted.trees, table)?;
    Ok(Rewriting {
        sexps: writer.finish(),
        declared,
        introduced,
        placed,
    })
}

// The rewriting of a script with these assertions.
fn with_constants<'a>(
    alloc: Global,
    script: &Script<'a>,
    asserted: &AssertedTrees<'a>,
    bound: Option<u32>,
) -> Result<Option<Rewriting<'a>>, ReadError>
    requires { AreAsserted (trees_in asserted.now.trees) asserted.now.assertions.items
        (fresh.asserted (commands_in script.now)) }
    ensures answers { IfOk result (IsAnswer bound (commands_in script.now)) }
    ensures accepts { IfOk result (λ _. refused_later bound (commands_in script.now) ≡ None) }
    ensures refuses { IfErr result (λ e.
        IsFaultOrMemory e (refusal_fault (refused_later bound (commands_in script.now)))) }
{
    if let Some(place) = left_out(alloc, asserted)? {
        return Err(ReadError::at(place, FaultKind::LeftOut));
    }
    let enclosures = enclosures(alloc, script, asserted, bound)?;
    let ranges = enclosures.as_slice();
    let numbers = classes(alloc, &asserted.trees)?;
    let classes = numbers.as_slice();
    let constants = table(alloc, asserted, classes, ranges)?;
    let table = constants.as_slice();
    if table.is_empty() {
        return Ok(None);
    }
    let rewriting = rewritten(alloc, script, asserted, ranges, classes, table)?;
    Ok(Some(rewriting))
}

/// The script in which constants stand for the roots and quotients of another; none where no constant stands for one.
/// `bound` is that of constants without one.
///
/// # Errors
///
/// Too many expressions or tokens (`Size`), at the first command with which there are more than `MOST_SIZE`, or more than
/// 4,194,304 tokens in what is made; or a form that is left out, at the first root of an `ite`, or root or quotient in a
/// goal.
pub fn rewriting<'a>(
    alloc: Global,
    script: &Script<'a>,
    bound: Option<u32>,
) -> Result<Option<Rewriting<'a>>, ReadError>
    ensures answers { IfOk result (IsAnswer bound (commands_in script.now)) }
    ensures accepts { IfOk result (λ _. refusal bound (commands_in script.now) ≡ None) }
    ensures refuses { IfErr result (λ e.
        IsFaultOrMemory e (refusal_fault (refusal bound (commands_in script.now)))) }
{
    let asserted = asserted(alloc, script)?;
    if holds_fresh(&asserted.trees) {
        with_constants(alloc, script, &asserted, bound)
    } else {
        Ok(None)
    }
}
