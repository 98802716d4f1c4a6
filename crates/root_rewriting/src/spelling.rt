// Trees that are written as expressions, in which constants stand for those of a table.
ghost use Rattle.std.specs.Prelude.{◌≡◌, ◌<◌, ◌≤◌, ◌+◌, ◌++◌, ◌∷◌, [], List, ℕ, IfErr, IfOk, MatchOption, None, OnOk, Some, length, map};
ghost use Rattle.script_model.specs.Sexp as sexp;
ghost use Rattle.script_roots.specs.Fresh.{Table, name_for};
ghost use Rattle.script_roots.specs.Refused.{most_tokens, tokens_of};
ghost use Rattle.script_roots.specs.Rewritten.{constant_in_place, spelled};
ghost use Rattle.script_roots.specs.Tree.{Tree};
ghost use Rattle.smt_sexp.specs.Lexicon.{Unclosed};
ghost use Rattle.smt_sexp.specs.Views.{place_of};
ghost use Rattle.smt_sexp.specs.Writing.{Writes, tokens_in};
ghost use Rattle.root_rewriting.specs.Nodes.{atom_of, tree_at, trees_in};
ghost use Rattle.root_rewriting.specs.Classes.{AreClasses};
ghost use Rattle.root_rewriting.specs.Spelling.{AreNamed, AreNumbers, Begins, CanSpell, Heads, IsSpelling, IsWriting, NameTrees, Spells, Stops, fresh_name};
ghost use Rattle.root_rewriting.specs.Table.{AreEntriesBelow, entry_of};
ghost use Rattle.root_rewriting.specs.Walk.{AreWorks, weight};
ghost use Rattle.root_rewriting.specs.declared.spelling.Stop.TheVariants.{Memory};

use crate::constants::Fresh;
use crate::unfold::{Atom, Node, Trees};
use crate::walk::{Work, push_parts};
use script_fault::{Name, Place};
use smt_sexp::{Leaf, Writer};
use std::alloc::{AllocError, AllocFailed, Global};

/// At most so many tokens are written.
pub(crate) const MOST_TOKENS: usize = 1 << 22;

/// Why nothing more is written: a limit, or memory.
#[derive(Clone, Copy, Debug)]
pub(crate) enum Stop {
    /// More than `MOST_TOKENS` tokens.
    TooLong,
    Memory,
}

impl From<AllocError> for Stop {
    ghost from_gives = { λ _ e. e ≡ Memory };

    fn from(_: AllocError) -> Self {
        Stop::Memory
    }
}

impl<T: Drop> From<AllocFailed<T>> for Stop {
    ghost from_gives = { λ _ e. e ≡ Memory };

    fn from(_: AllocFailed<T>) -> Self {
        Stop::Memory
    }
}

/// Trees, with the class of each, and with the constants that stand for some: the names of all, and for each class the
/// number of the one that stands for its trees.
#[derive(Clone, Copy)]
pub(crate) struct Spelling<'t, 'a> {
    pub(crate) trees: &'t Trees<'a>,
    pub(crate) classes: &'t [usize],
    pub(crate) numbers: &'t [Option<usize>],
    pub(crate) names: &'t [Name],
}

/// For each class the number of the first constant of a table that stands for its trees.
pub(crate) fn numbers(
    alloc: Global,
    classes: &[usize],
    table: &[Fresh],
) -> Result<Vec<Option<usize>>, AllocError>
    requires classes { (ts : List Tree) × AreClasses ts classes.now }
    requires table { AreEntriesBelow (length classes.now) table.now }
    ensures all { IfOk result (λ numbers. length numbers.items ≡ length classes.now) }
    ensures names { IfOk result (λ numbers. AreNumbers (length table.now) numbers.items) }
    ensures named { (ts : List Tree) → AreClasses ts classes.now →
        IfOk result (λ numbers. NameTrees (map (entry_of ts) table.now) ts classes.now
        numbers.items (map fresh_name table.now)) }
{
    let mut numbers = vec![in alloc; None; classes.len()]?;
    let mut left = table.len();
    while left > 0 {
        left -= 1;
        numbers[classes[table[left].tree]] = Some(left);
    }
    Ok(numbers)
}

// The name of the constant that stands for a tree.
fn constant_for<'t>(spelling: &Spelling<'t, '_>, at: usize) -> Option<&'t Name>
    requires spelling { IsSpelling spelling.now }
    requires at { at < length spelling.now.trees.now }
    ensures { (table : Table) → AreNamed table spelling.now → MatchOption result
        (name_for table (tree_at (trees_in spelling.now.trees.now) at) ≡ None)
        (λ name. name_for table (tree_at (trees_in spelling.now.trees.now) at) ≡
        Some name.now) }
{
    match spelling.numbers[spelling.classes[at]] {
        Some(number) => Some(&spelling.names[number]),
        None => None,
    }
}

/// Writes a name.
pub(crate) fn symbol(
    alloc: Global,
    writer: &mut Writer,
    place: Place,
    name: &[u8],
) -> Result<(), AllocError>
    ensures { OnOk result (Writes writer.old writer.new
        (sexp.leaf (place_of place) (sexp.symbol name.now))) }
{
    let name = Name::from_slice(alloc, name)?;
    writer.leaf(place, Leaf::Symbol(name))
}

// Writes the digits of a whole number.
fn numeral(
    alloc: Global,
    writer: &mut Writer,
    place: Place,
    digits: &[u8],
) -> Result<(), AllocError>
    ensures { OnOk result (Writes writer.old writer.new
        (sexp.leaf (place_of place) (sexp.numeral digits.now))) }
{
    let digits = Name::from_slice(alloc, digits)?;
    writer.leaf(place, Leaf::Numeral(digits))
}

// Writes a tree without parts.
fn atomic(
    alloc: Global,
    writer: &mut Writer,
    place: Place,
    atom: Atom<'_>,
) -> Result<(), AllocError>
    ensures { OnOk result (Writes writer.old writer.new
        (sexp.leaf (place_of place) (atom_of atom.entry))) }
{
    match atom {
        Atom::Numeral(digits) => numeral(alloc, writer, place, digits.as_slice()),
        Atom::Decimal(digits, decimals) => {
            let before = Name::from_slice(alloc, digits.as_slice())?;
            let behind = Name::from_slice(alloc, decimals.as_slice())?;
            writer.leaf(place, Leaf::Decimal(before, behind))
        }
        Atom::Symbol(name) => symbol(alloc, writer, place, name.as_slice()),
    }
}

/// Begins the group of a name, whose arguments follow.
pub(crate) fn head(
    alloc: Global,
    writer: &mut Writer,
    place: Place,
    name: &[u8],
) -> Result<(), AllocError>
    ensures { OnOk result (Heads writer.old writer.new (place_of place) name.now) }
{
    writer.open(place)?;
    symbol(alloc, writer, place, name)
}

// Writes a group in which nothing stands.
fn nothing(writer: &mut Writer, place: Place) -> Result<(), AllocError>
    requires writing { IsWriting writer.old }
    requires few { tokens_in writer.old ≤ most_tokens }
    ensures { OnOk result (Writes writer.old writer.new
        (sexp.group (place_of place) sexp.none)) }
{
    writer.open(place)?;
    writer.close()
}

// Writes a constant at the place of a tree for which it stands.
fn constant(alloc: Global, writer: &mut Writer, place: Place, name: &Name) -> Result<(), AllocError>
    requires writing { IsWriting writer.old }
    requires few { tokens_in writer.old ≤ most_tokens }
    ensures { OnOk result (Writes writer.old writer.new
        (constant_in_place (place_of place) name.now)) }
{
    head(alloc, writer, place, b"*")?;
    symbol(alloc, writer, place, name.as_slice())?;
    numeral(alloc, writer, place, b"1")?;
    writer.close()
}

// Writes a tree whole, or begins its group: says which.
fn begin(
    alloc: Global,
    spelling: &Spelling<'_, '_>,
    writer: &mut Writer,
    at: usize,
) -> Result<bool, AllocError>
    requires spelling { IsSpelling spelling.now }
    requires at { at < length spelling.now.trees.now }
    requires writing { IsWriting writer.old }
    requires few { tokens_in writer.old ≤ most_tokens }
    ensures { (table : Table) → AreNamed table spelling.now →
        IfOk result (λ whole. Begins table writer.old writer.new
        (tree_at (trees_in spelling.now.trees.now) at) whole) }
{
    match spelling.trees.look(at) {
        Node::Atomic(place, atom) => {
            atomic(alloc, writer, *place, *atom)?;
            Ok(true)
        }
        Node::Applied(place, name, _) => {
            head(alloc, writer, *place, name.as_slice())?;
            Ok(false)
        }
        Node::Root(place, _) => match constant_for(spelling, at) {
            Some(name) => {
                constant(alloc, writer, *place, name)?;
                Ok(true)
            }
            None => {
                nothing(writer, *place)?;
                Ok(true)
            }
        },
        Node::Quotient(place, _, _) => match constant_for(spelling, at) {
            Some(name) => {
                constant(alloc, writer, *place, name)?;
                Ok(true)
            }
            None => {
                head(alloc, writer, *place, b"/")?;
                Ok(false)
            }
        },
        Node::Formless(place) => {
            nothing(writer, *place)?;
            Ok(true)
        }
    }
}

// Does what stood on top of the stack.
fn step(
    alloc: Global,
    spelling: &Spelling<'_, '_>,
    writer: &mut Writer,
    stack: &mut Vec<Work>,
    work: Work,
) -> Result<(), AllocError>
    requires spelling { IsSpelling spelling.now }
    requires works { AreWorks (length spelling.now.trees.now) (stack.old.items ++ (work ∷ [])) }
    requires can { CanSpell spelling.now writer.old (stack.old.items ++ (work ∷ [])) }
    requires few { tokens_in writer.old ≤ most_tokens }
    ensures works { OnOk result (AreWorks (length spelling.now.trees.now) stack.new.items) }
    ensures falls { OnOk result (weight (trees_in spelling.now.trees.now) stack.new.items <
        weight (trees_in spelling.now.trees.now) (stack.old.items ++ (work ∷ []))) }
    ensures spells { (table : Table) (end : List Unclosed × List sexp.Sexp) (tokens : ℕ) →
        AreNamed table spelling.now →
        Spells table (trees_in spelling.now.trees.now) writer.old
        (stack.old.items ++ (work ∷ [])) end tokens →
        OnOk result (Spells table (trees_in spelling.now.trees.now) writer.new
        stack.new.items end tokens) }
{
    match work {
        Work::Leave(_) => writer.close(),
        Work::Enter(at) => {
            if begin(alloc, spelling, writer, at)? {
                return Ok(());
            }
            stack.push(Work::Leave(at))?;
            push_parts(stack, spelling.trees.look(at))
        }
    }
}

/// Writes a tree as an expression, in which constants stand for the trees of a table.
///
/// # Errors
///
/// That there are more than `MOST_TOKENS` tokens with it, or out of memory.
pub(crate) fn spell(
    alloc: Global,
    spelling: &Spelling<'_, '_>,
    writer: &mut Writer,
    at: usize,
) -> Result<(), Stop>
    requires spelling { IsSpelling spelling.now }
    requires at { at < length spelling.now.trees.now }
    requires named { (table : Table) × AreNamed table spelling.now }
    requires writing { IsWriting writer.old }
    ensures written { (table : Table) → AreNamed table spelling.now →
        OnOk result (Writes writer.old writer.new
        (spelled table (tree_at (trees_in spelling.now.trees.now) at))) }
    ensures within { OnOk result (tokens_in writer.new ≤ most_tokens) }
    ensures stops { (table : Table) → AreNamed table spelling.now →
        IfErr result (λ stop. Stops stop (tokens_in writer.old +
        tokens_of (spelled table (tree_at (trees_in spelling.now.trees.now) at)))) }
{
    let mut stack = Vec::new(alloc);
    stack.push(Work::Enter(at))?;
    'works: loop {
        if writer.len() > MOST_TOKENS {
            return Err(Stop::TooLong);
        }
        match stack.pop() {
            Some(work) => step(alloc, spelling, writer, &mut stack, work)?,
            None => return Ok(()),
        }
    }
}
