// The ranges of all trees of an arena.
ghost use Rattle.std.specs.Prelude.{◌≡◌, ◌<◌, length, map, IfOk};
ghost use Rattle.ival.specs.Views.{interval_of};
ghost use Rattle.root_rewriting.specs.Asserted.{AreAsserted};
ghost use Rattle.root_rewriting.specs.Nodes.{AreBelow, IsBelow, atom_of, trees_in};
ghost use Rattle.script_model.specs.Reading.{found, operators};
ghost use Rattle.script_roots.specs.Fresh as fresh;
ghost use Rattle.script_roots.specs.Ranges.{Ranges, leaf_range, operator_range, symbol_range};
ghost use Rattle.script_roots.specs.TreeBounds.{declared_ranges};
ghost use Rattle.smt_script.specs.Views.{commands_in};
ghost use Rattle.root_rewriting.specs.Enclosures.{AreEnclosures, KnowsRanges, interval_at, node_range};

use crate::range::literal::literal_range;
use crate::range::operators::operator_range;
use crate::range::quotients::quotient_range;
use crate::range::ranges::declared_ranges;
use crate::range::roots::root_range;
use crate::unfold::{AssertedTrees, Atom, Node, Trees};
use ival::Ival;
use script_fault::Name;
use smt_script::Script;
use sort_check::operator_named;
use std::alloc::{AllocError, Global};
use std::collections::HashMap;

// The range of a name alone.
fn symbol_range(name: &Name, ranges: &HashMap<&[u8], Ival>) -> Ival
    ensures { (R : Ranges) → KnowsRanges ranges.now R →
        interval_of result ≡ symbol_range (found name.now operators) (found name.now R) }
{
    if operator_named(name.as_slice()).is_some() {
        return Ival::everything();
    }
    match ranges.get(name.as_slice()).copied() {
        Some(range) => range,
        None => Ival::everything(),
    }
}

// The range of a tree without parts.
fn atom_range(atom: Atom<'_>, ranges: &HashMap<&[u8], Ival>) -> Result<Ival, AllocError>
    ensures { (R : Ranges) → KnowsRanges ranges.now R →
        IfOk result (λ i. interval_of i ≡ leaf_range R (atom_of atom.entry)) }
{
    match atom {
        Atom::Numeral(digits) => literal_range(digits.as_slice(), b"".as_slice()).ok_or(AllocError),
        Atom::Decimal(digits, decimals) => {
            literal_range(digits.as_slice(), decimals.as_slice()).ok_or(AllocError)
        }
        Atom::Symbol(name) => Ok(symbol_range(name, ranges)),
    }
}

// The range of a name at arguments.
fn applied_range(name: &Name, ranges: &[Ival]) -> Ival
    ensures { interval_of result ≡
        operator_range (found name.now operators) (map interval_of ranges.now) }
{
    match operator_named(name.as_slice()) {
        Some(operator) => operator_range(operator, ranges),
        None => Ival::everything(),
    }
}

// The ranges at these places.
fn ranges_at(alloc: Global, done: &[Ival], parts: &[usize]) -> Result<Vec<Ival>, AllocError>
    requires { AreBelow (length done.now) parts.now }
    ensures { IfOk result (λ is. map interval_of is.items ≡
        map (interval_at (map interval_of done.now)) parts.now) }
{
    let mut ranges = Vec::with_capacity(alloc, parts.len())?;
    for part in parts {
        ranges.push(done[*part])?;
    }
    Ok(ranges)
}

// The range of a node's tree, where its parts have these.
fn enclosure(
    alloc: Global,
    node: &Node<'_>,
    done: &[Ival],
    ranges: &HashMap<&[u8], Ival>,
) -> Result<Ival, AllocError>
    requires { IsBelow (length done.now) node.now }
    ensures { (R : Ranges) → KnowsRanges ranges.now R → IfOk result (λ i.
        interval_of i ≡ node_range R (map interval_of done.now) node.now) }
{
    match node {
        Node::Atomic(_, atom) => atom_range(*atom, ranges),
        Node::Applied(_, name, parts) => {
            let parts = ranges_at(alloc, done, parts.as_slice())?;
            Ok(applied_range(name, parts.as_slice()))
        }
        Node::Root(_, part) => Ok(root_range(done[*part])),
        Node::Quotient(_, dividend, divisor) => Ok(quotient_range(done[*dividend], done[*divisor])),
        Node::Formless(_) => Ok(Ival::everything()),
    }
}

// The ranges of trees, where constants lie in these.
fn enclosed(
    alloc: Global,
    trees: &Trees<'_>,
    ranges: &HashMap<&[u8], Ival>,
) -> Result<Vec<Ival>, AllocError>
    ensures { (R : Ranges) → KnowsRanges ranges.now R → IfOk result (λ is.
        AreEnclosures R (trees_in trees.now) is.items) }
{
    let mut done = Vec::with_capacity(alloc, trees.len())?;
    for k in 0..trees.len() {
        let range = enclosure(alloc, trees.look(k), done.as_slice(), ranges)?;
        done.push(range)?;
    }
    Ok(done)
}

/// For each tree an interval in which its value lies where the script's constants lie in their ranges, which come from
/// the assertions, and from minus `bound` to `bound` where these give no end.
///
/// # Errors
///
/// Out of memory. A literal beyond 10^36 is not kept, and is answered in the same way.
pub fn enclosures<'a>(
    alloc: Global,
    script: &Script<'a>,
    asserted: &AssertedTrees<'a>,
    bound: Option<u32>,
) -> Result<Vec<Ival>, AllocError>
    requires { AreAsserted (trees_in asserted.now.trees) asserted.now.assertions.items
        (fresh.asserted (commands_in script.now)) }
    ensures { IfOk result (λ is. AreEnclosures
        (declared_ranges bound (commands_in script.now)) (trees_in asserted.now.trees) is.items) }
{
    let ranges = declared_ranges(alloc, script, asserted, bound)?;
    enclosed(alloc, &asserted.trees, &ranges)
}
