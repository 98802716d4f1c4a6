// Which trees of an arena are the same.
ghost use Rattle.std.specs.Prelude.{◌≡◌, ◌<◌, IfOk, length};
ghost use Rattle.root_rewriting.specs.Classes.{AreClasses};
ghost use Rattle.root_rewriting.specs.Keys.{AreKeyed, Classed, IsNextClass, atom_key, classes_at, key_view, node_key};
ghost use Rattle.root_rewriting.specs.Nodes.{AreBelow, IsBelow, trees_in};

use crate::unfold::{Atom, Node, Trees};
use std::alloc::{AllocError, Global};
use std::collections::HashMap;

/// What trees that are the same have in common: their own digits or name, and the classes of their parts.
#[derive(PartialEq, Eq, Hash, Drop)]
pub(crate) enum Key<'t> {
    Numeral(&'t [u8]),
    Decimal(&'t [u8], &'t [u8]),
    Symbol(&'t [u8]),
    Applied(&'t [u8], Vec<usize>),
    Root(usize),
    Quotient(usize, usize),
    Formless,
}

// The classes of parts.
fn part_classes(alloc: Global, classes: &[usize], parts: &[usize]) -> Result<Vec<usize>, AllocError>
    requires { AreBelow (length classes.now) parts.now }
    ensures { IfOk result (λ cs. cs.items ≡ classes_at classes.now parts.now) }
{
    let mut found = Vec::with_capacity(alloc, parts.len())?;
    for part in parts {
        found.push(classes[*part])?;
    }
    Ok(found)
}

// The key of a tree without parts.
fn atom_key<'a>(atom: Atom<'a>) -> Key<'a>
    ensures { key_view result ≡ atom_key atom.entry }
{
    match atom {
        Atom::Numeral(digits) => Key::Numeral(digits.as_slice()),
        Atom::Decimal(digits, decimals) => Key::Decimal(digits.as_slice(), decimals.as_slice()),
        Atom::Symbol(name) => Key::Symbol(name.as_slice()),
    }
}

// The key of a tree, by the classes of its parts.
fn key_of<'a>(alloc: Global, classes: &[usize], node: &Node<'a>) -> Result<Key<'a>, AllocError>
    requires { IsBelow (length classes.now) node.now }
    ensures { IfOk result (λ key. key_view key ≡ node_key classes.now node.now) }
{
    match node {
        Node::Atomic(_, atom) => Ok(atom_key(*atom)),
        Node::Applied(_, name, parts) => {
            let parts = part_classes(alloc, classes, parts.as_slice())?;
            Ok(Key::Applied(name.as_slice(), parts))
        }
        Node::Root(_, part) => Ok(Key::Root(classes[*part])),
        Node::Quotient(_, dividend, divisor) => {
            Ok(Key::Quotient(classes[*dividend], classes[*divisor]))
        }
        Node::Formless(_) => Ok(Key::Formless),
    }
}

// The class of a key, which is this new one where it has none.
fn class_of<'a>(
    classes: &mut HashMap<Key<'a>, usize>,
    key: Key<'a>,
    new: usize,
) -> Result<usize, AllocError>
    ensures { IfOk result (Classed classes.old classes.new key.entry new) }
{
    if let Some(class) = classes.get(&key) {
        return Ok(*class);
    }
    classes.insert(key, new)?;
    Ok(new)
}

// The class of the next tree.
fn next_class<'a>(
    alloc: Global,
    trees: &Trees<'a>,
    classes: &[usize],
    of_keys: &mut HashMap<Key<'a>, usize>,
) -> Result<usize, AllocError>
    requires classes { AreClasses (trees_in trees.now) classes.now }
    requires keyed { AreKeyed (trees_in trees.now) classes.now of_keys.old }
    requires some { length classes.now < length trees.now }
    ensures { IfOk result (IsNextClass (trees_in trees.now) classes.now of_keys.new) }
{
    let at = classes.len();
    let key = key_of(alloc, classes, trees.look(at))?;
    class_of(of_keys, key, at)
}

/// For each tree the number of its class: equal for trees that are the same.
pub(crate) fn classes(alloc: Global, trees: &Trees<'_>) -> Result<Vec<usize>, AllocError>
    ensures classes { IfOk result (λ cs. AreClasses (trees_in trees.now) cs.items) }
    ensures all { IfOk result (λ cs. length cs.items ≡ length trees.now) }
{
    let mut classes = Vec::with_capacity(alloc, trees.len())?;
    let mut of_keys = HashMap::new(alloc);
    while classes.len() < trees.len() {
        let class = next_class(alloc, trees, classes.as_slice(), &mut of_keys)?;
        classes.push(class)?;
    }
    Ok(classes)
}
