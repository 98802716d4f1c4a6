// The constants that stand for roots and quotients.
ghost use Rattle.std.specs.Prelude.{◌≡◌, ◌<◌, ◌+◌, ◌^◌, ◌&&◌, ◌∷◌, [], List, IfOk, length, map, not};
ghost use Rattle.root_rewriting.specs.Classes.{AreClasses};
ghost use Rattle.root_rewriting.specs.Found.{AreOwn, IsSource, is_own};
ghost use Rattle.root_rewriting.specs.Enclosures.{AreEnclosures};
ghost use Rattle.root_rewriting.specs.Table.{AreEntriesBelow, entry_of};
ghost use Rattle.root_rewriting.specs.Asserted.{AreAsserted};
ghost use Rattle.root_rewriting.specs.Nodes.{AreBelow, parts_at, tree_at, trees_in};
ghost use Rattle.script_roots.specs.Fresh.{Asserted, fresh_of, named_from, once, stands_alone, table_of};
ghost use Rattle.script_roots.specs.Ranges.{Ranges};
ghost use Rattle.script_roots.specs.Tree.{Tree};

use crate::found::{Found, Source};
use crate::range::avoids_nought;
use crate::unfold::{AssertedTrees, Assertion, Facts, Node, Trees};
use crate::walk::walk;
use ival::Ival;
use std::alloc::{AllocError, Global};

/// For what a constant stands.
#[derive(Clone, Copy, Debug, PartialEq, Eq)]
pub(crate) enum Kind {
    Root,
    Quotient,
}

/// A constant that stands for a tree: the tree's place in the arena, and its number among those of its kind.
#[derive(Clone, Copy, Debug)]
pub(crate) struct Fresh {
    pub(crate) tree: usize,
    pub(crate) kind: Kind,
    pub(crate) number: usize,
}

// How many constants stand for roots, and how many for quotients.
#[derive(Clone, Copy)]
struct Counts {
    roots: usize,
    quotients: usize,
}

// Whether dividend and divisor allow that a constant stands for their quotient, but for the divisor's values.
fn can_stand(dividend: Facts, divisor: Facts) -> bool
    ensures { result ≡ (not divisor.is_number && not dividend.holds_choice &&
        not divisor.holds_choice && not divisor.holds_root) }
{
    !divisor.is_number && !dividend.holds_choice && !divisor.holds_choice && !divisor.holds_root
}

// Whether a constant can stand for a quotient.
fn stands_alone(trees: &Trees<'_>, ranges: &[Ival], dividend: usize, divisor: usize) -> bool
    requires all { length ranges.now ≡ length trees.now }
    requires dividend { dividend < length trees.now }
    requires divisor { divisor < length trees.now }
    ensures { (names : Ranges) → AreEnclosures names (trees_in trees.now) ranges.now →
        result ≡ stands_alone names (tree_at (trees_in trees.now) dividend)
        (tree_at (trees_in trees.now) divisor) }
{
    let over = trees.facts(dividend);
    let under = trees.facts(divisor);
    can_stand(over, under) && avoids_nought(ranges[divisor])
}

// Whether a constant is to stand for a tree.
fn is_own(trees: &Trees<'_>, ranges: &[Ival], at: usize) -> bool
    requires all { length ranges.now ≡ length trees.now }
    requires at { at < length trees.now }
    ensures { (names : Ranges) → AreEnclosures names (trees_in trees.now) ranges.now →
        result ≡ is_own names (tree_at (trees_in trees.now) at) }
{
    match trees.look(at) {
        Node::Root(_, _) => true,
        Node::Quotient(_, dividend, divisor) => stands_alone(trees, ranges, *dividend, *divisor),
        _ => false,
    }
}

// For which trees constants are to stand.
fn own(alloc: Global, trees: &Trees<'_>, ranges: &[Ival]) -> Result<Vec<bool>, AllocError>
    requires { length ranges.now ≡ length trees.now }
    ensures all { IfOk result (λ own. length own.items ≡ length trees.now) }
    ensures own { (names : Ranges) → AreEnclosures names (trees_in trees.now) ranges.now →
        IfOk result (λ own. AreOwn names (trees_in trees.now) own.items) }
{
    let mut own = Vec::new(alloc);
    while own.len() < trees.len() {
        let at = own.len();
        own.push(is_own(trees, ranges, at))?;
    }
    Ok(own)
}

// The places of the roots and quotients of assertions, each once.
fn order(
    alloc: Global,
    source: &Source<'_, '_>,
    assertions: &[Assertion],
) -> Result<Vec<usize>, AllocError>
    requires source { IsSource source.now }
    requires assertions { (claims : List Asserted) ×
        AreAsserted (trees_in source.now.trees.now) assertions.now claims }
    ensures below { IfOk result (λ order. AreBelow (length source.now.trees.now) order.items) }
    ensures once { (names : Ranges) (claims : List Asserted) →
        AreOwn names (trees_in source.now.trees.now) source.now.own.now →
        AreAsserted (trees_in source.now.trees.now) assertions.now claims →
        IfOk result (λ order. parts_at (trees_in source.now.trees.now) order.items ≡
        once [] (fresh_of names claims)) }
{
    let mut found = Found::new(alloc, source)?;
    let mut rest = assertions;
    while let [assertion, later @ ..] = rest {
        walk(alloc, source, &mut found, assertion.tree)?;
        rest = later;
    }
    Ok(found.order)
}

impl Counts {
    // The next constant.
    fn next(&mut self, trees: &Trees<'_>, at: usize) -> Fresh
        requires at { at < length trees.now }
        requires few { self.old.roots + self.old.quotients + 1 < 2 ^ 64 }
        ensures named { (rest : List Tree) →
            named_from self.old.roots self.old.quotients
            (tree_at (trees_in trees.now) at ∷ rest) ≡
            entry_of (trees_in trees.now) result ∷
            named_from self.new.roots self.new.quotients rest }
        ensures count { self.new.roots + self.new.quotients ≡
            self.old.roots + self.old.quotients + 1 }
        ensures at { result.tree ≡ at }
    {
        match trees.look(at) {
            Node::Root(_, _) => {
                let number = self.roots;
                self.roots += 1;
                Fresh {
                    tree: at,
                    kind: Kind::Root,
                    number,
                }
            }
            _ => {
                let number = self.quotients;
                self.quotients += 1;
                Fresh {
                    tree: at,
                    kind: Kind::Quotient,
                    number,
                }
            }
        }
    }
}

// The constants that stand for trees in order.
fn named(alloc: Global, trees: &Trees<'_>, order: &[usize]) -> Result<Vec<Fresh>, AllocError>
    requires { AreBelow (length trees.now) order.now }
    ensures named { IfOk result (λ table. map (entry_of (trees_in trees.now)) table.items ≡
        named_from 0 0 (parts_at (trees_in trees.now) order.now)) }
    ensures below { IfOk result (λ table. AreEntriesBelow (length trees.now) table.items) }
{
    let mut table = Vec::with_capacity(alloc, order.len())?;
    let mut counts = Counts {
        roots: 0,
        quotients: 0,
    };
    for at in order {
        table.push(counts.next(trees, *at))?;
    }
    Ok(table)
}

/// The constants that stand for the roots and quotients of assertions, each once up to the places in it, in the order in
/// which they stand, inner ones first; `ranges` are the enclosures of the trees. It fails for want of memory alone.
pub(crate) fn table(
    alloc: Global,
    asserted: &AssertedTrees<'_>,
    classes: &[usize],
    ranges: &[Ival],
) -> Result<Vec<Fresh>, AllocError>
    requires classes { AreClasses (trees_in asserted.now.trees) classes.now }
    requires whole { length classes.now ≡ length asserted.now.trees }
    requires all { length ranges.now ≡ length asserted.now.trees }
    requires assertions { (claims : List Asserted) ×
        AreAsserted (trees_in asserted.now.trees) asserted.now.assertions.items claims }
    ensures below { IfOk result (λ table.
        AreEntriesBelow (length asserted.now.trees) table.items) }
    ensures table { (names : Ranges) (claims : List Asserted) →
        AreEnclosures names (trees_in asserted.now.trees) ranges.now →
        AreAsserted (trees_in asserted.now.trees) asserted.now.assertions.items claims →
        IfOk result (λ table. map (entry_of (trees_in asserted.now.trees)) table.items ≡
        table_of names claims) }
{
    let trees = &asserted.trees;
    let own = own(alloc, trees, ranges)?;
    let source = Source {
        trees,
        classes,
        own: own.as_slice(),
    };
    let order = order(alloc, &source, asserted.assertions.as_slice())?;
    named(alloc, trees, order.as_slice())
}
