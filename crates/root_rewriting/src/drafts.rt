// Assertions that are to be written.
ghost use Rattle.std.specs.Prelude.{◌≡◌, ◌++◌, ◌<◌, [], List, ℕ, IfOk, OnOk, length, map, slice_index_or};
ghost use Rattle.ival.specs.Views.{interval_of};
ghost use Rattle.root_rewriting.specs.Drafts.{AreDraftsBelow, draft_command, draft_of, drafts_between, drafts_of_range, drafts_of_root};
ghost use Rattle.root_rewriting.specs.Spelling.{fresh_name};
ghost use Rattle.root_rewriting.specs.Enclosures.{AreEnclosures};
ghost use Rattle.root_rewriting.specs.Table.{AreEntriesBelow, entry_of};
ghost use Rattle.root_rewriting.specs.Asserted.{AreAsserted};
ghost use Rattle.root_rewriting.specs.Nodes.{tree_at, trees_in};
ghost use Rattle.script_roots.specs.Fresh.{Asserted, Table};
ghost use Rattle.script_roots.specs.Ranges.{Ranges, root_bound};
ghost use Rattle.script_roots.specs.Rewritten.{assertion, claims_of, claims_of_all};

use crate::claims::Limit;
use crate::constants::Fresh;
use crate::range::{quotient_range, root_bound};
use crate::unfold::{AssertedTrees, Assertion, Node, Trees};
use ival::Ival;
use script_fault::Place;
use std::alloc::{AllocError, Global};

/// What is asserted, of a constant by its number or of trees by their places.
#[derive(Clone, Copy)]
pub(crate) enum Content {
    /// A tree.
    Tree(usize),
    /// That the constant is not below a limit.
    AtLeast(usize, Limit),
    /// That the constant is not above a limit.
    AtMost(usize, Limit),
    /// That the constant's square is a tree.
    Square(usize, usize),
    /// That the constant times the first tree is the second.
    Product(usize, usize, usize),
}

/// An assertion or a goal that is to be written, with its command's place.
#[derive(Clone, Copy)]
pub(crate) struct Draft {
    pub(crate) place: Place,
    pub(crate) is_goal: bool,
    pub(crate) content: Content,
}

// That a constant is at least 0 and at most a bound, and that its square is a tree.
fn root_drafts(place: Place, constant: usize, range: Ival, argument: usize) -> [Draft; 3]
    ensures { result ≡ drafts_of_root place constant (root_bound (interval_of range)) argument }
{
    [
        Draft {
            place,
            is_goal: false,
            content: Content::AtLeast(constant, Limit::Whole(Some(0))),
        },
        Draft {
            place,
            is_goal: false,
            content: Content::AtMost(constant, Limit::Whole(root_bound(range))),
        },
        Draft {
            place,
            is_goal: false,
            content: Content::Square(constant, argument),
        },
    ]
}

// That a constant is between two limits.
fn between(place: Place, constant: usize, low: Limit, high: Limit) -> [Draft; 2]
    ensures { result ≡ drafts_between place constant low high }
{
    [
        Draft {
            place,
            is_goal: false,
            content: Content::AtLeast(constant, low),
        },
        Draft {
            place,
            is_goal: false,
            content: Content::AtMost(constant, high),
        },
    ]
}

// That a constant is in an interval, or 0 where that is empty.
fn end_drafts(place: Place, constant: usize, range: Ival) -> [Draft; 2]
    ensures { result ≡ drafts_of_range place constant range }
{
    match range {
        Ival::Empty => {
            let nought = Limit::Whole(Some(0));
            between(place, constant, nought, nought)
        }
        Ival::Between(ends) => {
            between(
                place,
                constant,
                Limit::Low(ends.low),
                Limit::High(ends.high),
            )
        }
    }
}

// Adds what is asserted of a constant.
fn push_claims(
    drafts: &mut Vec<Draft>,
    trees: &Trees<'_>,
    ranges: &[Ival],
    constant: usize,
    tree: usize,
) -> Result<(), AllocError>
    requires all { length ranges.now ≡ length trees.now }
    requires tree { tree < length trees.now }
    ensures below { (n : ℕ) → constant < n → AreDraftsBelow (length trees.now) n drafts.old.items →
        OnOk result (AreDraftsBelow (length trees.now) n drafts.new.items) }
    ensures claims { (ranged : Ranges) (names : List (List ℕ)) (table : Table) →
        AreEnclosures ranged (trees_in trees.now) ranges.now → OnOk result
        (map (draft_command names table (trees_in trees.now)) drafts.new.items ≡
        map (draft_command names table (trees_in trees.now)) drafts.old.items ++
        claims_of ranged table (slice_index_or names constant [])
        (tree_at (trees_in trees.now) tree)) }
{
    match trees.look(tree) {
        Node::Root(place, argument) => {
            let range = ranges[*argument];
            drafts.extend_from_slice(&root_drafts(*place, constant, range, *argument))
        }
        Node::Quotient(place, dividend, divisor) => {
            let range = quotient_range(ranges[*dividend], ranges[*divisor]);
            drafts.extend_from_slice(&end_drafts(*place, constant, range))?;
            drafts.push(Draft {
                place: *place,
                is_goal: false,
                content: Content::Product(constant, *divisor, *dividend),
            })?;
            Ok(())
        }
        _ => Ok(()),
    }
}

// What is asserted of all constants.
fn claims(
    alloc: Global,
    trees: &Trees<'_>,
    ranges: &[Ival],
    table: &[Fresh],
) -> Result<Vec<Draft>, AllocError>
    requires all { length ranges.now ≡ length trees.now }
    requires table { AreEntriesBelow (length trees.now) table.now }
    ensures below { IfOk result (λ drafts.
        AreDraftsBelow (length trees.now) (length table.now) drafts.items) }
    ensures claims { (ranged : Ranges) (names : Table) →
        AreEnclosures ranged (trees_in trees.now) ranges.now → IfOk result (λ drafts.
        map (draft_command (map fresh_name table.now) names (trees_in trees.now)) drafts.items ≡
        claims_of_all ranged names (map (entry_of (trees_in trees.now)) table.now)) }
{
    let mut drafts = Vec::new(alloc);
    for constant in 0..table.len() {
        push_claims(&mut drafts, trees, ranges, constant, table[constant].tree)?;
    }
    Ok(drafts)
}

// An assertion as it is to be written.
fn assertion_draft(assertion: Assertion) -> Draft
    ensures { result ≡ draft_of assertion }
{
    Draft {
        place: assertion.place,
        is_goal: assertion.is_goal,
        content: Content::Tree(assertion.tree),
    }
}

/// All that is to be asserted: of the constants of a table, and then what the script asserts.
pub(crate) fn drafts(
    alloc: Global,
    asserted: &AssertedTrees<'_>,
    ranges: &[Ival],
    table: &[Fresh],
) -> Result<Vec<Draft>, AllocError>
    requires all { length ranges.now ≡ length asserted.now.trees }
    requires table { AreEntriesBelow (length asserted.now.trees) table.now }
    requires assertions { (claims : List Asserted) ×
        AreAsserted (trees_in asserted.now.trees) asserted.now.assertions.items claims }
    ensures below { IfOk result (λ drafts.
        AreDraftsBelow (length asserted.now.trees) (length table.now) drafts.items) }
    ensures drafts { (ranged : Ranges) (names : Table) (claims : List Asserted) →
        AreEnclosures ranged (trees_in asserted.now.trees) ranges.now →
        AreAsserted (trees_in asserted.now.trees) asserted.now.assertions.items claims →
        IfOk result (λ drafts.
        map (draft_command (map fresh_name table.now) names (trees_in asserted.now.trees))
        drafts.items ≡
        claims_of_all ranged names (map (entry_of (trees_in asserted.now.trees)) table.now) ++
        map (assertion names) claims) }
{
    let mut drafts = claims(alloc, &asserted.trees, ranges, table)?;
    for assertion in asserted.assertions.as_slice() {
        drafts.push(assertion_draft(*assertion))?;
    }
    Ok(drafts)
}
