// Where a script has what is left out: a root over an `ite`, or a root or a quotient in a goal.
ghost use Rattle.std.specs.Prelude.{◌≡◌, ◌<◌, List, IfOk, cond, length, map, slice_index_or};
ghost use Rattle.root_rewriting.specs.Places.{ArePlaces, first_in, place_at, seen_place};
ghost use Rattle.root_rewriting.specs.Asserted.{AreAsserted};
ghost use Rattle.root_rewriting.specs.Nodes.{AreBelow, tree_at, trees_in};
ghost use Rattle.script_roots.specs.Fresh.{Asserted, choice_in_root, fresh_place, left_out_of};

use crate::unfold::{AssertedTrees, Assertion, Node, Trees};
use script_fault::Place;
use std::alloc::{AllocError, Global};

// The first place of some parts.
fn first_of(places: &[Option<Place>], parts: &[usize]) -> Option<Place>
    requires { AreBelow (length places.now) parts.now }
    ensures { seen_place result ≡ first_in (map (place_at places.now) parts.now) }
{
    let mut rest = parts;
    while let [part, later @ ..] = rest {
        if let Some(place) = places[*part] {
            return Some(place);
        }
        rest = later;
    }
    None
}

// The place of the first root over an `ite` in a tree, by those of its parts.
fn choice_place(trees: &Trees<'_>, places: &[Option<Place>], at: usize) -> Option<Place>
    requires places { ArePlaces choice_in_root (trees_in trees.now) places.now }
    requires at { at ≡ length places.now }
    requires there { at < length trees.now }
    ensures { seen_place result ≡ choice_in_root (tree_at (trees_in trees.now) at) }
{
    match trees.look(at) {
        Node::Applied(_, _, parts) => first_of(places, parts),
        Node::Root(place, part) => match places[*part] {
            Some(inner) => Some(inner),
            None => {
                if trees.facts(*part).holds_choice {
                    Some(*place)
                } else {
                    None
                }
            }
        },
        Node::Quotient(_, dividend, divisor) => first_of(places, &[*dividend, *divisor]),
        _ => None,
    }
}

// The place of the first root or quotient in a tree, by those of its parts.
fn fresh_place(trees: &Trees<'_>, places: &[Option<Place>], at: usize) -> Option<Place>
    requires places { ArePlaces fresh_place (trees_in trees.now) places.now }
    requires at { at ≡ length places.now }
    requires there { at < length trees.now }
    ensures { seen_place result ≡ fresh_place (tree_at (trees_in trees.now) at) }
{
    match trees.look(at) {
        Node::Applied(_, _, parts) => first_of(places, parts),
        Node::Root(place, _) => Some(*place),
        Node::Quotient(place, _, _) => Some(*place),
        _ => None,
    }
}

// For each tree the place of the first root over an `ite`.
fn choice_places(alloc: Global, trees: &Trees<'_>) -> Result<Vec<Option<Place>>, AllocError>
    ensures places { IfOk result (λ places.
        ArePlaces choice_in_root (trees_in trees.now) places.items) }
    ensures all { IfOk result (λ places. length places.items ≡ length trees.now) }
{
    let mut places = Vec::new(alloc);
    while places.len() < trees.len() {
        let place = choice_place(trees, places.as_slice(), places.len());
        places.push(place)?;
    }
    Ok(places)
}

// For each tree the place of the first root or quotient.
fn fresh_places(alloc: Global, trees: &Trees<'_>) -> Result<Vec<Option<Place>>, AllocError>
    ensures places { IfOk result (λ places.
        ArePlaces fresh_place (trees_in trees.now) places.items) }
    ensures all { IfOk result (λ places. length places.items ≡ length trees.now) }
{
    let mut places = Vec::new(alloc);
    while places.len() < trees.len() {
        let place = fresh_place(trees, places.as_slice(), places.len());
        places.push(place)?;
    }
    Ok(places)
}

// The place in an assertion or a goal, by those of its tree.
fn place_in(
    choices: &[Option<Place>],
    fresh: &[Option<Place>],
    assertion: Assertion,
) -> Option<Place>
    requires choices { assertion.tree < length choices.now }
    requires fresh { assertion.tree < length fresh.now }
    ensures { result ≡
        slice_index_or (cond assertion.is_goal fresh.now choices.now) assertion.tree None }
{
    if assertion.is_goal {
        fresh[assertion.tree]
    } else {
        choices[assertion.tree]
    }
}

// The first place in assertions and goals, by those of their trees.
fn first_left_out(
    asserted: &AssertedTrees<'_>,
    choices: &[Option<Place>],
    fresh: &[Option<Place>],
) -> Option<Place>
    requires choices { ArePlaces choice_in_root (trees_in asserted.now.trees) choices.now }
    requires fresh { ArePlaces fresh_place (trees_in asserted.now.trees) fresh.now }
    requires all { length choices.now ≡ length asserted.now.trees }
    requires both { length fresh.now ≡ length asserted.now.trees }
    requires assertions { (claims : List Asserted) ×
        AreAsserted (trees_in asserted.now.trees) asserted.now.assertions.items claims }
    ensures { (claims : List Asserted) →
        AreAsserted (trees_in asserted.now.trees) asserted.now.assertions.items claims →
        seen_place result ≡ left_out_of claims }
{
    let mut rest = asserted.assertions.as_slice();
    while let [assertion, later @ ..] = rest {
        if let Some(place) = place_in(choices, fresh, *assertion) {
            return Some(place);
        }
        rest = later;
    }
    None
}

/// Where a script has a root of an `ite`, or a goal with a root or a quotient: the place of the first.
pub(crate) fn left_out(
    alloc: Global,
    asserted: &AssertedTrees<'_>,
) -> Result<Option<Place>, AllocError>
    requires { (claims : List Asserted) ×
        AreAsserted (trees_in asserted.now.trees) asserted.now.assertions.items claims }
    ensures { (claims : List Asserted) →
        AreAsserted (trees_in asserted.now.trees) asserted.now.assertions.items claims →
        IfOk result (λ place. seen_place place ≡ left_out_of claims) }
{
    let choices = choice_places(alloc, &asserted.trees)?;
    let fresh = fresh_places(alloc, &asserted.trees)?;
    Ok(first_left_out(asserted, choices.as_slice(), fresh.as_slice()))
}
