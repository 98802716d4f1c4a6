// What an operator makes of the trees of its arguments.
ghost use Rattle.std.specs.Prelude.{◌≡◌, ◌<◌, length};
ghost use Rattle.script_model.specs.Meaning.{from_left};
ghost use Rattle.script_roots.specs.Tree as model;
ghost use Rattle.smt_sexp.specs.Views.{place_of};
ghost use Rattle.sort_check.specs.Views.{operator_of};
ghost use Rattle.root_rewriting.specs.Nodes.{AreBelow, parts_at, tree_at, trees_in};
ghost use Rattle.root_rewriting.specs.Walking.{Makes};

use crate::unfold::trees::Trees;
use script_fault::{Name, Place};
use sort_check::Operator;
use std::alloc::{AllocError, Global};

// A quotient of two.
fn divide_two<'a>(
    alloc: Global,
    trees: &mut Trees<'a>,
    place: Place,
    name: &'a Name,
    dividend: usize,
    divisor: usize,
) -> Result<usize, AllocError>
    requires dividend { dividend < length trees.old }
    requires divisor { divisor < length trees.old }
    ensures { Makes (trees_in trees.old) (trees_in trees.new)
        (model.divide_two (place_of place) name.now
        (tree_at (trees_in trees.old) dividend) (tree_at (trees_in trees.old) divisor)) result }
{
    if trees.facts(divisor).is_number {
        let parts = Vec::from_slice(alloc, &[dividend, divisor])?;
        trees.applied(place, name, parts)
    } else {
        trees.quotient(place, dividend, divisor)
    }
}

// A quotient by these divisors, from left to right.
fn divide_by_all<'a>(
    alloc: Global,
    trees: &mut Trees<'a>,
    place: Place,
    name: &'a Name,
    dividend: usize,
    divisors: &[usize],
) -> Result<usize, AllocError>
    requires dividend { dividend < length trees.old }
    requires divisors { AreBelow (length trees.old) divisors.now }
    ensures { Makes (trees_in trees.old) (trees_in trees.new)
        (from_left (model.divide_two (place_of place) name.now)
        (tree_at (trees_in trees.old) dividend)
        (parts_at (trees_in trees.old) divisors.now)) result }
{
    let mut made = dividend;
    let mut rest = divisors;
    while let [divisor, later @ ..] = rest {
        made = divide_two(alloc, trees, place, name, made, *divisor)?;
        rest = later;
    }
    Ok(made)
}

// A quotient.
fn divided<'a>(
    alloc: Global,
    trees: &mut Trees<'a>,
    place: Place,
    name: &'a Name,
    parts: Vec<usize>,
) -> Result<usize, AllocError>
    requires { AreBelow (length trees.old) parts.items }
    ensures { Makes (trees_in trees.old) (trees_in trees.new)
        (model.divided (place_of place) name.now
        (parts_at (trees_in trees.old) parts.items)) result }
{
    match parts.as_slice() {
        [] => trees.formless(place),
        [dividend, divisors @ ..] => {
            if trees.are_numbers(divisors) {
                trees.applied(place, name, parts)
            } else {
                divide_by_all(alloc, trees, place, name, *dividend, divisors)
            }
        }
    }
}

/// An operator of this name at its arguments.
pub(crate) fn operate<'a>(
    alloc: Global,
    trees: &mut Trees<'a>,
    place: Place,
    name: &'a Name,
    operator: Operator,
    parts: Vec<usize>,
) -> Result<usize, AllocError>
    requires { AreBelow (length trees.old) parts.items }
    ensures { Makes (trees_in trees.old) (trees_in trees.new)
        (model.operator_tree (place_of place) name.now (operator_of operator)
        (parts_at (trees_in trees.old) parts.items)) result }
{
    match operator {
        Operator::Divide => divided(alloc, trees, place, name, parts),
        _ => trees.applied(place, name, parts),
    }
}
