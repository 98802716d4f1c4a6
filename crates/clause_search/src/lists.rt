// A list of clauses for each literal.
ghost use Rattle.std.specs.Prelude.{◌≡◌, ◌+◌, ◌*◌, ◌<◌, ◌^◌, ℕ, All, Contains, IfOk, OnOk, OnErr, vec_len, length, slice_index_or};
ghost use Rattle.clause_search.specs.Clauses.{IsVariableIn};
ghost use Rattle.clause_search.specs.Lists.{code_of, place_of, list_at, KeepsLists, IsListedFor};

use crate::table::bool_place;
use crate::{Literal, Variable};
use std::alloc::{AllocError, Global};

// The number of a variable among atoms, then Bool values, then helpers.
fn place_of(atoms: u32, axes: u32, variable: Variable) -> usize
    ensures { result ≡ place_of atoms axes variable }
{
    match variable {
        Variable::Atom(j) => j as usize,
        Variable::BoolIs(axis, v) => atoms as usize + bool_place(axis, v),
        Variable::Helper(k) => atoms as usize + 2 * axes as usize + k as usize,
    }
}

/// The number of a literal's list.
pub fn code_of(atoms: u32, axes: u32, literal: Literal) -> usize
    ensures { result ≡ code_of atoms axes literal }
{
    2 * place_of(atoms, axes, literal.variable) + usize::from(literal.positive)
}

/// As many empty lists.
pub fn empty_lists(alloc: Global, count: usize) -> Result<Vec<Vec<u32>>, AllocError>
    ensures { IfOk result (λ v. vec_len v ≡ count) }
{
    let mut lists = Vec::with_capacity(alloc, count)?;
    for _ in 0..count {
        lists.push(Vec::new(alloc))?;
    }
    Ok(lists)
}

// Adds a clause to list k.
fn add_to(lists: &mut Vec<Vec<u32>>, k: usize, clause: u32) -> Result<(), AllocError>
    requires { k < vec_len lists.old }
    ensures keeps { KeepsLists lists.old lists.new }
    ensures there { OnOk result (Contains (list_at lists.new k) clause) }
{
    let list = &mut lists[k];
    list.push(clause)?;
    Ok(())
}

/// Adds a clause to the list of each of its literals.
pub fn add_clause(
    lists: &mut Vec<Vec<u32>>,
    atoms: u32,
    axes: u32,
    literals: &[Literal],
    clause: u32,
) -> Result<(), AllocError>
    requires { All (λ l. code_of atoms axes l < vec_len lists.old) literals.now }
    ensures keeps { KeepsLists lists.old lists.new }
    ensures there { OnOk result (IsListedFor lists.new atoms axes literals.now clause) }
{
    for literal in literals {
        add_to(lists, code_of(atoms, axes, *literal), clause)?;
    }
    Ok(())
}

/// How long list k is.
pub fn list_len(lists: &Vec<Vec<u32>>, k: usize) -> usize
    ensures { result ≡ length (list_at lists.now k) }
{
    match lists.get(k) {
        Some(list) => list.len(),
        None => 0,
    }
}

/// The clause at this place of list k.
pub fn clause_at(lists: &Vec<Vec<u32>>, k: usize, at: usize) -> u32
    requires { at < length (list_at lists.now k) }
    ensures clause { slice_index_or (list_at lists.now k) at result ≡ result }
    ensures few { at + 1 < 2 ^ 64 }
{
    match lists.get(k) {
        Some(list) => list[at],
        None => 0,
    }
}
