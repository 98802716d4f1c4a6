// From the shared form to clauses (Tseitin 1968).
ghost use Rattle.std.specs.Prelude.{◌≡◌, ◌<◌, ℕ, [], ◌∷◌, ◌++◌, length, map, true, false, IfOk, OnOk, IsTrue, EachIndex, slice_index, slice_get, Some};
ghost use Rattle.poly_graph.specs.FormGraph.{forms_in_order};
ghost use Rattle.poly_graph.specs.FormViews.{form_node_of};
ghost use Rattle.poly_graph.specs.ProblemViews.{axis_of};
ghost use Rattle.clause_search.specs.Clauses.{IsFormOf};
ghost use Rattle.clause_search.specs.Encoding.{is_bool_axis, variable_at, literal, literals_at, pairs_at, clauses_at};

use crate::clause_list::ClauseList;
use crate::cnf::Cnf;
use crate::literal::{Literal, Variable};
use poly_graph::{Axis, Declared, FormNode, Problem};
use std::alloc::{AllocError, Global};

// Whether this is a Bool axis.
fn is_bool_axis(axes: &[Axis], axis: u32) -> bool
    ensures { result ≡ is_bool_axis (map axis_of axes.now) axis }
{
    match axes.get(axis as usize) {
        Some(a) => matches!(a.declared, Declared::Bool),
        None => false,
    }
}

/// The variable of node k: what it names, if the problem has that, or the node's helper.
pub fn variable_at(problem: &Problem, k: u32) -> Variable
    requires { k < length problem.now.forms }
    ensures { result ≡ variable_at problem.now k }
{
    match problem.forms().node(k) {
        FormNode::AtomIs(j) if (*j as usize) < problem.atoms().len() => Variable::Atom(*j),
        FormNode::BoolIs(axis, v) if is_bool_axis(problem.axes(), *axis) => {
            Variable::BoolIs(*axis, *v)
        }
        _ => Variable::Helper(k),
    }
}

// The literal of helper k.
fn helper(k: u32, positive: bool) -> Literal
    ensures { result ≡ literal (Variable.Helper k) positive }
{
    Literal {
        variable: Variable::Helper(k),
        positive,
    }
}

// Adds the clause of this literal alone.
fn add_unit(alloc: Global, made: &mut ClauseList, only: Literal) -> Result<(), AllocError>
    ensures { OnOk result (made.new ≡ made.old ++ ((only ∷ []) ∷ [])) }
{
    let mut clause = Vec::new(alloc);
    clause.push(only)?;
    made.add(clause)
}

// Adds for each child a clause of its literal beside the first one.
fn add_pairs(
    alloc: Global,
    problem: &Problem,
    made: &mut ClauseList,
    first: Literal,
    positive: bool,
    children: &[u32],
) -> Result<(), AllocError>
    requires { EachIndex children.now (λ i. slice_index children.now i < length problem.now.forms) }
    ensures { OnOk result
        (made.new ≡ made.old ++ pairs_at problem.now first positive children.now) }
{
    for child in children {
        let mut clause = Vec::new(alloc);
        clause.push(first)?;
        clause.push(Literal {
            variable: variable_at(problem, *child),
            positive,
        })?;
        made.add(clause)?;
    }
    Ok(())
}

// Adds one clause of all children's literals beside the first one.
fn add_all(
    alloc: Global,
    problem: &Problem,
    made: &mut ClauseList,
    first: Literal,
    positive: bool,
    children: &[u32],
) -> Result<(), AllocError>
    requires { EachIndex children.now (λ i. slice_index children.now i < length problem.now.forms) }
    ensures { OnOk result (made.new ≡ made.old ++
        ((first ∷ literals_at problem.now positive children.now) ∷ [])) }
{
    let mut clause = Vec::new(alloc);
    clause.push(first)?;
    for child in children {
        clause.push(Literal {
            variable: variable_at(problem, *child),
            positive,
        })?;
    }
    made.add(clause)
}

// Adds the clauses by which helper k is true exactly where node k is.
fn add_node(
    alloc: Global,
    problem: &Problem,
    made: &mut ClauseList,
    k: u32,
) -> Result<(), AllocError>
    requires node { k < length problem.now.forms }
    requires ordered { IsTrue (forms_in_order 0 problem.now.forms) }
    ensures { OnOk result (made.new ≡ made.old ++ clauses_at problem.now k) }
{
    match problem.forms().node(k) {
        FormNode::True => add_unit(alloc, made, helper(k, true)),
        FormNode::False => add_unit(alloc, made, helper(k, false)),
        FormNode::AtomIs(_) | FormNode::BoolIs(_, _) => Ok(()),
        FormNode::And(children) => {
            add_pairs(alloc, problem, made, helper(k, false), true, children)?;
            add_all(alloc, problem, made, helper(k, true), false, children)
        }
        FormNode::Or(children) => {
            add_pairs(alloc, problem, made, helper(k, true), false, children)?;
            add_all(alloc, problem, made, helper(k, false), true, children)
        }
    }
}

// The count as a `u32`; a greater one counts as out of memory.
fn narrow(count: usize) -> Result<u32, AllocError>
    ensures { IfOk result (λ n. n ≡ count) }
{
    match u32::try_from(count) {
        Ok(n) => Ok(n),
        Err(_) => Err(AllocError),
    }
}

/// The form of the problem as clauses: it is true under an assignment of atoms and Bool values exactly
/// where some values of the helpers make each clause true. There are at most two clauses and three
/// literals for each node and each place of a child, and one clause more.
///
/// # Errors
///
/// Memory ran out, as it does where there are more atoms or axes than a `u32` counts; nothing is kept then.
pub fn clauses(alloc: Global, problem: &Problem) -> Result<Cnf, AllocError>
    ensures { IfOk result (λ cnf. IsFormOf problem.now cnf) }
{
    let atoms = narrow(problem.atoms().len())?;
    let axes = narrow(problem.axes().len())?;
    let count = problem.forms().len() as u32;
    let mut made = ClauseList::new(alloc);
    for k in 0..count {
        add_node(alloc, problem, &mut made, k)?;
    }
    let root = problem.root();
    let only = Literal {
        variable: variable_at(problem, root),
        positive: true,
    };
    add_unit(alloc, &mut made, only)?;
    Ok(Cnf::new(made, atoms, axes, count))
}
