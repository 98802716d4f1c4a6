// Nodes, forms and atoms of which equal ones are one, marks, parents, and copies.
ghost use Rattle.poly_graph.specs.Parents.{AreParents};

use crate::bench::{Term, graph_of, node_of};
use poly_graph::*;
use sample_problems::smallest;
use std::alloc::{AllocError, Global};

// ---- nodes

// Nodes that are added in this order, and their numbers; none where one names another that is not there.
const NODES: [(Term, Option<u32>); 6] = [
    (Term::Var(0), Some(0)),
    (Term::Sq(0), Some(1)),
    (Term::Add(1, 0), Some(2)),
    (Term::Sq(0), Some(1)),
    (Term::Add(0, 1), Some(3)),
    (Term::Neg(4), None),
];

fn node_number(table: &mut NodeTable, node: Node) -> Option<u32> {
    if !is_after(node, table.len() as u32) {
        return None;
    }
    table.intern(node).ok()
}

// Whether the nodes get their numbers, which are four.
fn are_numbered(table: &mut NodeTable) -> bool {
    for (term, number) in &NODES {
        if node_number(table, node_of(*term)) != *number {
            return false;
        }
    }
    table.len() == 4
}

#[test]
fn equal_nodes_are_one(rt: HostRuntime) {
    let mut table = NodeTable::new(rt.alloc());
    assert!(rt; are_numbered(&mut table) && is_parent(Node::Add(1, 0), 1));
}

// Whether the last two of four nodes are taken back, and one of them gets the next number.
fn are_taken_back(table: &mut NodeTable) -> bool {
    table.truncate(2);
    table.len() == 2 && node_number(table, Node::Add(0, 1)) == Some(2)
}

// Whether a graph of the table's nodes has as many.
fn is_joined(alloc: Global, table: &NodeTable) -> bool {
    match Graph::joined(alloc, &Graph::new(alloc), 0, table.nodes()) {
        Ok(graph) => graph.len() == table.len(),
        Err(_) => false,
    }
}

#[test]
fn nodes_are_taken_back(rt: HostRuntime) {
    let mut table = NodeTable::new(rt.alloc());
    assert!(rt; are_numbered(&mut table) && are_taken_back(&mut table));
    assert!(rt; is_joined(rt.alloc(), &table));
}

// ---- forms

// A node of a form; one with children has their numbers.
enum Form {
    Atom(u32),
    Bool(u32, bool),
    All(&'static [u32]),
    Any(&'static [u32]),
}

const FORMS: [(Form, Option<u32>); 6] = [
    (Form::Atom(3), Some(0)),
    (Form::Bool(1, false), Some(1)),
    (Form::All(&[0, 1]), Some(2)),
    (Form::Any(&[0, 1]), Some(3)),
    (Form::All(&[0, 1]), Some(2)),
    (Form::All(&[4]), None),
];

fn form_node(alloc: Global, form: &Form) -> Result<FormNode, AllocError> {
    match form {
        Form::Atom(j) => Ok(FormNode::AtomIs(*j)),
        Form::Bool(axis, value) => Ok(FormNode::BoolIs(*axis, *value)),
        Form::All(children) => Ok(FormNode::And(Vec::from_slice(alloc, children)?)),
        Form::Any(children) => Ok(FormNode::Or(Vec::from_slice(alloc, children)?)),
    }
}

fn form_number(forms: &mut FormTable, node: FormNode) -> Option<u32> {
    if !is_form_after(&node, forms.len() as u32) {
        return None;
    }
    forms.intern(node).ok()
}

// Whether the form gets this number.
fn is_form_numbered(
    alloc: Global,
    forms: &mut FormTable,
    form: &Form,
    number: Option<u32>,
) -> bool {
    match form_node(alloc, form) {
        Ok(node) => form_number(forms, node) == number,
        Err(_) => false,
    }
}

// Whether the forms get their numbers, which are four.
fn are_forms_numbered(alloc: Global, forms: &mut FormTable) -> bool {
    for (form, number) in &FORMS {
        if !is_form_numbered(alloc, forms, form, *number) {
            return false;
        }
    }
    forms.len() == 4
}

// Whether the last three of four forms are taken back, and one of them gets the next number.
fn are_forms_taken_back(forms: &mut FormTable) -> bool {
    forms.truncate(1);
    forms.len() == 1 && form_number(forms, FormNode::BoolIs(1, false)) == Some(1)
}

// Whether a form of the table's nodes has as many.
fn is_form_joined(alloc: Global, forms: &FormTable) -> bool {
    match FormGraph::joined(alloc, &FormGraph::new(alloc), 0, forms.nodes()) {
        Ok(form) => form.len() == forms.len(),
        Err(_) => false,
    }
}

#[test]
fn equal_forms_are_one(rt: HostRuntime) {
    let mut forms = FormTable::new(rt.alloc());
    assert!(rt; are_forms_numbered(rt.alloc(), &mut forms) && are_forms_taken_back(&mut forms));
    assert!(rt; is_form_joined(rt.alloc(), &forms));
}

// ---- marks

fn is_marked(lits: &Lits) -> bool {
    lits.len() == 2 && lits.mark(0) == Mark::Neither && lits.mark(1) == Mark::Yes
}

// Whether the second of two atoms is marked, in a copy too.
fn are_kept(alloc: Global) -> Option<bool> {
    let mut lits = Lits::new(alloc, 2).ok()?;
    lits.set(1, Mark::Yes);
    let copy = lits.try_clone(alloc).ok()?;
    Some(is_marked(&lits) && is_marked(&copy))
}

#[test]
fn marks_are_kept(rt: HostRuntime) {
    assert_eq!(rt; are_kept(rt.alloc()), Some(true));
}

// ---- atoms

const ATOMS: [(u32, Kind, u32); 3] = [(2, Kind::Le, 0), (2, Kind::Ge, 1), (2, Kind::Le, 0)];

// Whether the atoms get their numbers, which are two.
fn are_atoms_numbered(table: &mut AtomTable) -> bool {
    for (term, kind, number) in &ATOMS {
        let atom = Atom {
            term: *term,
            kind: *kind,
        };
        if table.intern(atom) != Ok(*number) {
            return false;
        }
    }
    table.atoms().len() == 2
}

// Whether the second atom is taken back, and another gets its number.
fn is_atom_taken_back(table: &mut AtomTable) -> bool {
    let atom = Atom {
        term: 5,
        kind: Kind::Eq,
    };
    table.truncate(1);
    table.intern(atom) == Ok(1)
}

#[test]
fn equal_atoms_are_one(rt: HostRuntime) {
    let mut table = AtomTable::new(rt.alloc());
    assert!(rt; are_atoms_numbered(&mut table) && is_atom_taken_back(&mut table));
}

// ---- parents

// Whether the nodes of the graph have these parents, and equal terms are told.
fn are_parents(graph: &Graph, parents: &Parents) -> bool
    requires { AreParents graph.now parents.now }
{
    if graph.len() != 3 {
        return false;
    }
    graph.same_term(1, 1)
        && !graph.same_term(1, 2)
        && parents.of(0) == [1, 2].as_slice()
        && parents.of(1) == [2].as_slice()
        && parents.of(2).is_empty()
}

// Whether the parents in a copy of a graph of three nodes are listed.
fn are_listed(alloc: Global) -> Option<bool> {
    let terms = [Term::Var(0), Term::Sq(0), Term::Add(1, 0)];
    let graph = graph_of(alloc, &terms)?;
    let copy = graph.try_clone(alloc).ok()?;
    let parents = Parents::new(alloc, &copy).ok()?;
    Some(are_parents(&copy, &parents))
}

#[test]
fn parents_are_listed(rt: HostRuntime) {
    assert_eq!(rt; are_listed(rt.alloc()), Some(true));
}

// ---- problems

// Whether a copy of the smallest problem is one.
fn is_copied(problem: &Problem, copy: &Problem) -> bool {
    copy.axes().is_empty()
        && copy.atoms().is_empty()
        && copy.graph().len() == 0
        && copy.forms().len() == 1
        && copy.root() == problem.root()
}

fn is_smallest(alloc: Global) -> Option<bool> {
    let problem = smallest(alloc).ok()?;
    let copy = problem.try_clone(alloc).ok()?;
    Some(is_copied(&problem, &copy))
}

#[test]
fn a_problem_is_read_and_cloned(rt: HostRuntime) {
    assert_eq!(rt; is_smallest(rt.alloc()), Some(true));
}
