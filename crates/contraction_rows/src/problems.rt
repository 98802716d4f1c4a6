// Problems of five atoms and two Bool axes.
ghost use Rattle.std.specs.Prelude.{◌≡◌, map, IfSome, IfOk, OnOk, IsTrue};
ghost use Rattle.dyadic.specs.Views.{fraction_of_frac};
ghost use Rattle.poly_graph.specs.FormViews.{form_node_of};
ghost use Rattle.poly_graph.specs.ProblemViews.{axis_of};
ghost use Rattle.poly_graph.specs.Views.{atom_of};
ghost use Rattle.contraction_rows.specs.TriedCnfBuild.{nought, tried_nodes, tried_atoms, tried_axes, is_known, are_known};

use clause_search::{Cnf, clauses};
use dyadic::Frac;
use poly_graph::{
    Atom, Axis, Declared, FormNode, FormTable, Graph, Kind, Node, NodeTable, Problem, is_form_after,
};
use std::alloc::{AllocError, Global};
use std::test::Fail;

fn axes(alloc: Global) -> Result<Vec<Axis>, AllocError>
    ensures { IfOk result (λ v. map axis_of v.items ≡ tried_axes) }
{
    let mut axes = Vec::new(alloc);
    axes.push(Axis {
        name: Vec::new(alloc),
        declared: Declared::Bool,
    })?;
    axes.push(Axis {
        name: Vec::new(alloc),
        declared: Declared::Bool,
    })?;
    Ok(axes)
}

fn atoms(alloc: Global) -> Result<Vec<Atom>, AllocError>
    ensures { IfOk result (λ v. map atom_of v.items ≡ tried_atoms) }
{
    let atom = Atom {
        term: 0,
        kind: Kind::Le,
    };
    let mut atoms = Vec::new(alloc);
    atoms.push(atom)?;
    atoms.push(atom)?;
    atoms.push(atom)?;
    atoms.push(atom)?;
    atoms.push(atom)?;
    Ok(atoms)
}

fn number() -> Frac
    ensures { fraction_of_frac result ≡ nought }
{
    Frac::new(0, 1)
}

fn graph(alloc: Global) -> Option<Graph>
    ensures { IfSome result (λ g. g ≡ tried_nodes) }
{
    let mut nodes = NodeTable::new(alloc);
    match nodes.intern(Node::Const(number())) {
        Ok(_) => Some(nodes.into_graph()),
        Err(_) => None,
    }
}

fn is_known(node: &FormNode) -> bool
    ensures { result ≡ is_known (form_node_of node.now) }
{
    match node {
        FormNode::AtomIs(j) => *j < 5,
        FormNode::BoolIs(axis, _) => *axis < 2,
        _ => true,
    }
}

// Adds the node, where it is one of the problem.
fn add(forms: &mut FormTable, node: FormNode) -> Result<(), Fail>
    requires { IsTrue (are_known forms.old) }
    ensures ok { OnOk result (IsTrue (are_known forms.new)) }
{
    if !is_known(&node) || !is_form_after(&node, forms.len() as u32) {
        return Err(Fail::from("no such node"));
    }
    forms.intern(node).map_err(|_| "no memory")?;
    Ok(())
}

/// A node of a form; one with children has their numbers.
#[derive(Clone, Copy)]
pub(crate) enum Form {
    True,
    False,
    Atom(u32),
    Bool(u32, bool),
    All(&'static [u32]),
    Any(&'static [u32]),
}

// The node in memory of its own.
fn node_of(alloc: Global, form: Form) -> Result<FormNode, AllocError> {
    match form {
        Form::True => Ok(FormNode::True),
        Form::False => Ok(FormNode::False),
        Form::Atom(j) => Ok(FormNode::AtomIs(j)),
        Form::Bool(axis, value) => Ok(FormNode::BoolIs(axis, value)),
        Form::All(children) => Ok(FormNode::And(Vec::from_slice(alloc, children)?)),
        Form::Any(children) => Ok(FormNode::Or(Vec::from_slice(alloc, children)?)),
    }
}

// Adds these nodes.
fn add_all(alloc: Global, forms: &mut FormTable, nodes: &[Form]) -> Result<(), Fail>
    requires { IsTrue (are_known forms.old) }
    ensures { OnOk result (IsTrue (are_known forms.new)) }
{
    for node in nodes {
        add(forms, node_of(alloc, *node)?)?;
    }
    Ok(())
}

// A problem of these form nodes, where they are ones of it, and this root.
fn problem(alloc: Global, nodes: &[Form], root: u32) -> Result<Problem, Fail> {
    let mut forms = FormTable::new(alloc);
    add_all(alloc, &mut forms, nodes)?;
    if root as usize >= forms.len() {
        return Err(Fail::from("no such root"));
    }
    let Some(graph) = graph(alloc) else {
        return Err(Fail::from("no memory"));
    };
    let atoms = atoms(alloc)?;
    Ok(Problem::new(axes(alloc)?, graph, atoms, forms.into_graph(), root))
}

/// The clauses of the form with these nodes and this root.
pub(crate) fn clauses_of(alloc: Global, nodes: &[Form], root: u32) -> Result<Cnf, Fail> {
    let problem = problem(alloc, nodes, root)?;
    Ok(clauses(alloc, &problem)?)
}
