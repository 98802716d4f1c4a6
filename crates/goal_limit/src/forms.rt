// The form of a problem with a limit.
ghost use Rattle.std.specs.Prelude.{◌≡◌, ◌<◌, ◌≤◌, length, IfOk, IsTrue, MatchOption, Some, slice_get};
ghost use Rattle.poly_graph.specs.FormGraph.{IsNewForm, form_comes_after, forms_size, most_forms, node_size};
ghost use Rattle.poly_graph.specs.FormViews.{form_node_of};
ghost use Rattle.goal_limit.specs.Made.{HasNode, IsLimitForm};

use poly_graph::{FormGraph, FormNode, MOST_FORMS};
use std::alloc::{AllocError, Global};

// A node, and a place for each of its children.
fn node_size(node: &FormNode) -> usize
    ensures { result ≡ node_size (form_node_of node.now) }
{
    match node {
        FormNode::And(children) | FormNode::Or(children) => children.len() + 1,
        _ => 1,
    }
}

// The size of a form.
fn forms_size(forms: &FormGraph) -> usize
    ensures size { result ≡ forms_size forms.now }
    ensures few { result ≤ most_forms }
{
    let mut size = 0;
    for k in 0..forms.len() {
        size += node_size(forms.node(k as u32));
    }
    size
}

// The number of the node, where it stands in the form.
fn number_of(forms: &FormGraph, node: &FormNode) -> Option<u32>
    ensures { MatchOption result (IsNewForm forms.now (form_node_of node.now))
        (λ k. slice_get forms.now k ≡ Some (form_node_of node.now)) }
{
    for k in 0..forms.len() {
        if forms.node(k as u32) == node {
            return Some(k as u32);
        }
    }
    None
}

// The form with the node, and its number. A form that has no place for it is told as want of memory.
fn with_node(
    alloc: Global,
    forms: &FormGraph,
    node: FormNode,
) -> Result<(FormGraph, u32), AllocError>
    requires { IsTrue (form_comes_after (length forms.now) (form_node_of node)) }
    ensures { IfOk result (λ r. HasNode forms.now (form_node_of node) r.0 r.1) }
{
    if let Some(k) = number_of(forms, &node) {
        return Ok((forms.try_clone(alloc)?, k));
    }
    if node_size(&node) > MOST_FORMS - forms_size(forms) {
        return Err(AllocError);
    }
    let n = forms.len();
    let longer = FormGraph::joined(alloc, forms, n, &[node])?;
    Ok((longer, n as u32))
}

/// The form with the atom, and with that beside the root, whose number is answered.
pub(crate) fn forms_with(
    alloc: Global,
    forms: &FormGraph,
    root: u32,
    atom: u32,
) -> Result<(FormGraph, u32), AllocError>
    requires { root < length forms.now }
    ensures { IfOk result (λ r. IsLimitForm forms.now root atom r.0 r.1) }
{
    let (with_atom, n) = with_node(alloc, forms, FormNode::AtomIs(atom))?;
    let both = Vec::from_slice(alloc, &[root, n])?;
    with_node(alloc, &with_atom, FormNode::And(both))
}
