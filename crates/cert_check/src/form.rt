// Whether the form may hold over a space, from what was judged of its atoms.
ghost use Rattle.std.specs.Prelude.{◌≡◌, ◌<◌, ℕ, length, vec_len, IsTrue, nat_lt};
ghost use Rattle.std.specs.List.{list_all, list_any};
ghost use Rattle.poly_graph.specs.FormGraph.{form_comes_after};
ghost use Rattle.poly_graph.specs.FormViews.{form_node_of};
ghost use Rattle.interval_model.specs.Space.{allows};
ghost use Rattle.cover_model.specs.State.{domain_allows, state_of};
ghost use Rattle.ival.specs.SpaceViews.{domain_of, space_of};
ghost use Rattle.form_truth.specs.Truth.{atom_may_hold, form_may_hold, is_true, node_may_hold};
ghost use Rattle.cert_check.specs.Judged.{AreJudgedOver};

use crate::judged::Judged;
use form_truth::Marks;
use ival::{Domain, Space, Truths};
use poly_graph::{FormNode, Lits, Mark, Problem};

// Whether all of these hold.
fn all_hold(truths: &[bool], numbers: &[u32]) -> bool
    requires { IsTrue (list_all (λ k. nat_lt k (length truths.now)) numbers.now) }
    ensures { result ≡ list_all (is_true truths.now) numbers.now }
{
    for k in numbers {
        if !truths[*k as usize] {
            return false;
        }
    }
    true
}

// Whether some of these hold.
fn any_holds(truths: &[bool], numbers: &[u32]) -> bool
    requires { IsTrue (list_all (λ k. nat_lt k (length truths.now)) numbers.now) }
    ensures { result ≡ list_any (is_true truths.now) numbers.now }
{
    for k in numbers {
        if truths[*k as usize] {
            return true;
        }
    }
    false
}

// Whether the value is left to a Bool domain.
fn allows(domain: Domain, value: bool) -> bool
    ensures { result ≡ allows (domain_of domain) value }
{
    match domain {
        Domain::Real(_) => false,
        Domain::Bool(Truths::Either) => true,
        Domain::Bool(Truths::True) => value,
        Domain::Bool(Truths::False) => !value,
    }
}

// Whether the value is left to the Bool axis.
fn axis_allows(space: &Space, axis: u32, value: bool) -> bool
    ensures { result ≡ domain_allows (space_of space.now) axis value }
{
    let axis = axis as usize;
    if axis < space.len() {
        allows(space.get(axis), value)
    } else {
        false
    }
}

// Whether the atom may hold at a point of the space with these marks; not where there is no such atom.
fn may_atom(_problem: &Problem, _space: &Space, lits: &Lits, judged: &Judged, j: u32) -> bool
    requires judged { AreJudgedOver _problem.now (space_of _space.now) judged.now }
    requires lits { length lits.now ≡ length _problem.now.atoms }
    ensures { result ≡
        atom_may_hold _problem.now judged.now.margin (state_of (space_of _space.now) lits.now) j }
{
    if j as usize >= judged.misses.len() {
        return false;
    }
    let misses = judged.misses[j as usize];
    match lits.mark(j) {
        Mark::No => false,
        Mark::Yes => !misses,
        Mark::Neither => !misses,
    }
}

// Whether a node may hold at a point of the space with these marks.
fn may_node(
    problem: &Problem,
    space: &Space,
    lits: &Lits,
    judged: &Judged,
    truths: &[bool],
    node: &FormNode,
) -> bool
    requires judged { AreJudgedOver problem.now (space_of space.now) judged.now }
    requires lits { length lits.now ≡ length problem.now.atoms }
    requires order { IsTrue (form_comes_after (length truths.now) (form_node_of node.now)) }
    ensures { result ≡ node_may_hold problem.now judged.now.margin
        (state_of (space_of space.now) lits.now) truths.now (form_node_of node.now) }
{
    match node {
        FormNode::True => true,
        FormNode::False => false,
        FormNode::AtomIs(j) => may_atom(problem, space, lits, judged, *j),
        FormNode::BoolIs(axis, value) => axis_allows(space, *axis, *value),
        FormNode::And(children) => all_hold(truths, children),
        FormNode::Or(children) => any_holds(truths, children),
    }
}

/// Whether the form may hold at a point of the space with these marks, each atom loosened by the margin at which it was
/// judged over the space.
pub fn may_hold(
    problem: &Problem,
    space: &Space,
    lits: &Lits,
    judged: &Judged,
    marks: &mut Marks,
) -> bool
    requires judged { AreJudgedOver problem.now (space_of space.now) judged.now }
    requires lits { length lits.now ≡ length problem.now.atoms }
    requires marks { vec_len marks.old.truths ≡ length problem.now.forms }
    ensures truth { result ≡ form_may_hold problem.now judged.now.margin
        (state_of (space_of space.now) lits.now) }
    ensures marks { vec_len marks.new.truths ≡ length problem.now.forms }
{
    let forms = problem.forms();
    for n in 0..forms.len() {
        let node = forms.node(n as u32);
        let holds = may_node(problem, space, lits, judged, &marks.truths, node);
        marks.truths[n] = holds;
    }
    marks.truths[problem.root() as usize]
}
