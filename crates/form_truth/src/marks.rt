// The truth of the form, node by node.
ghost use Rattle.std.specs.Prelude.{◌≡◌, ◌<◌, ◌≤◌, ℕ, length, vec_len, IfOk, IsTrue};
ghost use Rattle.poly_graph.specs.FormGraph.{form_comes_after};
ghost use Rattle.poly_graph.specs.FormViews.{form_node_of};
ghost use Rattle.ival.specs.RowViews.{rows_of};
ghost use Rattle.ival.specs.SpaceViews.{space_of};
ghost use Rattle.form_truth.specs.Truth.{HasRows, node_may_hold, form_may_hold};
ghost use Rattle.cover_model.specs.State.{state_of};

use crate::atoms::may_atom;
use crate::leaves::domain_allows;
use crate::nodes::{all_hold, any_holds};
use ival::{Rows, Space};
use poly_graph::{FormNode, Lits, Problem};
use std::alloc::{AllocError, Global};

/// A truth value for each node of a problem's form.
#[derive(Drop)]
pub struct Marks {
    pub truths: Vec<bool, Global>,
}

impl Marks {
    /// A value for each node of the problem's form.
    pub fn new(alloc: Global, problem: &Problem) -> Result<Marks, AllocError>
        ensures { IfOk result (λ m. vec_len m.truths ≡ length problem.now.forms) }
    {
        let truths = vec![in alloc; false; problem.forms().len()]?;
        Ok(Marks { truths })
    }
}

// Whether a node may hold at a point of the space with these marks.
fn may_node(
    problem: &Problem,
    rows: &Rows,
    space: &Space,
    lits: &Lits,
    margin: u32,
    truths: &[bool],
    node: &FormNode,
) -> bool
    requires margin { margin ≤ 120 }
    requires rows { HasRows problem.now (space_of space.now) (rows_of rows.now) }
    requires lits { length lits.now ≡ length problem.now.atoms }
    requires order { IsTrue (form_comes_after (length truths.now) (form_node_of node.now)) }
    ensures { result ≡
        node_may_hold problem.now margin (state_of (space_of space.now) lits.now)
        truths.now (form_node_of node.now) }
{
    match node {
        FormNode::True => true,
        FormNode::False => false,
        FormNode::AtomIs(j) => may_atom(problem, rows, space, lits, margin, *j),
        FormNode::BoolIs(axis, value) => domain_allows(space, *axis, *value),
        FormNode::And(children) => all_hold(truths, children),
        FormNode::Or(children) => any_holds(truths, children),
    }
}

/// Whether the form may hold at a point of the space with these marks, each atom loosened by 2 to the power of
/// minus `margin`. The row of each atom's term has to be its enclosure over the space.
pub fn may(
    problem: &Problem,
    rows: &Rows,
    space: &Space,
    lits: &Lits,
    margin: u32,
    marks: &mut Marks,
) -> bool
    requires margin { margin ≤ 120 }
    requires rows { HasRows problem.now (space_of space.now) (rows_of rows.now) }
    requires lits { length lits.now ≡ length problem.now.atoms }
    requires marks { vec_len marks.old.truths ≡ length problem.now.forms }
    ensures truth { result ≡
        form_may_hold problem.now margin (state_of (space_of space.now) lits.now) }
    ensures marks { vec_len marks.new.truths ≡ length problem.now.forms }
{
    let forms = problem.forms();
    for n in 0..forms.len() {
        let node = forms.node(n as u32);
        let holds = may_node(problem, rows, space, lits, margin, &marks.truths, node);
        marks.truths[n] = holds;
    }
    marks.truths[problem.root() as usize]
}
