// Whether the form surely holds, node by node.
ghost use Rattle.std.specs.Prelude.{◌≡◌, ◌<◌, ◌≤◌, ℕ, length, vec_len, IsTrue};
ghost use Rattle.poly_graph.specs.FormGraph.{form_comes_after};
ghost use Rattle.poly_graph.specs.FormViews.{form_node_of};
ghost use Rattle.ival.specs.RowViews.{rows_of};
ghost use Rattle.ival.specs.SpaceViews.{space_of};
ghost use Rattle.form_truth.specs.Truth.{HasRows, node_is_sure, form_is_sure};

use crate::atoms::sure_atom;
use crate::leaves::domain_is;
use crate::marks::Marks;
use crate::nodes::{all_hold, any_holds};
use ival::{Rows, Space};
use poly_graph::{FormNode, Problem};

// Whether a node surely holds at each point of the space.
fn sure_node(
    problem: &Problem,
    rows: &Rows,
    space: &Space,
    delta: u32,
    truths: &[bool],
    node: &FormNode,
) -> bool
    requires delta { delta ≤ 120 }
    requires rows { HasRows problem.now (space_of space.now) (rows_of rows.now) }
    requires order { IsTrue (form_comes_after (length truths.now) (form_node_of node.now)) }
    ensures { result ≡
        node_is_sure problem.now delta (space_of space.now) truths.now (form_node_of node.now) }
{
    match node {
        FormNode::True => true,
        FormNode::False => false,
        FormNode::AtomIs(j) => sure_atom(problem, rows, space, delta, *j),
        FormNode::BoolIs(axis, value) => domain_is(space, *axis, *value),
        FormNode::And(children) => all_hold(truths, children),
        FormNode::Or(children) => any_holds(truths, children),
    }
}

/// Whether the form surely holds at each point of the space, each atom loosened by 2 to the power of minus
/// `delta`. The row of each atom's term has to be its enclosure over the space.
pub fn sure(problem: &Problem, rows: &Rows, space: &Space, delta: u32, marks: &mut Marks) -> bool
    requires delta { delta ≤ 120 }
    requires rows { HasRows problem.now (space_of space.now) (rows_of rows.now) }
    requires marks { vec_len marks.old.truths ≡ length problem.now.forms }
    ensures truth { result ≡ form_is_sure problem.now delta (space_of space.now) }
    ensures marks { vec_len marks.new.truths ≡ length problem.now.forms }
{
    let forms = problem.forms();
    for n in 0..forms.len() {
        let node = forms.node(n as u32);
        let holds = sure_node(problem, rows, space, delta, &marks.truths, node);
        marks.truths[n] = holds;
    }
    marks.truths[problem.root() as usize]
}
