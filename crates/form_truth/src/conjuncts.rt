// Whether the conjuncts of the form are marked yes.
ghost use Rattle.std.specs.Prelude.{◌≡◌, length, vec_len, IsTrue};
ghost use Rattle.poly_graph.specs.FormGraph.{form_comes_after};
ghost use Rattle.poly_graph.specs.FormViews.{form_node_of};
ghost use Rattle.poly_graph.specs.Marks.{is_yes, mark_at};
ghost use Rattle.interval_model.specs.Space.{Space};
ghost use Rattle.form_truth.specs.Conjuncts.{node_in_yes, conjuncts_are_in_yes};
ghost use Rattle.cover_model.specs.State.{state_of};

use crate::marks::Marks;
use crate::nodes::all_hold;
use poly_graph::{FormNode, Lits, Mark, Problem};

// Whether there is such an atom and it is marked yes.
fn is_marked_yes(lits: &Lits, j: u32) -> bool
    ensures { result ≡ is_yes (mark_at lits.now j) }
{
    (j as usize) < lits.len() && matches!(lits.mark(j), Mark::Yes)
}

// Whether the conjuncts of a node are marked yes.
fn is_node_in_yes(lits: &Lits, truths: &[bool], node: &FormNode) -> bool
    requires { IsTrue (form_comes_after (length truths.now) (form_node_of node.now)) }
    ensures { result ≡ node_in_yes lits.now truths.now (form_node_of node.now) }
{
    match node {
        FormNode::AtomIs(j) => is_marked_yes(lits, *j),
        FormNode::And(children) => all_hold(truths, children),
        FormNode::True => true,
        FormNode::False => true,
        FormNode::BoolIs(_, _) => true,
        FormNode::Or(_) => true,
    }
}

/// Whether each atom that the form's root reaches through conjunctions alone is marked yes.
pub fn conjuncts_in_yes(problem: &Problem, lits: &Lits, marks: &mut Marks) -> bool
    requires { vec_len marks.old.truths ≡ length problem.now.forms }
    ensures truth { (space : Space) →
        result ≡ conjuncts_are_in_yes problem.now (state_of space lits.now) }
    ensures marks { vec_len marks.new.truths ≡ length problem.now.forms }
{
    let forms = problem.forms();
    for n in 0..forms.len() {
        let node = forms.node(n as u32);
        let holds = is_node_in_yes(lits, &marks.truths, node);
        marks.truths[n] = holds;
    }
    marks.truths[problem.root() as usize]
}
