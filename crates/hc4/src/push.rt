// One node of the backward pass.
ghost use Rattle.std.specs.Prelude.{◌≡◌, ◌≢◌, ℕ, ◌<◌, ◌≤◌, length, Some, IsTrue};
ghost use Rattle.poly_graph.specs.Term.{comes_after};
ghost use Rattle.poly_graph.specs.Views.{node_of};
ghost use Rattle.ival.specs.Views.{interval_of};
ghost use Rattle.ival.specs.RowViews.{rows_of};
ghost use Rattle.ival.specs.Options.{option_at};
ghost use Rattle.hc4.specs.Pushed.{pushed, pushed_by, kept_by, IsPassed};

use ival::{Ival, Rows};
use poly_graph::Node;

/// Meets one more interval with what stands at node s, which is its enclosure where nothing stands yet.
pub fn push_to(rows: &Rows, s: u32, left: Ival, scratch: &mut Rows)
    requires rows { s < length (rows_of rows.now) }
    requires scratch { length (rows_of scratch.old) ≡ length (rows_of rows.now) }
    ensures at { option_at scratch.new s ≡
        pushed (rows_of rows.now) s (interval_of left) (option_at scratch.old s) }
    ensures others { (k : ℕ) → k ≢ s → option_at scratch.new k ≡ option_at scratch.old k }
    ensures count { length (rows_of scratch.new) ≡ length (rows_of scratch.old) }
{
    let place = s as usize;
    let own = if scratch.marked(place) {
        scratch.get(place)
    } else {
        rows.get(place)
    };
    scratch.mark(place);
    scratch.set(place, own.meet(left));
}

// Passes down what a node that lies in this interval leaves to its children.
fn push(node: Node, narrowed: Ival, rows: &Rows, scratch: &mut Rows)
    requires order { IsTrue (comes_after (length (rows_of rows.now)) (node_of node)) }
    requires scratch { length (rows_of scratch.old) ≡ length (rows_of rows.now) }
    ensures all { (s : ℕ) → option_at scratch.new s ≡
        pushed_by (rows_of rows.now) s (node_of node) (interval_of narrowed)
        (option_at scratch.old s) }
    ensures count { length (rows_of scratch.new) ≡ length (rows_of scratch.old) }
{
    match node {
        Node::Const(_) | Node::Var(_) => {}
        Node::Neg(a) => push_to(rows, a, narrowed.neg(), scratch),
        Node::Add(a, b) => {
            push_to(rows, a, narrowed.inv_add(rows.get(b as usize)), scratch);
            push_to(rows, b, narrowed.inv_add(rows.get(a as usize)), scratch);
        }
        Node::Mul(a, b) => {
            push_to(rows, a, narrowed.inv_mul(rows.get(b as usize)), scratch);
            push_to(rows, b, narrowed.inv_mul(rows.get(a as usize)), scratch);
        }
        Node::Sq(a) => push_to(rows, a, narrowed.inv_sq(rows.get(a as usize)), scratch),
    }
}

// Passes down what node n, which lies in this interval, leaves to its children: nothing where that is its enclosure,
// since its children's enclosures then stay as they are.
fn pass(node: Node, n: usize, narrowed: Ival, rows: &Rows, scratch: &mut Rows)
    requires order { IsTrue (comes_after (length (rows_of rows.now)) (node_of node)) }
    requires rows { n < length (rows_of rows.now) }
    requires scratch { length (rows_of scratch.old) ≡ length (rows_of rows.now) }
    ensures all { (s : ℕ) →
        IsPassed (rows_of rows.now) n s (node_of node) (interval_of narrowed)
        (option_at scratch.old s) (option_at scratch.new s) }
    ensures count { length (rows_of scratch.new) ≡ length (rows_of scratch.old) }
{
    if narrowed == rows.get(n) {
        return;
    }
    push(node, narrowed, rows, scratch);
}

/// Passes down what node n, which lies in this interval, leaves to its children. What stands at it is taken away,
/// if it is no variable.
pub fn visit(node: Node, n: usize, narrowed: Ival, rows: &Rows, scratch: &mut Rows)
    requires order { IsTrue (comes_after n (node_of node)) }
    requires rows { n < length (rows_of rows.now) }
    requires scratch { length (rows_of scratch.old) ≡ length (rows_of rows.now) }
    ensures below { (s : ℕ) → s < n →
        IsPassed (rows_of rows.now) n s (node_of node) (interval_of narrowed)
        (option_at scratch.old s) (option_at scratch.new s) }
    ensures at { option_at scratch.new n ≡ kept_by (node_of node) (option_at scratch.old n) }
    ensures above { (k : ℕ) → n < k → option_at scratch.new k ≡ option_at scratch.old k }
    ensures count { length (rows_of scratch.new) ≡ length (rows_of scratch.old) }
{
    if let Node::Var(_) = node {
        return;
    }
    pass(node, n, narrowed, rows, scratch);
    scratch.unmark(n);
}
