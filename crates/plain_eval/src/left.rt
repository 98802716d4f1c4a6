// What a narrowed node leaves to its children.
ghost use Rattle.std.specs.Prelude.{◌≡◌, ◌≢◌, ℕ, ◌<◌, length, IsTrue, true};
ghost use Rattle.poly_graph.specs.Term.{comes_after};
ghost use Rattle.poly_graph.specs.Views.{node_of};
ghost use Rattle.ival.specs.Views.{interval_of};
ghost use Rattle.ival.specs.RowViews.{rows_of};
ghost use Rattle.ival.specs.Options.{option_at};
ghost use Rattle.cover_model.specs.NodeEnclosure.{row};
ghost use Rattle.interval_model.specs.Interval.{nothing};
ghost use Rattle.plain_eval.specs.Leaving.{left_more, left_more_by, left_all, left_all_by, IsLeftBy};

use ival::{Ival, Rows};
use poly_graph::Node;

/// Leaves one more interval to node s: it is met with what was left before, at first the node's enclosure.
pub fn leave(rows: &Rows, s: u32, interval: Ival, scratch: &mut Rows)
    requires rows { s < length (rows_of rows.now) }
    requires scratch { length (rows_of scratch.old) ≡ length (rows_of rows.now) }
    ensures at { option_at scratch.new s ≡
        left_more (rows_of rows.now) s (interval_of interval) (option_at scratch.old s) }
    ensures others { (k : ℕ) → k ≢ s → option_at scratch.new k ≡ option_at scratch.old k }
    ensures count { length (rows_of scratch.new) ≡ length (rows_of scratch.old) }
{
    let place = s as usize;
    let before = if scratch.marked(place) {
        scratch.get(place)
    } else {
        rows.get(place)
    };
    scratch.set(place, before.meet(interval));
    scratch.mark(place);
}

// Leaves all of its enclosure to node s: what was left before stays.
fn leave_all(rows: &Rows, s: u32, scratch: &mut Rows)
    requires rows { s < length (rows_of rows.now) }
    requires scratch { length (rows_of scratch.old) ≡ length (rows_of rows.now) }
    ensures at { option_at scratch.new s ≡ left_all (rows_of rows.now) s (option_at scratch.old s) }
    ensures others { (k : ℕ) → k ≢ s → option_at scratch.new k ≡ option_at scratch.old k }
    ensures count { length (rows_of scratch.new) ≡ length (rows_of scratch.old) }
{
    let place = s as usize;
    if scratch.marked(place) {
        return;
    }
    scratch.set(place, rows.get(place));
    scratch.mark(place);
}

// Leaves to each child of a node all of its enclosure.
fn leave_all_to_children(node: Node, rows: &Rows, scratch: &mut Rows)
    requires order { IsTrue (comes_after (length (rows_of rows.now)) (node_of node)) }
    requires scratch { length (rows_of scratch.old) ≡ length (rows_of rows.now) }
    ensures all { (s : ℕ) → option_at scratch.new s ≡
        left_all_by (rows_of rows.now) s (node_of node) (option_at scratch.old s) }
    ensures count { length (rows_of scratch.new) ≡ length (rows_of scratch.old) }
{
    match node {
        Node::Const(_) => {}
        Node::Var(_) => {}
        Node::Neg(a) => leave_all(rows, a, scratch),
        Node::Add(a, b) => {
            leave_all(rows, a, scratch);
            leave_all(rows, b, scratch);
        }
        Node::Mul(a, b) => {
            leave_all(rows, a, scratch);
            leave_all(rows, b, scratch);
        }
        Node::Sq(a) => leave_all(rows, a, scratch),
    }
}

// Leaves to each child of a node that lies in this interval what the node's inverse leaves to it, by each place where
// the child stands.
fn leave_inverses(node: Node, narrowed: Ival, rows: &Rows, scratch: &mut Rows)
    requires order { IsTrue (comes_after (length (rows_of rows.now)) (node_of node)) }
    requires scratch { length (rows_of scratch.old) ≡ length (rows_of rows.now) }
    ensures all { (s : ℕ) → option_at scratch.new s ≡
        left_more_by (rows_of rows.now) s (node_of node) (interval_of narrowed)
        (option_at scratch.old s) }
    ensures count { length (rows_of scratch.new) ≡ length (rows_of scratch.old) }
{
    match node {
        Node::Const(_) => {}
        Node::Var(_) => {}
        Node::Neg(a) => leave(rows, a, narrowed.neg(), scratch),
        Node::Add(a, b) => {
            leave(rows, a, narrowed.inv_add(rows.get(b as usize)), scratch);
            leave(rows, b, narrowed.inv_add(rows.get(a as usize)), scratch);
        }
        Node::Mul(a, b) => {
            leave(rows, a, narrowed.inv_mul(rows.get(b as usize)), scratch);
            leave(rows, b, narrowed.inv_mul(rows.get(a as usize)), scratch);
        }
        Node::Sq(a) => leave(rows, a, narrowed.inv_sq(rows.get(a as usize)), scratch),
    }
}

// Whether a node's interval is its enclosure, and not empty.
fn is_whole(narrowed: Ival, n: usize, rows: &Rows) -> bool
    requires { n < length (rows_of rows.now) }
    ensures enclosure { result ≡ true → interval_of narrowed ≡ row (rows_of rows.now) n }
    ensures some { result ≡ true → interval_of narrowed ≢ nothing }
{
    !narrowed.is_empty() && narrowed == rows.get(n)
}

/// Leaves to each child of node n, which lies in this interval, what the node leaves to it. Where the interval is the node's
/// enclosure that is no less than the child's own.
pub fn leave_to_children(node: Node, n: usize, narrowed: Ival, rows: &Rows, scratch: &mut Rows)
    requires order { IsTrue (comes_after (length (rows_of rows.now)) (node_of node)) }
    requires rows { n < length (rows_of rows.now) }
    requires scratch { length (rows_of scratch.old) ≡ length (rows_of rows.now) }
    ensures all { let es = rows_of rows.now in (s : ℕ) →
        IsLeftBy es n s (node_of node) (interval_of narrowed)
        (option_at scratch.old s) (option_at scratch.new s) }
    ensures count { length (rows_of scratch.new) ≡ length (rows_of scratch.old) }
{
    if is_whole(narrowed, n, rows) {
        leave_all_to_children(node, rows, scratch);
    } else {
        leave_inverses(node, narrowed, rows, scratch);
    }
}
