// Whether a script has a root or a quotient at all.
ghost use Rattle.std.specs.Prelude.{◌≡◌, ◌<◌, ℕ, false, length};
ghost use Rattle.root_rewriting.specs.Plain.{IsPlain, is_fresh};
ghost use Rattle.root_rewriting.specs.Nodes.{tree_at, trees_in};

use crate::unfold::{Node, Trees};

// Whether a node is a root or a quotient.
fn is_fresh(node: &Node<'_>) -> bool
    ensures { result ≡ is_fresh node.now }
{
    match node {
        Node::Root(_, _) => true,
        Node::Quotient(_, _, _) => true,
        _ => false,
    }
}

/// Whether a root or a quotient stands among trees.
pub(crate) fn holds_fresh(trees: &Trees<'_>) -> bool
    ensures { result ≡ false → (k : ℕ) → k < length trees.now →
        IsPlain (tree_at (trees_in trees.now) k) }
{
    for k in 0..trees.len() {
        if is_fresh(trees.look(k)) {
            return true;
        }
    }
    false
}
