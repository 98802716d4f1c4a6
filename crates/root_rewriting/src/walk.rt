// The walk over a tree in reading order, inner trees first.
ghost use Rattle.std.specs.Prelude.{◌≡◌, ◌<◌, ◌++◌, ◌∷◌, [], List, OnOk, length};
ghost use Rattle.root_rewriting.specs.Found.{AreOwn, IsFound, IsSized, IsSource};
ghost use Rattle.root_rewriting.specs.Walk.{AreWorks, Walks, enters, node_parts, weight};
ghost use Rattle.root_rewriting.specs.Nodes.{tree_at, trees_in};
ghost use Rattle.script_roots.specs.Fresh.{fresh_in, once};
ghost use Rattle.script_roots.specs.Ranges.{Ranges};
ghost use Rattle.script_roots.specs.Tree.{Tree};

use crate::found::{Found, Source};
use crate::unfold::Node;
use std::alloc::{AllocError, Global};

/// What is to be done with a tree: to go through it, or to go on behind it.
#[derive(Clone, Copy)]
pub(crate) enum Work {
    Enter(usize),
    Leave(usize),
}

// Puts trees on the stack, the first on top.
fn push_all(stack: &mut Vec<Work>, parts: &[usize]) -> Result<(), AllocError>
    ensures { OnOk result (stack.new.items ≡ stack.old.items ++ enters parts.now) }
{
    let mut left = parts.len();
    while left > 0 {
        left -= 1;
        stack.push(Work::Enter(parts[left]))?;
    }
    Ok(())
}

/// Puts a node's parts on the stack, the first on top.
pub(crate) fn push_parts(stack: &mut Vec<Work>, node: &Node<'_>) -> Result<(), AllocError>
    ensures { OnOk result (stack.new.items ≡ stack.old.items ++ enters (node_parts node.now)) }
{
    match node {
        Node::Applied(_, _, parts) => push_all(stack, parts),
        Node::Root(_, part) => push_all(stack, &[*part]),
        Node::Quotient(_, dividend, divisor) => push_all(stack, &[*dividend, *divisor]),
        _ => Ok(()),
    }
}

// Does what stood on top of the stack.
fn step(
    source: &Source<'_, '_>,
    found: &mut Found,
    stack: &mut Vec<Work>,
    work: Work,
) -> Result<(), AllocError>
    requires source { IsSource source.now }
    requires sized { IsSized (length source.now.trees.now) found.old }
    requires works { AreWorks (length source.now.trees.now) (stack.old.items ++ (work ∷ [])) }
    ensures sized { OnOk result (IsSized (length source.now.trees.now) found.new) }
    ensures works { OnOk result (AreWorks (length source.now.trees.now) stack.new.items) }
    ensures falls { OnOk result (weight (trees_in source.now.trees.now) stack.new.items <
        weight (trees_in source.now.trees.now) (stack.old.items ++ (work ∷ []))) }
    ensures walks { (ranges : Ranges) (end : List Tree) →
        AreOwn ranges (trees_in source.now.trees.now) source.now.own.now →
        Walks ranges source.now found.old (stack.old.items ++ (work ∷ [])) end →
        OnOk result (Walks ranges source.now found.new stack.new.items end) }
{
    match work {
        Work::Leave(at) => found.leave(source, at),
        Work::Enter(at) => {
            if found.marked[at] {
                return Ok(());
            }
            stack.push(Work::Leave(at))?;
            push_parts(stack, source.trees.look(at))
        }
    }
}

/// Finds the roots and quotients of a tree.
pub(crate) fn walk(
    alloc: Global,
    source: &Source<'_, '_>,
    found: &mut Found,
    at: usize,
) -> Result<(), AllocError>
    requires source { IsSource source.now }
    requires sized { IsSized (length source.now.trees.now) found.old }
    requires at { at < length source.now.trees.now }
    ensures sized { OnOk result (IsSized (length source.now.trees.now) found.new) }
    ensures found { (ranges : Ranges) (seen : List Tree) →
        AreOwn ranges (trees_in source.now.trees.now) source.now.own.now →
        IsFound ranges source.now found.old seen →
        OnOk result (IsFound ranges source.now found.new
        (once seen (fresh_in ranges (tree_at (trees_in source.now.trees.now) at)))) }
{
    let mut stack = Vec::new(alloc);
    stack.push(Work::Enter(at))?;
    'works: while let Some(work) = stack.pop() {
        step(source, found, &mut stack, work)?;
    }
    Ok(())
}
