// The walk over the tree of a book.
ghost use Rattle.std.specs.Prelude.{◌≡◌, ◌++◌, MatchOption, OnOk, map};
ghost use Rattle.std.specs.List.{AllByRecursion};
ghost use Rattle.cover_book.specs.Views.{node_of};
ghost use Rattle.cert_text.specs.Calls.{Appends, IsCrossedAt, IsNotCrossed, IsTaken, NoneWaits};
ghost use Rattle.cert_text.specs.Parts.{HasAppendedCover, HasAppendedTree, HasShortEnd, IsCountedCrossing, kids, node_lines};

use crate::append::append_counted;
use crate::keyword::Counted;
use crate::line::append_short_rule;
use crate::parts::append_lines;
use cover_book::Node;
use cover_line::{Rule, Staying};
use std::alloc::{AllocError, Global};

// The lines of a node of a tree.
fn append_node(text: &mut Vec<u8>, node: &Node) -> Result<(), AllocError>
    requires { HasShortEnd (node_of node.now) }
    ensures { Appends text.old text.new (node_lines (node_of node.now)) result }
{
    match node {
        Node::Live(_) => append_short_rule(text, &Rule::Stay(Staying::Open)),
        Node::Crossed(_) => Ok(()),
        Node::Closed(lines) | Node::Parted(lines, _) | Node::Stuck(lines, _) => {
            append_lines(text, lines)
        }
    }
}

// Takes the last node of those that wait.
pub(crate) fn take_next<'a>(waiting: &mut Vec<u64>, nodes: &'a [Node]) -> Option<&'a Node>
    ensures { MatchOption result
        (NoneWaits nodes.now waiting.old)
        (λ n. IsTaken nodes.now waiting.old waiting.new n.now) }
{
    match waiting.pop() {
        None => None,
        Some(number) => nodes.get(number as usize),
    }
}

// Puts the parts of a node on top of those that wait, the lower one last.
pub(crate) fn push_kids(waiting: &mut Vec<u64>, node: &Node) -> Result<(), AllocError>
    ensures { OnOk result (waiting.new.items ≡ waiting.old.items ++ kids (node_of node.now)) }
{
    match node {
        Node::Parted(_, lower) => {
            waiting.push(u64::from(*lower) + 1)?;
            waiting.push(u64::from(*lower))?;
            Ok(())
        }
        _ => Ok(()),
    }
}

/// Appends the tree that begins at node 0: each node's lines, then its lower part's tree, then its upper part's.
pub(crate) fn append_tree(
    text: &mut Vec<u8>,
    alloc: Global,
    nodes: &[Node],
) -> Result<(), AllocError>
    requires { AllByRecursion HasShortEnd (map node_of nodes.now) }
    ensures { OnOk result (HasAppendedTree text.old.items (map node_of nodes.now) text.new.items) }
{
    let mut waiting = Vec::new(alloc);
    waiting.push(0)?;
    for _taken in 0..nodes.len() {
        match take_next(&mut waiting, nodes) {
            None => return Ok(()),
            Some(node) => {
                append_node(text, node)?;
                push_kids(&mut waiting, node)?;
            }
        }
    }
    Ok(())
}

// The axis whose bounds cross, where a node alone says so.
fn crossed_axis(nodes: &[Node]) -> Option<usize>
    ensures { MatchOption result (IsNotCrossed nodes.now) (IsCrossedAt nodes.now) }
{
    if nodes.len() != 1 {
        return None;
    }
    match &nodes[0] {
        Node::Crossed(axis) => Some(*axis),
        _ => None,
    }
}

/// Appends the tree of a book's nodes, or the line that the bounds of an axis cross.
pub(crate) fn append_cover(
    text: &mut Vec<u8>,
    alloc: Global,
    nodes: &[Node],
) -> Result<(), AllocError>
    requires crossing { IsCountedCrossing (map node_of nodes.now) }
    requires short { AllByRecursion HasShortEnd (map node_of nodes.now) }
    ensures { OnOk result (HasAppendedCover text.old.items (map node_of nodes.now) text.new.items) }
{
    match crossed_axis(nodes) {
        Some(axis) => append_counted(text, Counted::Empty, axis as u32),
        None => append_tree(text, alloc, nodes),
    }
}
