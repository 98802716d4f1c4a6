// The first stuck box of a book.
ghost use Rattle.std.specs.Prelude.{◌≡◌, IfOk, MatchOption, None, false};
ghost use Rattle.cover_book.specs.Verdict.{has_stuck};
ghost use Rattle.cert_text.specs.Calls.{HasNoStuckBox, IsFirstStuckOf, IsNotStuck, IsStuckAt};
ghost use Rattle.cert_text.specs.Stuck.{IsFirstStuck, first_stuck};

use crate::walk::{push_kids, take_next};
use cover_book::{Book, Node};
use cover_data::{End, State};
use std::alloc::{AllocError, Global};

/// A box in which a cover is stuck.
#[derive(Clone, Copy)]
pub struct StuckBox<'a> {
    /// The number of the atom that may hold there and does not surely hold.
    pub atom: u32,
    /// What is left of the box.
    pub state: &'a State,
}

// The box in which a node is stuck.
fn stuck_box(node: &Node) -> Option<StuckBox<'_>>
    ensures { MatchOption result
        (IsNotStuck node.now)
        (λ x. IsStuckAt node.now x.atom x.state.now) }
{
    match node {
        Node::Stuck(lines, state) => match lines.end {
            End::Stuck(atom) => Some(StuckBox { atom, state }),
            _ => None,
        },
        _ => None,
    }
}

// The first stuck box of the tree that begins at node 0.
fn first_stuck_node<'a>(
    alloc: Global,
    nodes: &'a [Node],
) -> Result<Option<StuckBox<'a>>, AllocError>
    ensures { IfOk result (λ found. MatchOption found
        (HasNoStuckBox nodes.now)
        (λ x. IsFirstStuckOf nodes.now x.atom x.state.now)) }
{
    let mut waiting = Vec::new(alloc);
    waiting.push(0)?;
    for _taken in 0..nodes.len() {
        match take_next(&mut waiting, nodes) {
            None => return Ok(None),
            Some(node) => match stuck_box(node) {
                Some(found) => return Ok(Some(found)),
                None => push_kids(&mut waiting, node)?,
            },
        }
    }
    Ok(None)
}

/// The first stuck box of a book, in the order of its tree, which is that of what the written certificate leaves; none
/// where no node is stuck. Where no node is live, it is the first that is left. Out of memory is its one error.
pub fn first_stuck<'a>(alloc: Global, book: &'a Book) -> Result<Option<StuckBox<'a>>, AllocError>
    ensures { IfOk result (λ found. MatchOption found
        (has_stuck book.now ≡ false)
        (λ x. IsFirstStuck book.now x.atom x.state.now)) }
{
    first_stuck_node(alloc, book.nodes())
}
