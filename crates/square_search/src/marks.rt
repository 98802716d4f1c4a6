// Marks at the nodes that stand under candidates.
ghost use Rattle.std.specs.Prelude.{◌≡◌, false, get_or};

use crate::candidates::Candidate;
use poly_graph::{Graph, Node};
use relaxation::{is_constant, nodes_under};
use std::alloc::{AllocError, Global};

/// Whether a node is marked.
pub fn is_marked(marks: &[bool], n: u32) -> bool
    ensures { result ≡ get_or marks.now n false }
{
    let n = n as usize;
    n < marks.len() && marks[n]
}

/// Marks at the candidates' terms and all that stands under them.
pub fn marks_under(
    alloc: Global,
    graph: &Graph,
    candidates: &[Candidate],
) -> Result<Vec<bool>, AllocError> {
    let mut roots = Vec::new(alloc);
    for candidate in candidates {
        roots.push(candidate.root)?;
    }
    nodes_under(alloc, graph, &roots)
}

// Whether the node is a product or a square of other nodes than constants.
fn is_product(graph: &Graph, node: Node) -> bool {
    match node {
        Node::Mul(a, b) => !is_constant(graph, a) && !is_constant(graph, b),
        Node::Sq(a) => !is_constant(graph, a),
        _ => false,
    }
}

/// Whether such a node is marked.
pub fn has_product(graph: &Graph, marks: &[bool]) -> bool {
    for n in 0..graph.len() {
        let n = n as u32;
        if is_marked(marks, n) && is_product(graph, graph.node(n)) {
            return true;
        }
    }
    false
}
