// The coefficients of terms at a point, by one sweep down over the nodes of each.
use crate::due::DueNodes;
use crate::lists::{add, at, set};
use poly_graph::{Graph, Node};
use std::alloc::{AllocError, Global};

/// For each node the weight that it hands down to its children, and which nodes are still to do so. Between sweeps there
/// are none.
#[derive(Drop)]
pub struct Adjoints {
    weights: Vec<f64, Global>,
    due: DueNodes,
}

impl Adjoints {
    /// No weights, for the nodes of the graph.
    pub fn of(alloc: Global, graph: &Graph) -> Result<Adjoints, AllocError> {
        Ok(Adjoints {
            weights: vec![in alloc; 0.0; graph.len()]?,
            due: DueNodes::of(alloc, graph.len())?,
        })
    }

    // Adds to the weight of a node, which then is due.
    fn add(&mut self, n: u32, weight: f64) {
        self.due.add(n);
        add(&mut self.weights, n as usize, weight);
    }

    // The last node among those of this word that are due, and its weight, which is taken from it.
    fn take(&mut self, word: usize) -> Option<(usize, f64)> {
        match self.due.take(word) {
            Some(n) => {
                let weight = at(&self.weights, n);
                set(&mut self.weights, n, 0.0);
                Some((n, weight))
            }
            None => None,
        }
    }
}

/// The value of a node, or 0 where there is none.
pub fn value_at(values: &[f64], n: u32) -> f64 {
    at(values, n as usize)
}

// The column of a node.
fn column(of_node: &[Option<usize>], n: usize) -> Option<usize> {
    if n < of_node.len() { of_node[n] } else { None }
}

// Hands the weight of a node to its children, and its own part to the row.
fn hand_down(
    node: Node,
    weight: f64,
    own: Option<usize>,
    values: &[f64],
    adjoints: &mut Adjoints,
    row: &mut [f64],
) {
    if let Some(c) = own {
        add(row, c, weight);
    }
    match node {
        Node::Const(_) => {}
        Node::Var(axis) => add(row, axis as usize, weight),
        Node::Neg(a) => adjoints.add(a, -weight),
        Node::Add(a, b) => {
            adjoints.add(a, weight);
            adjoints.add(b, weight);
        }
        Node::Mul(a, b) => {
            adjoints.add(a, weight * value_at(values, b));
            adjoints.add(b, weight * value_at(values, a));
        }
        Node::Sq(a) => adjoints.add(a, 2.0 * weight * value_at(values, a)),
    }
}

/// Adds the coefficients of the term to the row: of a node that has a column, at that, and of each axis.
pub fn coefficients(
    graph: &Graph,
    root: u32,
    values: &[f64],
    of_node: &[Option<usize>],
    adjoints: &mut Adjoints,
    row: &mut [f64],
) {
    adjoints.add(root, 1.0);
    let words = root as usize / 64 + 1;
    for above in 0..words {
        let word = words - 1 - above;
        for _ in 0..64 {
            let Some((n, weight)) = adjoints.take(word) else {
                break;
            };
            if n < graph.len() && weight != 0.0 {
                let own = column(of_node, n);
                hand_down(graph.node(n as u32), weight, own, values, adjoints, row);
            }
        }
    }
}
