// The slopes of terms over a box, by one sweep down over the nodes of each.
use crate::due::DueNodes;
use crate::near::{Span, span_of_interval};
use ival::Rows;
use poly_graph::{Graph, Node};
use std::alloc::{AllocError, Global};

const NO_SLOPE: Span = Span {
    low: 0.0,
    high: 0.0,
};

const OWN_SLOPE: Span = Span {
    low: 1.0,
    high: 1.0,
};

/// For each node the slopes that it hands down to its children, which nodes are still to do so, and the slopes along each
/// axis.
#[derive(Drop)]
pub struct Slopes {
    of_node: Vec<Span, Global>,
    due: DueNodes,
    of_axis: Vec<Span, Global>,
}

// Adds to the slopes in this place, where there is one.
fn add(slopes: &mut [Span], i: usize, slope: Span) {
    if i < slopes.len() {
        slopes[i] = slopes[i].plus(slope);
    }
}

// The values of a node over the box; 0 where there is no such one.
fn values_at(rows: &Rows, n: u32) -> Span {
    let n = n as usize;
    if n < rows.len() {
        span_of_interval(rows.get(n))
    } else {
        NO_SLOPE
    }
}

impl Slopes {
    /// None, for the nodes of the graph and so many axes.
    pub fn of(alloc: Global, graph: &Graph, axes: usize) -> Result<Slopes, AllocError> {
        Ok(Slopes {
            of_node: vec![in alloc; NO_SLOPE; graph.len()]?,
            due: DueNodes::of(alloc, graph.len())?,
            of_axis: vec![in alloc; NO_SLOPE; axes]?,
        })
    }

    // Adds to the slopes of a node, which then is due.
    fn add(&mut self, n: u32, slope: Span) {
        self.due.add(n);
        add(&mut self.of_node, n as usize, slope);
    }

    // The last node among those of this word that are due, and its slopes, which are taken from it.
    fn take(&mut self, word: usize) -> Option<(usize, Span)> {
        match self.due.take(word) {
            Some(n) if n < self.of_node.len() => {
                let slope = self.of_node[n];
                self.of_node[n] = NO_SLOPE;
                Some((n, slope))
            }
            _ => None,
        }
    }

    // Hands the slopes of a node to its children, or to its axis.
    fn hand_down(&mut self, node: Node, slope: Span, rows: &Rows) {
        match node {
            Node::Const(_) => {}
            Node::Var(axis) => add(&mut self.of_axis, axis as usize, slope),
            Node::Neg(a) => self.add(a, slope.negated()),
            Node::Add(a, b) => {
                self.add(a, slope);
                self.add(b, slope);
            }
            Node::Mul(a, b) => {
                self.add(a, slope.times(values_at(rows, b)));
                self.add(b, slope.times(values_at(rows, a)));
            }
            Node::Sq(a) => {
                let half = slope.times(values_at(rows, a));
                self.add(a, half.plus(half));
            }
        }
    }

    /// The slopes of the term along each axis over the box in which the nodes have these enclosures.
    pub fn sweep(&mut self, graph: &Graph, root: u32, rows: &Rows) -> &[Span] {
        for slope in self.of_axis.iter_mut() {
            *slope = NO_SLOPE;
        }
        self.add(root, OWN_SLOPE);
        let words = root as usize / 64 + 1;
        for above in 0..words {
            let word = words - 1 - above;
            for _ in 0..64 {
                let Some((n, slope)) = self.take(word) else {
                    break;
                };
                if n < graph.len() {
                    self.hand_down(graph.node(n as u32), slope, rows);
                }
            }
        }
        &self.of_axis
    }
}
