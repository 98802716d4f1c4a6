// What a call works in.
ghost use Rattle.std.specs.Prelude.{IfOk};
ghost use Rattle.plain_eval.specs.Suits.{Suits};

use ival::Rows;
use poly_graph::Graph;
use std::alloc::{AllocError, Global};

/// The coefficients of each node's difference to its value at the centre, and of that's square, where they are marked.
#[derive(Drop)]
pub struct Coefficients {
    pub linear: Rows,
    pub square: Rows,
}

/// Rows for the nodes of a graph, made once and used by one call after the other.
#[derive(Drop)]
pub struct Room {
    pub coefficients: Coefficients,
    /// The ranges of the parts of variables.
    pub ranges: Rows,
    /// What is left to the variables.
    pub left: Rows,
}

impl Room {
    /// Room for the nodes of the graph.
    pub fn new(alloc: Global, graph: &Graph) -> Result<Room, AllocError>
        ensures { IfOk result (Suits graph.now) }
    {
        let count = graph.len();
        let linear = Rows::new(alloc, count)?;
        let square = Rows::new(alloc, count)?;
        let ranges = Rows::new(alloc, count)?;
        let left = Rows::new(alloc, count)?;
        Ok(Room {
            coefficients: Coefficients { linear, square },
            ranges,
            left,
        })
    }
}
