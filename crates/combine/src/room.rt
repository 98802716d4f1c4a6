// Room for combinations.
ghost use Rattle.std.specs.Prelude.{◌≡◌, IfOk, length};
ghost use Rattle.combine.specs.Parts.{needed_below};
ghost use Rattle.combine.specs.Rooms.{FitsRoom};

use crate::gathered::Gathered;
use ival::{Ival, Rows};
use poly_graph::{Graph, Node, Problem};
use std::alloc::{AllocError, Global};

/// What combinations are expanded in, made once for a problem: after that none needs memory.
#[derive(Drop)]
pub struct Room {
    pub adjoints: Rows,
    pub squares: Rows,
    pub gathered: Gathered,
    pub lefts: Vec<Ival, Global>,
}

// How many variables the graph has.
fn variables(graph: &Graph) -> usize
    ensures { result ≡ needed_below graph.now (length graph.now) }
{
    let mut count = 0;
    for k in 0..graph.len() {
        if let Node::Var(_) = graph.node(k as u32) {
            count += 1;
        }
    }
    count
}

impl Room {
    /// Room for the combinations of this problem.
    pub fn new(alloc: Global, problem: &Problem) -> Result<Room, AllocError>
        ensures { IfOk result (λ r. FitsRoom problem.now.nodes r) }
    {
        let graph = problem.graph();
        let count = variables(graph);
        let adjoints = Rows::new(alloc, graph.len())?;
        let squares = Rows::new(alloc, graph.len())?;
        let gathered = Gathered::new(alloc, count)?;
        let lefts = vec![in alloc; Ival::Empty; count]?;
        Ok(Room {
            adjoints,
            squares,
            gathered,
            lefts,
        })
    }
}
