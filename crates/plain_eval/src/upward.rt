// What stands above what in a graph.
ghost use Rattle.std.specs.Prelude.{◌≡◌, length, IfOk, OnOk};
ghost use Rattle.poly_graph.specs.Views.{node_of};
ghost use Rattle.plain_eval.specs.Upward.{with_node, AreVariables, IsUpward};

use poly_graph::{Graph, Node, Parents};
use std::alloc::{AllocError, Global};

/// The parents of each node of a graph, and the numbers of its variables: from the axes that changed, `follow` goes
/// upwards by them.
#[derive(Drop)]
pub struct Upward {
    pub parents: Parents,
    pub variables: Vec<u32>,
}

// Adds the number of a node, if it is a variable.
fn note(node: Node, n: u32, variables: &mut Vec<u32>) -> Result<(), AllocError>
    ensures { OnOk result (variables.new.items ≡ with_node (node_of node) n variables.old.items) }
{
    if let Node::Var(_) = node {
        variables.push(n)?;
    }
    Ok(())
}

// The numbers of the variables.
fn variables_of(alloc: Global, graph: &Graph) -> Result<Vec<u32>, AllocError>
    ensures { IfOk result (λ v. AreVariables graph.now (length graph.now) v.items) }
{
    let mut variables = Vec::new(alloc);
    for n in 0..graph.len() {
        note(graph.node(n as u32), n as u32, &mut variables)?;
    }
    Ok(variables)
}

impl Upward {
    /// What stands above what in the graph.
    pub fn new(alloc: Global, graph: &Graph) -> Result<Upward, AllocError>
        ensures { IfOk result (IsUpward graph.now) }
    {
        let parents = Parents::new(alloc, graph)?;
        let variables = variables_of(alloc, graph)?;
        Ok(Upward { parents, variables })
    }
}
