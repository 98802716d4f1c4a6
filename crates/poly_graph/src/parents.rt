// The parents of a graph's nodes.
ghost use Rattle.std.specs.Prelude.{◌≡◌, ℕ, ◌<◌, length, map, IfOk, OnOk, IsTrue};
ghost use Rattle.poly_graph.specs.Term.{comes_after};
ghost use Rattle.poly_graph.specs.Views.{node_of};
ghost use Rattle.poly_graph.specs.Parents.{parents_of, row_at, AreParents, IsPushed, IsNoted};

use crate::graph::Graph;
use crate::node::Node;
use std::alloc::{AllocError, Global};
use std::marker::Model;

/// For each node of a graph, the numbers of its parents: a pass goes upwards by them.
#[derive(Drop)]
pub struct Parents {
    rows: Vec<Vec<u32>>,
}

impl Model for Parents {
    ghost use Rattle.std.specs.Prelude.{ℕ, List, map};

    ghost Value = { List (List ℕ) };

    ghost view = { λ p. map (λ v. v.items) p.rows.items };
}

// Adds number n to row s.
fn push_at(rows: &mut Vec<Vec<u32>>, s: u32, n: u32) -> Result<(), AllocError>
    requires { s < length rows.old.items }
    ensures { OnOk result (IsPushed (map (λ v. v.items) rows.old.items)
        (map (λ v. v.items) rows.new.items) s n) }
{
    rows[s as usize].push(n)?;
    Ok(())
}

// Adds number n, which is the node's, to the row of each of its children.
fn note(rows: &mut Vec<Vec<u32>>, node: Node, n: u32) -> Result<(), AllocError>
    requires { IsTrue (comes_after (length rows.old.items) (node_of node)) }
    ensures { OnOk result (IsNoted (map (λ v. v.items) rows.old.items)
        (map (λ v. v.items) rows.new.items) (node_of node) n) }
{
    match node {
        Node::Const(_) | Node::Var(_) => Ok(()),
        Node::Neg(a) | Node::Sq(a) => push_at(rows, a, n),
        Node::Add(a, b) | Node::Mul(a, b) => {
            push_at(rows, a, n)?;
            if a == b {
                return Ok(());
            }
            push_at(rows, b, n)
        }
    }
}

impl Parents {
    /// The parents of each node of the graph.
    pub fn new(alloc: Global, graph: &Graph) -> Result<Self, AllocError>
        ensures { IfOk result (λ p. AreParents graph.now p) }
    {
        let mut rows = Vec::new(alloc);
        for n in 0..graph.len() {
            note(&mut rows, graph.node(n as u32), n as u32)?;
            rows.push(Vec::new(alloc))?;
        }
        Ok(Parents { rows })
    }

    /// The numbers of the nodes that have node s as a child, rising, each once.
    pub fn of(&self, s: u32) -> &[u32]
        requires { s < length self.now }
        ensures { result.now ≡ row_at self.now s }
    {
        &self.rows[s as usize]
    }
}
