//! Polynomial terms, their shared graph, atoms, forms and problems; marks of atoms.
#![tactic(auto)]

mod atom_table;
mod axis;
mod form_graph;
mod form_node;
mod form_table;
mod graph;
pub mod laws;
mod lits;
mod mark;
mod node;
mod node_table;
mod order;
mod parents;
mod problem;
mod refused;

pub use atom_table::{AtomTable, MOST_ATOMS};
pub use axis::{Axis, Declared};
pub use form_graph::FormGraph;
pub use form_node::FormNode;
pub use form_table::{FormTable, MOST_FORMS};
pub use graph::Graph;
pub use lits::Lits;
pub use mark::Mark;
pub use node::{Atom, Kind, Node};
pub use node_table::{MOST_NODES, NodeTable};
pub use order::{is_after, is_form_after, is_parent};
pub use parents::Parents;
pub use problem::Problem;
pub use refused::{Limit, NoNode};
