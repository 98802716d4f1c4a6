//! The form of a problem as clauses, and unit propagation over them.
//!
//! `clauses` gives clauses over atoms, Bool values and helper variables (Tseitin 1968; Plaisted and Greenbaum 1986 without
//! the polarities) that are true for some values of the helpers exactly where the form is. Beside what a state of a cover
//! says of atoms and Bool values, a `Trail` takes literals as assumed, derives what the clauses entail, and says which atom
//! is forced or that no assignment is left. Two literals are watched in each clause (Moskewicz and others 2001). It neither
//! decides nor backtracks. What the terms of the atoms are plays no part here.
#![tactic(auto)]

mod build;
mod clause;
mod clause_list;
mod cnf;
mod lists;
mod literal;
mod prop;
mod propagate;
mod table;
mod trail;
mod watches;

pub use build::{clauses, variable_at};
pub use cnf::Cnf;
pub use literal::{Literal, Variable};
pub use prop::Prop;
pub use trail::Trail;
