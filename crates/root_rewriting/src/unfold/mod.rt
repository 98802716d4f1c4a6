//! The trees of a script's assertions and goals: its expressions, in which each `let`, each call of a definition and each
//! annotation is replaced by what it stands for.
//!
//! `asserted` answers them all in one arena, where a tree that several names stand for stands once. No sort is checked
//! here, and no constant is made of a root or a quotient.

mod assertions;
mod expressions;
mod frames;
mod lets;
mod locals;
mod names;
mod operate;
mod stop;
mod top;
mod trees;
mod walk;

pub use assertions::{AssertedTrees, Assertion, asserted};
pub use trees::{Atom, Facts, Node, Trees};
