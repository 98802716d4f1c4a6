//! The script in which constants stand for the roots and quotients of another.
//!
//! `rewriting` answers it, or why it is refused: too many expressions or tokens, or what is not rewritten, which is a root
//! of an `ite`, or a root or a quotient in a goal. Scripts without roots and quotients are left as they are.
#![tactic(auto)]

mod claims;
mod classes;
mod constants;
mod digits;
mod drafts;
mod expressions;
mod found;
mod names;
mod parts;
mod placed;
mod places;
mod plain;
mod range;
mod rewrite;
mod script;
mod spelling;
mod unfold;
mod walk;
mod whole;
mod writing;

pub use rewrite::rewriting;
pub use script::Rewriting;
