//! One certificate of several of the same problem.
//!
//! The certificates are followed line by line, side by side ([`Joiner`]). Where one leaves its state open or stuck, the tree
//! that another has there is taken; where several have different trees of one place, the first that leaves nothing is, or
//! else the first. The lemmas of all are kept, equal ones once, with numbers of their own. A point wins.
//!
//! The main call is [`join`]: it reads the certificates at any place, so that none is held whole, and gives what is joined
//! to a checker as it is written. What it promises is that: the checker took exactly the bytes that stand in the draft;
//! of covers, they are what joins them, or there is none for other headers, too many lemmas or a fault of what joins them.
//! A line that no accepted certificate has stops nothing: that one was there is told, so that the caller looks for it.
#![tactic(auto)]

mod cursor;
mod drafting;
mod heads;
mod joiner;
mod lemmas;
mod line;
mod numbering;
mod stop;
mod trees;
mod weighing;

pub use drafting::{Joined, join};
pub use stop::Stop;
