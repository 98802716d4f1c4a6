//! Where several certificates part: the first whose header has another margin or delta than the first certificate has.
//!
//! The main call is [`first_parting`], which reads the first bytes of each. It checks nothing else of them.
#![tactic(auto)]

mod header;
mod parting;

pub use parting::{Place, first_parting};
