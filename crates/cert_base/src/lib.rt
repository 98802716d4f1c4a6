//! A cover read back from its certificate.
//!
//! The main call is [`read_base`]: it checks a certificate of one check, and keeps what one that goes on from it needs:
//! its lines, the states of its lemmas, and the states that stay open or stuck.
#![tactic(auto)]

mod base;
mod gathered;
mod place;
mod read;

pub use base::{Base, Read};
pub use read::read_base;
