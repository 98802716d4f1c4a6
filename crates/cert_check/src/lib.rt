//! The checker of certificates: it goes through the lines of a certificate once, and answers the verdict of the
//! definitions, with the first fault and its line.
//!
//! The main call is `Feed`: it takes a certificate in any pieces, and `end` answers its verdict. `Checker` is the same
//! over lines. Its arithmetic shares no pass with the search. It reads no file, writes no answer, and does not ask
//! whether a cover is honest.
#![tactic(auto)]

mod branches;
mod centre;
mod changes;
mod checker;
mod closing;
mod combination;
mod covering;
mod due;
mod ending;
mod fault;
mod feed;
mod form;
mod groups;
mod header;
mod judged;
pub mod laws;
mod left;
mod lemma;
mod lemmas;
mod lists;
mod loosenings;
mod moves;
mod names;
mod narrowing;
mod next;
mod part;
mod parts;
mod pending;
mod point;
mod refusal;
mod rules;
mod said;
mod squaring;
mod stand;
mod standing;
mod state;
mod tools;
mod tree;
mod work;

pub use checker::{Checker, Verdict};
pub use fault::CertFault;
pub use feed::Feed;
pub use lemmas::Lemmas;
pub use loosenings::Loosenings;
pub use stand::{Stand, WholeCover};
