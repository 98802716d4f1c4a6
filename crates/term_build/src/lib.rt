//! The builder of a problem's terms, atoms and form: what is made, once each, within its limits.
//!
//! `Builder` makes a node for each step of a term or a form, or stops, and goes back to what stood at a `Mark`; `make_form`
//! makes the form of a whole script. It knows no names and no expressions.
#![tactic(auto)]

mod builder;
mod comparisons;
mod connectives;
mod facts;
mod mark;
mod shape;
mod sketch;
mod steps;
mod stop;

pub use builder::Builder;
pub use connectives::{LEAST_CROWD, Pair, choose_arms};
pub use mark::Mark;
pub use shape::make_form;
pub use sketch::{Arm, SketchNode, choice_at};
pub use stop::{Fault, Stop};
