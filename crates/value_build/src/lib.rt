//! What operators make of the values of expressions: terms, forms and bounds.
#![tactic(auto)]

mod arithmetic;
mod arms;
mod bounds;
mod chains;
mod claim;
mod gather;
mod leaves;
mod lift;
mod literal;
mod maker;
mod mark;
mod operate;
mod value;

pub use maker::Maker;
pub use mark::Mark;
pub use value::Value;
