//! The rules of a cover in code: patches, which go from state to state by one rule after another and may end.
//!
//! Its main type is [`Patch`]: each call is one rule, done where it is lawful and honest and refused else. Points come
//! from the middle of a space ([`MiddlePoint`]). The crate chooses no rule and keeps no book: `box_worker` and
//! `cover_book` do.
#![tactic(auto)]

mod branches;
mod combining;
mod ends;
mod facts;
mod groups;
mod narrower;
mod narrowing;
mod patch;
mod point;
mod refusal;
mod small;
mod squaring;
mod steps;
mod stuck;
mod truth;
mod voiding;
mod workspace;

pub use cover_data::{
    ClosedPatch, Closing, Combination, End, KeptPatch, Lemma, Margins, Narrowing, Options, Point,
    Squares, State, Step,
};
pub use narrower::Narrower;
pub use patch::Patch;
pub use point::MiddlePoint;
pub use refusal::PatchRefusal;
pub use truth::midpoint_sure;
pub use workspace::{Centre, Workspace};
