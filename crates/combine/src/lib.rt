//! The combination rule, for the search: [`combine`] leaves of a space what a combination of marked atoms leaves of it.
//!
//! A combination is the sum of its atoms' terms, each times a multiplier. One sweep from the highest root down expands
//! it at the middle of the space, in which each variable has a part: this is the mean value form (Moore, Interval
//! Analysis, 1966), with several atoms Farkas' lemma on their linear parts. What the atoms' ranges allow to the
//! combination, less the range of the other parts, narrows each axis.
//!
//! The sweep visits only what stands under the atoms. The crate chooses no multipliers, encloses nothing (`hc4` does
//! both over the space and over its middle), and does not repeat its narrowing. The checker has a sweep of its own.
#![tactic(auto)]

mod axes;
mod combination;
mod combining;
mod expand;
mod gathered;
mod hand;
mod left;
mod part;
mod ranges;
mod room;
mod roots;
mod sweep;
mod tighten;

pub use combination::Combination;
pub use combining::combine;
pub use room::Room;
pub use roots::marked_range;
