//! Local search for a point of a box that meets a problem's form, in floats.
//!
//! From the box's middle, or from a point that is scattered over the box, it takes steps of Levenberg (1944) and Marquardt
//! (1963) on what the terms of the needed atoms exceed their bounds by, held within the box; where one atom is left, it goes
//! down along that atom's term by the updates of Broyden, Fletcher, Goldfarb and Shanno (1970). Of each disjunction it follows
//! the child that costs least. The main call is [`search_from`]. [`descend`] goes on from a point at which the form holds to
//! better ones, down along an augmented Lagrangian of a goal and the atoms that are to hold, by the same updates. Nothing is
//! promised of what these answer: whether the form is sure there is tested exactly by whoever asks. Values that are no numbers
//! end them without harm.
#![tactic(auto)]

mod aim;
mod bounds;
mod costs;
mod descent;
mod exact;
mod lagrangian;
mod lower;
mod matrix;
mod moves;
mod scatter;
mod search;
mod stand;

pub use lower::{Goal, descend};
pub use search::{Search, Start, search_from};
