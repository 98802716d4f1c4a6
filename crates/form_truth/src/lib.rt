//! Bounds on the truth of a problem's form over a space: `may` is false only where no point of the space meets the
//! form, `sure` is true only where each point does. `root_space` is what a cover begins with. Atoms are decided by the
//! enclosures that the caller's rows hold: nothing is enclosed or narrowed here. `can_combine` is whether atoms may be
//! combined at a state, by their marks alone.
#![tactic(auto)]

mod atoms;
mod combinable;
mod conjuncts;
mod leaves;
mod marks;
mod nodes;
mod root;
mod surely;

pub use atoms::{kind_range, may_atom, sure_atom};
pub use combinable::can_combine;
pub use conjuncts::conjuncts_in_yes;
pub use marks::{Marks, may};
pub use root::{Root, root_space};
pub use surely::sure;
