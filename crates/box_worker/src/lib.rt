//! The work on one box of a cover: `work_in` takes a state and closes it, splits it in two or finds it stuck by lines
//! that are lawful and honest, or finds a point in it; `lesson` says what is learned of a run that closed one. What
//! is tried, in which order and how often is a choice that promises nothing: in `contraction` and `combining`, which take
//! steps by which a patch stays open (`open_patch`), and in `axis`, `prospects`, `scout`, `guide`, `needs`, `common`,
//! `fallen`, `patience`, `searches`, `squaring`, `worth` and `choice`. What holds of an answer is what the lines of a patch ensure.
//! Nothing but room is kept from one box of a problem to the next (`Room`): which box is worked on, and which lemmas are
//! at hand, is the caller's choice.
#![tactic(auto)]

mod attempt;
mod axis;
mod branching;
mod choice;
mod combining;
mod common;
mod contraction;
mod ended;
mod facts;
mod fallen;
mod found;
mod groups;
mod guide;
mod heuristics;
mod learn;
mod lessons;
mod needs;
mod open_patch;
mod patience;
mod preconditions;
mod prospects;
mod room;
mod scout;
mod searches;
mod split;
mod squaring;
mod step;
mod work;
mod worked;
mod worth;

pub use lessons::lesson;
pub use room::Room;
pub use work::work_in;
pub use worked::Worked;
