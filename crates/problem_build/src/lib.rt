//! The reader's last phase, and the reader as one call.
//!
//! `read_session` answers the problems of all checks of a script's bytes, or the script's first fault: a script is read as
//! it is written, and where that has a fault it is read with roots, so that constants stand for its roots and quotients;
//! `told` says which fault is answered where both readings have one.
//! `build_all` answers the problems of a script whose sorts are checked. `read_problem` and `build` do so for a script that
//! may have one check. The crate reads no file, prints no fault, and simplifies no form.
#![tactic(auto)]

ghost use Rattle.problem_build.specs.Laws.{SortedIsSound, PartsAreProblem, BuiltIsOne, SessionIsOne};

mod assembly;
mod change;
mod commands;
mod expressions;
mod fault;
mod frames;
mod goal;
mod goal_atom;
mod goal_step;
mod lets;
mod locals;
mod named;
mod names;
mod plain;
mod progress;
mod reader;
mod rewritten;
mod script;
mod session;
mod told;
mod top;
mod walk;
mod with_roots;

pub use goal_atom::goal_of;
pub use reader::{Reader, read_goal, read_problem, read_session, read_with_goal};
pub use script::build;
pub use session::build_all;

/// A well-sorted script meets no expression without a sort when it is built.
#[tactic(auto, using(crate::proofs::Sound::sorted_sound))]
pub fn sorted_is_sound()
    ensures { SortedIsSound }
{}

/// The parts that a whole walk over a script made, with axes that are declared so, are the script's problem.
pub fn parts_are_problem()
    ensures { PartsAreProblem }
{}

/// A script has one problem, so what is said of a problem of the script is said of the one that is built.
pub fn built_is_one()
    ensures { BuiltIsOne }
{}

/// Each check of a script has one problem.
pub fn session_is_one()
    ensures { SessionIsOne }
{}
