//! What holds of a run over ports, the texts of answers, and the run of `check`, which `dpoly` and `dpoly-check` share.
//!
//! `run_check` reads a script and a certificate from a desk, checks, and answers. It is given the reader of scripts, so this
//! crate stands below the one that reads them. `fetch_session`, `fetch_goal`, `end_halted`, `end_no_goal`, `say` and
//! `finish` are the parts from which the other commands are made. Each answer has one text, byte by byte, which a call here gives or reports out of memory. The
//! definitions in `specs/` are those of the contracts of both programs: courses, causes, texts, and what an answer says of
//! its script. No search is done here.
#![tactic(auto)]

mod axes;
mod both;
mod check;
mod checked;
mod goal;
mod joined;
mod least;
mod minimized;
mod name;
mod planned;
mod ports;
mod refused;
mod run;
mod script;
mod script_refused;
mod several;
mod solved;
mod status;

pub use both::{Inputs, Unread, fetch_both};
pub use check::{ROOM, Unconfirmed, check_session, refuse};
pub use checked::{confirmed_delta_sat, confirmed_unsat, left_open};
pub use goal::check_goal;
pub use joined::{keep_joined, not_joined, not_joined_at, refused_part};
pub use least::confirmed_least;
pub use minimized::{Cause, GoalBounds, end_no_goal, goal_bounds};
pub use planned::{plan_least_bits, plan_no_atom, plan_no_axis};
pub use ports::{finish, say};
pub use refused::cert_fault;
pub use run::run_check;
pub use script::{Halt, end_halted, fetch_goal, fetch_session, fetch_with_goal, refusal, too_long};
pub use script_refused::script_fault;
pub use several::fetch_several;
pub use solved::{budget, delta_sat, demo, part, unsat, width};
pub use status::Status;
