//! The commands of a script (SMT-LIB 2.6, section 3.9).
//!
//! `commands` answers what the commands of a text's expressions do, one step after the other, or their first fault. Names,
//! sorts and terms are left unread. Which commands are in force at each check is said in `specs/Levels.antt`.
#![tactic(auto)]

mod command;
mod forms;
mod found;
mod levels;
mod lists;
mod reading;
mod words;

pub use command::{Command, Course, Parameter, Script, Sort, Step};
pub use reading::commands;
