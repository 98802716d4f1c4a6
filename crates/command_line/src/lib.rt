//! What the words of a call ask the program for, or the checker.
#![tactic(auto)]

mod program;
mod read;
mod request;
mod usage;

pub use read::{Refused, read_checker_words, read_words};
pub use request::{
    CheckWords, DemoWords, JoinWords, MinimizeWords, Options, PlanWords, Request, ResumeWords,
    Share, SolveWords, UpgradeWords,
};
pub use usage::{checker_usage_text, usage_text};
