//! The first fault of a script's bytes, and what a script without one is, with one check or with many.
//!
//! No code runs here: each function is a law about the definitions in `specs/`, and its contract is the law. The trait
//! `ScriptReader` says what a reader of scripts answers; `problem_build` implements it.
#![tactic(auto)]

ghost use Rattle.script_reading.specs.Laws.{CarriedBegins, FaultlessIsAccepted};
ghost use Rattle.script_reading.specs.Problems.{BegunGoesOn, SessionGoesOn};
ghost use Rattle.script_reading.specs.Roots.{RootedIsRewritable};
ghost use Rattle.script_reading.specs.WellSorted.{SortedUnfolds};

mod reader;

pub use reader::{ScriptReader, WithGoal};

/// Bytes without a fault are the text of a script without one.
#[tactic(auto, using(crate::proofs::Accepted::faultless_accepted))]
pub fn faultless_is_accepted()
    ensures { FaultlessIsAccepted }
{}

/// Each assertion of a well-sorted script unfolds to a formula, or to a fault of a constant step or a division.
#[tactic(auto, using(crate::proofs::WellSorted::sorted_unfolds))]
pub fn sorted_unfolds()
    ensures { SortedUnfolds }
{}

/// Where a script without fault is read with roots, the laws on the rewritten script hold of each of its checks.
pub fn rooted_is_rewritable()
    ensures { RootedIsRewritable }
{}

/// Where all commands of a check are said to be in force at the next one, they begin those of the next one.
pub fn carried_begins()
    ensures { CarriedBegins }
{}

/// The problem of a check goes on from that of the check before, where all commands of the one before are in force at it.
pub fn begun_goes_on()
    ensures { BegunGoesOn }
{}

/// There is a check, and each problem goes on from the one before where all commands of that one's check are in force.
pub fn session_goes_on()
    ensures { SessionGoesOn }
{}
