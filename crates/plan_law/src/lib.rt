//! What the least width of a plan says of certificates: a search that goes down to it leaves no box for want of width.
//! Definitions and a law alone.
#![tactic(auto)]

ghost use Rattle.plan_law.specs.Laws.{LeavesNoneStuck, NeverAnswersWidth, PartLeavesNoneStuck, PartNeverAnswersWidth};

/// An accepted certificate whose main tree is honest at the least width of a plan, for its own margin and delta, leaves
/// nothing or a state that is open. So `solve` with this least width never answers `unknown width`, whatever its budget,
/// its number of workers and their schedule.
pub fn plans_leave_none_stuck()
    ensures stuck { LeavesNoneStuck }
    ensures answer { NeverAnswersWidth }
{}

/// The same of each part of a certificate of several checks.
pub fn plans_leave_none_stuck_in_parts()
    ensures stuck { PartLeavesNoneStuck }
    ensures answer { PartNeverAnswersWidth }
{}
