//! What is proved of runs of rules: each function here does nothing, and its contract is a law.

ghost use Rattle.cover_data.specs.Laws.{StepsBeforeTree, ClosedRunIsTree, StuckRunIsTree, BranchRunIsTree, ClosedRunIsLemma, BranchKeepsPoints, ChildrenLieWithin, RunIsLater};

/// Steps before a lawful tree make a lawful tree, with the same states that stay.
pub fn steps_before_tree()
    ensures { StepsBeforeTree }
{}

/// A lawful run that has closed its state is a lawful tree in which no state stays.
pub fn closed_run_is_tree()
    ensures { ClosedRunIsTree }
{}

/// One that ended at a stuck state is a lawful tree in which that state stays.
pub fn stuck_run_is_tree()
    ensures { StuckRunIsTree }
{}

/// One that ended in a branch is a lawful tree over lawful trees of the two states.
pub fn branch_run_is_tree()
    ensures { BranchRunIsTree }
{}

/// No point of the first state of a run that has closed it meets the form.
pub fn closed_run_is_lemma()
    ensures { ClosedRunIsLemma }
{}

/// Where a run ended in a branch, a point of its first state that meets the form is one of the two states.
pub fn branch_keeps_points()
    ensures { BranchKeepsPoints }
{}

/// The two states that a branch leaves lie within the first one, and are states of the problem.
pub fn children_lie_within()
    ensures { ChildrenLieWithin }
{}

/// A run in a version of the format is one in each later version.
pub fn run_is_later()
    ensures { RunIsLater }
{}
