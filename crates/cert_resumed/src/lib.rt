//! Certificates that go on from others: what they are, and that they are accepted.
//!
//! A cover with open or stuck states goes on where trees stand for them: the lines that were read stay, and what is left
//! is what the trees leave. One relation says so of lines (`Refines`). No code runs here: each function is a law about the
//! definitions in `specs/`, and its contract is the law.
#![tactic(auto)]

ghost use Rattle.cert_resumed.specs.Laws.{GraftRefines, LawfulWithMore, LeftFits, LeftStays, LemmasFit, ReadIsSound, ResumedBranches, ResumedIsAccepted, ResumedIsHonest};

/// Lines whose open and stuck ones are replaced by trees refine them.
pub fn graft_refines()
    ensures { GraftRefines }
{}

/// The header of a cover that was read is in its limits, no bounds of the declared box cross, and the states that stayed
/// are those of the lines that leave theirs, in order.
pub fn read_is_sound()
    ensures { ReadIsSound }
{}

/// More lemmas change nothing of a lawful tree.
pub fn lawful_with_more()
    ensures { LawfulWithMore }
{}

/// A state that stayed may stay again.
pub fn left_stays()
    ensures { LeftStays }
{}

/// A state that stayed is one of the problem, within the root.
pub fn left_fits()
    ensures { LeftFits }
{}

/// No point of the state of a lemma that was read meets the form at the margin.
pub fn lemmas_fit()
    ensures { LemmasFit }
{}

/// A cover that goes on from an accepted one is accepted, with what its trees leave; it has the branches of both, and is
/// honest where both are.
pub fn resumed_is_accepted()
    ensures accepted { ResumedIsAccepted }
    ensures branches { ResumedBranches }
    ensures honest { ResumedIsHonest }
{}
