//! What a certificate's bytes are to a problem, or to the problems of several checks: accepted with a value for each,
//! or refused with a first fault; honest certificates; the texts of the answers.
//!
//! No code runs here: each function is a law about the definitions in `specs/`, and its contract is the law.
#![tactic(auto)]

ghost use Rattle.cert_model.specs.Laws.{HeaderFits, EndIsLast, CoverIsDerived, LemmasHaveNoPoint, CoverCatches, EmptyCoverMeans, PointMeans, TextHasLines, ShortestIsAccepted, CoverIsAccepted, CrossingIsAccepted, PointIsAccepted, TreeTextIsAccepted, TreeTextStands, TreeTextIsHonest, TreeTextBranches, CrossingText, PointText};
ghost use Rattle.cert_model.specs.LeastLaws.{LowerHolds, UpperHolds, LeastHeaderFits, PlainIsAccepted};
ghost use Rattle.cert_model.specs.SessionLaws.{SessionMeans, SessionHeaderFits, SessionTextHasLines, SessionTextIsAccepted, SessionTextStands, LawfulInVersion3, HonestInVersion3};

/// The margin and delta of an accepted certificate are in their limits.
pub fn header_fits()
    ensures { HeaderFits }
{}

/// Nothing follows the line `end` of an accepted certificate.
pub fn end_is_last()
    ensures { EndIsLast }
{}

/// An accepted cover's lemmas and tree are derived by the rules.
pub fn cover_is_derived()
    ensures { CoverIsDerived }
{}

/// No point of a derived lemma's state meets the form at the margin.
#[tactic(auto, using(crate::proofs::Means::derived_lemmas))]
pub fn lemmas_have_no_point()
    ensures { LemmasHaveNoPoint }
{}

/// Each point of the declared box that meets the form at the margin is one of a state that an accepted cover leaves.
#[tactic(auto, using(crate::proofs::Means::cover_catches))]
pub fn cover_catches()
    ensures { CoverCatches }
{}

/// Where an accepted cover leaves nothing, no point of the declared box meets the form at the margin.
#[tactic(auto, using(crate::proofs::Means::empty_cover_means))]
pub fn empty_cover_means()
    ensures { EmptyCoverMeans }
{}

/// An accepted point meets the form at delta, within delta of the declared box (the delta-weakening of Gao, Avigad,
/// Clarke 2012).
pub fn point_means()
    ensures { PointMeans }
{}

/// The verdict of a text of lines is that of the lines.
pub fn text_has_lines()
    ensures { TextHasLines }
{}

/// The shortest cover is accepted wherever the form can't hold at the root.
pub fn shortest_is_accepted()
    ensures { ShortestIsAccepted }
{}

/// A cover that is derived by the rules, written as lines, is accepted.
pub fn cover_is_accepted()
    ensures { CoverIsAccepted }
{}

/// The line for bounds that cross is accepted where they do.
pub fn crossing_is_accepted()
    ensures { CrossingIsAccepted }
{}

/// A point that is shown, written as lines, is accepted.
pub fn point_is_accepted()
    ensures { PointIsAccepted }
{}

/// The text of a cover that is derived by the rules is accepted with the states that its tree leaves; the lines of its
/// main tree stand at the tree's states, so it is honest where they are, and has their branches.
pub fn tree_text_is_accepted()
    ensures accepted { TreeTextIsAccepted }
    ensures standing { TreeTextStands }
    ensures honest { TreeTextIsHonest }
    ensures branches { TreeTextBranches }
{}

/// The text for bounds that cross is accepted, leaves nothing, and has no line at a state.
pub fn crossing_text_is_accepted()
    ensures { CrossingText }
{}

/// The text of a point that is shown is accepted with the point, and has no line at a state.
pub fn point_text_is_accepted()
    ensures { PointText }
{}

/// The values of an accepted session hold, one for each check: a point meets its form at delta; each point of the
/// declared box that meets the form at the margin is one of a state that is left. The lemmas that a part keeps hold of
/// its problem.
pub fn session_means()
    ensures { SessionMeans }
{}

/// The version, margin and delta of an accepted session are in their limits.
pub fn session_header_fits()
    ensures { SessionHeaderFits }
{}

/// The verdict of a session's text is that of its lines.
pub fn session_text_has_lines()
    ensures { SessionTextHasLines }
{}

/// The text of parts that follow the rules is accepted with their values, and the lines of each main tree stand where the
/// tree has them.
pub fn session_text_is_accepted()
    ensures accepted { SessionTextIsAccepted }
    ensures standing { SessionTextStands }
{}

/// A part that follows the rules in version 2 does so in version 3, with the same value and standing; its lines are as
/// honest.
pub fn version_3_reads_version_2()
    ensures lawful { LawfulInVersion3 }
    ensures honest { HonestInVersion3 }
{}

/// Each point of the declared box that meets the form at the margin has a value of the goal that is not below the lower
/// bound of an accepted least value.
pub fn lower_holds()
    ensures { LowerHolds }
{}

/// The point of an accepted least value meets the form at delta, within delta of the declared box, and the goal is there
/// at most the upper end of its enclosure.
pub fn upper_holds()
    ensures { UpperHolds }
{}

/// The margin and delta of an accepted least value are in their limits, and its lines are those of version 2.
pub fn least_header_fits()
    ensures { LeastHeaderFits }
{}

/// What is accepted of a script with a goal as a certificate of its check is so without the goal.
pub fn plain_is_accepted()
    ensures { PlainIsAccepted }
{}
