//! What is proved of the definitions: each function here does nothing, and its contract is a law.

ghost use Rattle.cover_model.specs.Laws.{EnclosureHolds, EnclosureIsIsotone, NarrowingKeeps, NarrowingOffKeeps, NarrowingLiesWithin, MayIsTrue, SureMeans, ShownPointMeets, NarrowsSoundly, RuleKeeps, TreeKeeps, ClosedTreeHasNone, RuleLiesWithin, TreeLiesWithin, CoveredPoints, RootHasDeclaredBox, CrossedBoxIsEmpty, MiddleLiesWithin, RootIsUpright, SomeAtomIsStuck, CombiningKeeps, CombiningLiesWithin, SquaresAreCompleted};
ghost use Rattle.cover_model.specs.Carried.{CarriedLemmaHolds};
ghost use Rattle.cover_model.specs.CombinationLists.{ListsAreSwept};

/// The enclosure of a term over a space holds the term's value at each point of the space.
pub fn enclosures_hold()
    ensures { EnclosureHolds }
{}

/// Over a space within another, a term's enclosure lies within the other's.
pub fn enclosures_are_isotone()
    ensures { EnclosureIsIsotone }
{}

/// Narrowing drops no point of the space at which the atom holds, and is not empty where there is one.
pub fn narrowing_keeps()
    ensures { NarrowingKeeps }
{}

/// Narrowing by an atom's off-range drops no point of the space at which the atom fails, and is not empty where there is
/// one.
pub fn narrowing_off_keeps()
    ensures { NarrowingOffKeeps }
{}

/// The narrowed space lies within the space, by a range or an off-range.
pub fn narrowing_lies_within()
    ensures { NarrowingLiesWithin }
{}

/// `may` is true at each state that has a point that meets the form.
pub fn may_is_true()
    ensures { MayIsTrue }
{}

/// Where `sure` holds over a space, each of its points meets the form at that loosening.
pub fn sure_holds()
    ensures { SureMeans }
{}

/// A point that is shown meets the form at delta.
pub fn shown_points_meet()
    ensures { ShownPointMeets }
{}

/// A point of a state, where narrowing by it is lawful, is one of the space that the narrowing leaves.
pub fn narrows_soundly()
    ensures { NarrowsSoundly }
{}

/// A point of a state that meets the form is a point of some state that a rule leaves.
pub fn rules_keep()
    ensures { RuleKeeps }
{}

/// It is a point of some state that stays of a lawful tree.
pub fn trees_keep()
    ensures { TreeKeeps }
{}

/// Where no state stays of a lawful tree, its state has no point that meets the form.
pub fn closed_trees_have_none()
    ensures { ClosedTreeHasNone }
{}

/// What a rule leaves lies within its state.
pub fn rules_lie_within()
    ensures { RuleLiesWithin }
{}

/// What stays of a lawful tree lies within its state.
pub fn trees_lie_within()
    ensures { TreeLiesWithin }
{}

/// A point of a state is one of each state that covers it.
pub fn covered_points()
    ensures { CoveredPoints }
{}

/// Each point of the declared box is one of the root state.
pub fn root_has_declared_box()
    ensures { RootHasDeclaredBox }
{}

/// Where the bounds of an axis cross, the declared box has no point.
pub fn crossed_box_is_empty()
    ensures { CrossedBoxIsEmpty }
{}

/// The middle of a space lies within the space, and has its ends in order and on the grid.
pub fn middle_lies_within()
    ensures { MiddleLiesWithin }
{}

/// The root space of a problem whose bounds do not cross has its ends in order and on the grid.
pub fn root_is_upright()
    ensures { RootIsUpright }
{}

/// Where no axis is left to halve and the form is not shown at the middle, there is a first atom that is stuck.
pub fn some_atom_is_stuck()
    ensures { SomeAtomIsStuck }
{}

/// A combination, expanded at any centre, drops no point of the space at which the values of all its atoms lie in their
/// ranges, and is not empty where there is one.
pub fn combining_keeps()
    ensures { CombiningKeeps }
{}

/// What a combination leaves lies within the space.
pub fn combining_lies_within()
    ensures { CombiningLiesWithin }
{}

/// A completed square holds the sum of its parts, and what is left to it holds the variable's difference.
pub fn squares_are_completed()
    ensures { SquaresAreCompleted }
{}

/// The sweep over lists, as a program keeps them, is the sweep over the function of their entries.
pub fn lists_are_swept()
    ensures { ListsAreSwept }
{}

/// A lemma of a problem is one of each problem that goes on from it: what is asked besides takes no point back.
pub fn carried_lemmas_hold()
    ensures { CarriedLemmaHolds }
{}
