//! What is proved of the definitions: each function here does nothing, and its contract is a law.

ghost use Rattle.width_plan.specs.Laws.{EnclosureIsNarrow, SmallIsFine, NothingIsStuck};

/// Over every space within the root whose sides are at most `2^-bits`, an atom that the bits fit has an enclosure narrower
/// than delta minus margin.
pub fn enclosures_are_narrow()
    ensures { EnclosureIsNarrow }
{}

/// Where no axis reaches too far, a space has sides of at most `2^-bits` once each side that can be halved has.
pub fn small_spaces_are_fine()
    ensures { SmallIsFine }
{}

/// With the least width of a plan no state within the root whose sides are small has an atom that is stuck.
pub fn nothing_is_stuck()
    ensures { NothingIsStuck }
{}
