// Why a step or an end of a patch is refused.
use std::alloc::AllocError;

/// Why a step or an end of a patch is refused.
#[derive(Clone, Copy, PartialEq, Eq, Debug)]
pub enum PatchRefusal {
    /// The atom is not marked yes.
    NotYes,
    /// The form may hold without the atom, or without one of each group.
    NotForced,
    /// The lemma does not cover the state.
    NotCovered,
    /// Something is left.
    NotFalse,
    /// There is no such axis to part: not a Real one that can be halved, or not a Bool one.
    NotInside,
    /// The atom is not a stuck one, or an axis is not small or a Bool not decided.
    NotStuck,
    /// The rule holds, and a search should not yet use it here.
    NotHonest,
    /// The patch has ended.
    Ended,
    /// Narrowing leaves nothing.
    IsVoid,
    /// The atom is marked, or the Bool axis decided.
    Decided,
    /// The atom is not marked no, or is an equation.
    NotNo,
    /// The atoms can't be combined: one is not marked, or an equation that is marked no; or they do not ascend, a
    /// multiplier is 0, or there are none or more than the version allows. Or the version has no ends by squares.
    NotCombinable,
    /// They are no groups: one is empty or does not ascend, or an atom of each can be chosen in more than 64 ways. Or the
    /// version has no branches by groups.
    NotGroups,
    /// There are more than 8,000 numbers, as a line has at most.
    TooLong,
    /// Out of memory.
    Memory,
}
