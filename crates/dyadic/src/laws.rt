//! What is proved of the definitions: each function here does nothing, and its contract is a law.

ghost use Rattle.dyadic.specs.Laws.{DownIsNearest, UpIsNearest, DownRises, UpRises, RootDownIsNearest, RootUpIsNearest, SpellingReadsBack};

/// Rounding gives the nearest number of the grid on its side, or an infinity where there is none.
pub fn rounding_is_nearest()
    ensures down { DownIsNearest }
    ensures up { UpIsNearest }
{}

/// Rounding keeps the order of fractions.
pub fn rounding_keeps_order()
    ensures down { DownRises }
    ensures up { UpRises }
{}

/// A rounded root is the nearest number of the grid on its side.
pub fn roots_are_nearest()
    ensures down { RootDownIsNearest }
    ensures up { RootUpIsNearest }
{}

/// The spelling of a number reads back as that number.
pub fn spelling_reads_back()
    ensures { SpellingReadsBack }
{}
