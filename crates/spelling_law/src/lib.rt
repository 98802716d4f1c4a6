//! Each number has one spelling that is read as it.
//!
//! No code runs here: the function is a law about the definitions of `dyadic`, and its contract is the law. That a
//! number's spelling is read as that number is a law of `dyadic` itself.
#![tactic(auto)]

ghost use Rattle.spelling_law.specs.Laws.{OnlySpellingsRead};

/// Bytes that are read as a number are its spelling.
pub fn only_spellings_read()
    ensures { OnlySpellingsRead }
{}
