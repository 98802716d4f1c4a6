// What stands between parentheses.
use script_fault::Name;

/// The words that are no symbols unless they are quoted (SMT-LIB 2.6, section 3.1).
#[derive(Clone, Copy, Debug, PartialEq, Eq)]
pub enum Reserved {
    Bang,
    Underscore,
    As,
    Let,
    Exists,
    Forall,
    Match,
    Par,
}

/// A token that is no parenthesis.
#[derive(Debug, Drop)]
pub enum Leaf {
    /// The digits of a whole number.
    Numeral(Name),
    /// The digits before the point, and those after it.
    Decimal(Name, Name),
    /// A symbol, without the bars of a quoted one.
    Symbol(Name),
    Reserved(Reserved),
    /// The text of a string, in which two quotes have become one.
    String(Name),
    /// A keyword's name, without its colon.
    Keyword(Name),
}
