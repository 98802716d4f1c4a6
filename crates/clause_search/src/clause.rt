// What a clause says beside the literals that are known.
ghost use Rattle.std.specs.Prelude.{◌↔◌, IfSome, IfNone, IsTrue, Contains};
ghost use Rattle.clause_search.specs.Found.{IsOther, IsFree, NoneFree};
ghost use Rattle.clause_search.specs.Pairs.{Chooses, Rewatches};
ghost use Rattle.clause_search.specs.Table.{is_false};

use crate::Literal;
use crate::table::Table;

/// What a clause, or all clauses, say.
#[derive(Clone, Copy)]
pub enum Found {
    /// Each has a true literal, or two different ones of which nothing is known.
    Settled,
    /// One leaves this literal alone, of which nothing is known.
    Unit(Literal),
    /// Each literal of one is false.
    Conflict,
}

// Whether the literal is this one, if one is given.
fn is_other(other: Option<Literal>, literal: Literal) -> bool
    ensures { IsTrue result ↔ IsOther other literal }
{
    match other {
        Some(o) => literal == o,
        None => false,
    }
}

/// A literal of the clause that is not known to be false, and is not this other one.
pub fn find_free(values: &Table, clause: &[Literal], other: Option<Literal>) -> Option<Literal>
    ensures some { IfSome result (IsFree values.now clause.now other) }
    ensures none { IfNone result (NoneFree values.now clause.now other) }
{
    for literal in clause {
        if !values.is_false(*literal) && !is_other(other, *literal) {
            return Some(*literal);
        }
    }
    None
}

/// The literals of a clause that are to be watched, or what it says.
#[derive(Clone, Copy)]
pub enum Choice {
    /// These two.
    Watch(Literal, Literal),
    /// It leaves this literal alone, of which nothing is known.
    Unit(Literal),
    /// Each literal is false.
    Conflict,
}

/// Two literals that are not false, or a true one alone.
pub fn choose(values: &Table, clause: &[Literal]) -> Choice
    ensures { Chooses values.now clause.now result }
{
    let Some(first) = find_free(values, clause, None) else {
        return Choice::Conflict;
    };
    if values.is_true(first) {
        return Choice::Watch(first, first);
    }
    match find_free(values, clause, Some(first)) {
        Some(second) => Choice::Watch(first, second),
        None => Choice::Unit(first),
    }
}

/// Which literals to watch after this one has become false.
pub fn rewatch(
    values: &Table,
    clause: &[Literal],
    literal: Literal,
    first: Literal,
    second: Literal,
) -> Choice
    requires first { Contains clause.now first }
    requires second { Contains clause.now second }
    requires known { IsTrue (is_false values.now literal) }
    ensures { Rewatches values.now clause.now literal first second result }
{
    let is_first = first == literal;
    if !is_first && second != literal {
        return Choice::Watch(first, second);
    }
    let other = if is_first { second } else { first };
    if values.is_true(other) {
        return Choice::Watch(first, second);
    }
    match find_free(values, clause, Some(other)) {
        Some(free) if is_first => Choice::Watch(free, second),
        Some(free) => Choice::Watch(first, free),
        None if values.is_false(other) => Choice::Conflict,
        None => Choice::Unit(other),
    }
}
