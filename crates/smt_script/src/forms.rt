// What a form of a command is made of: symbols, groups, any expressions, the end.
ghost use Rattle.std.specs.Prelude.{◌≡◌, Option};
ghost use Rattle.smt_sexp.specs.Arena.{rest_of};
ghost use Rattle.smt_script.specs.Forms.{FindsAny, FindsGroup, FindsNumeral, FindsString, FindsSymbol, is_end};

use script_fault::{Name, Place};
use smt_sexp::{Leaf, Seen, Sexps};

/// The symbol at a place, and the place behind it.
pub(crate) fn symbol(sexps: &Sexps, at: usize) -> Option<(Place, &Name, usize)>
    ensures { FindsSymbol sexps.now at result }
{
    match sexps.look(at) {
        Seen::Leaf(place, Leaf::Symbol(name), after) => Some((place, name, after)),
        _ => None,
    }
}

/// The digits of the numeral at a place, and the place behind it.
pub(crate) fn numeral(sexps: &Sexps, at: usize) -> Option<(&Name, usize)>
    ensures { FindsNumeral sexps.now at result }
{
    match sexps.look(at) {
        Seen::Leaf(_, Leaf::Numeral(digits), after) => Some((digits, after)),
        _ => None,
    }
}

/// The place behind the string at a place.
pub(crate) fn string(sexps: &Sexps, at: usize) -> Option<usize>
    ensures { FindsString sexps.now at result }
{
    match sexps.look(at) {
        Seen::Leaf(_, Leaf::String(_), after) => Some(after),
        _ => None,
    }
}

/// The first place of the group at a place, and the place behind it.
pub(crate) fn group(sexps: &Sexps, at: usize) -> Option<(usize, usize)>
    ensures { FindsGroup sexps.now at result }
{
    match sexps.look(at) {
        Seen::Group(_, inside, after) => Some((inside, after)),
        _ => None,
    }
}

/// The place behind the expression at a place.
pub(crate) fn any(sexps: &Sexps, at: usize) -> Option<usize>
    ensures { FindsAny sexps.now at result }
{
    match sexps.look(at) {
        Seen::End => None,
        Seen::Leaf(_, _, after) => Some(after),
        Seen::Group(_, _, after) => Some(after),
    }
}

/// Whether nothing more stands at a place.
pub(crate) fn ends(sexps: &Sexps, at: usize) -> bool
    ensures { result ≡ is_end (rest_of sexps.now at) }
{
    matches!(sexps.look(at), Seen::End)
}
