// The forms of expressions: their ends, and the bindings of a `let`.
ghost use Rattle.std.specs.Prelude.{◌≡◌, ◌<◌, Option, is_some};
ghost use Rattle.script_model.specs.Reading.{bound_names};
ghost use Rattle.smt_sexp.specs.Arena.{rest_of};
ghost use Rattle.smt_script.specs.Forms.{FindsAny, is_end};
ghost use Rattle.sort_check.specs.Forms.{FindsBinding, FindsLet};

use script_fault::{Name, Place};
use smt_sexp::{Leaf, Seen, Sexps};

/// The place behind the expression at a place.
pub fn behind(sexps: &Sexps, at: usize) -> Option<usize>
    ensures { FindsAny sexps.now at result }
{
    match sexps.look(at) {
        Seen::End => None,
        Seen::Leaf(_, _, after) => Some(after),
        Seen::Group(_, _, after) => Some(after),
    }
}

/// Whether nothing more stands at a place.
pub fn ends(sexps: &Sexps, at: usize) -> bool
    ensures { result ≡ is_end (rest_of sexps.now at) }
{
    matches!(sexps.look(at), Seen::End)
}

/// The binding at a place: where its name stands, the name, the place of its expression, the place behind it.
pub fn binding(sexps: &Sexps, at: usize) -> Option<(Place, &Name, usize, usize)>
    ensures { FindsBinding sexps.now at result }
{
    let Seen::Group(_, inside, after) = sexps.look(at) else {
        return None;
    };
    let Seen::Leaf(place, Leaf::Symbol(name), body) = sexps.look(inside) else {
        return None;
    };
    let end = behind(sexps, body)?;
    if ends(sexps, end) {
        Some((place, name, body, after))
    } else {
        None
    }
}

// Whether bindings stand from a place on to the end.
fn are_bindings(sexps: &Sexps, start: usize) -> bool
    ensures { result ≡ is_some (bound_names (rest_of sexps.now start)) }
{
    let mut at = start;
    while let Some((_, _, _, after)) = binding(sexps, at) {
        at = after;
    }
    ends(sexps, at)
}

/// The first place of the bindings of a `let` and the place of its body, from what stands behind its word.
pub fn let_form(sexps: &Sexps, at: usize) -> Option<(usize, usize)>
    ensures { FindsLet sexps.now at result }
{
    let Seen::Group(_, inside, body) = sexps.look(at) else {
        return None;
    };
    let end = behind(sexps, body)?;
    if !ends(sexps, end) {
        return None;
    }
    if ends(sexps, inside) {
        return None;
    }
    if are_bindings(sexps, inside) {
        Some((inside, body))
    } else {
        None
    }
}
