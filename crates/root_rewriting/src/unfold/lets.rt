// The parts of a `let`.
ghost use Rattle.std.specs.Prelude.{◌≡◌, is_some};
ghost use Rattle.script_model.specs.Reading.{bound_names};
ghost use Rattle.smt_sexp.specs.Arena.{rest_of};
ghost use Rattle.root_rewriting.specs.LetParts.{FindsLet};

use smt_sexp::{Seen, Sexps};
use sort_check::{behind, binding, ends};

// Whether bindings stand from a place on to the end.
fn are_bindings(sexps: &Sexps, start: usize) -> bool
    ensures { result ≡ is_some (bound_names (rest_of sexps.now start)) }
{
    let mut at = start;
    while let Some((_, _, _, after)) = binding(sexps, at) {
        at = after;
    }
    ends(sexps, at)
}

/// The first place of the bindings of a `let` and the place of its body, from what stands behind its word.
pub(crate) fn let_parts(sexps: &Sexps, at: usize) -> Option<(usize, usize)>
    ensures { FindsLet sexps.now at result }
{
    let Seen::Group(_, inside, body) = sexps.look(at) else {
        return None;
    };
    let end = behind(sexps, body)?;
    if !ends(sexps, end) {
        return None;
    }
    if ends(sexps, inside) {
        return None;
    }
    if are_bindings(sexps, inside) {
        Some((inside, body))
    } else {
        None
    }
}
