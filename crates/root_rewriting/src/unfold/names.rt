// What names stand for: the nearest of `let` and of parameters, then those of the top, the last first, and then `sqrt`.
ghost use Rattle.root_rewriting.specs.TreeNames.{IsHead};

use crate::unfold::locals::Locals;
use crate::unfold::top::{Known, TopTable};
use script_fault::{Name, Place};
use smt_script::Parameter;
use sort_check::{Operator, operator_named};

/// What a name stands for.
#[derive(Clone, Copy, Debug)]
pub(crate) enum Head<'p, 'a> {
    Operator(Operator),
    Local(usize),
    /// A declared constant, by its command's place and its name.
    Constant(Place, &'a Name),
    /// A definition, with the number of names before it.
    Function(usize, &'p [Parameter<'a>], usize),
    Sqrt,
}

/// What a name stands for.
pub(crate) fn head_of<'p, 'a>(
    top: &TopTable<'p, 'a>,
    visible: usize,
    locals: &Locals<'_>,
    name: &Name,
) -> Option<Head<'p, 'a>>
    ensures { IsHead name.now top.now visible locals.now result }
{
    if let Some(operator) = operator_named(name.as_slice()) {
        return Some(Head::Operator(operator));
    }
    if let Some(node) = locals.node_of(name) {
        return Some(Head::Local(node));
    }
    match top.known(visible, name) {
        Some((_, Known::Constant(place, name))) => Some(Head::Constant(place, name)),
        Some((before, Known::Function(parameters, body))) => {
            Some(Head::Function(before, parameters, body))
        }
        None => {
            if name.as_slice() == b"sqrt".as_slice() {
                Some(Head::Sqrt)
            } else {
                None
            }
        }
    }
}
