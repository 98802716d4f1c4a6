// What names stand for: the nearest of `let` and of parameters, and then those of the top, the last first.
ghost use Rattle.problem_build.specs.Names.{IsHead};

use crate::locals::Locals;
use crate::top::{Known, TopTable};
use script_fault::Name;
use smt_script::{Parameter, Sort};
use sort_check::{Operator, operator_named};
use value_build::Value;

/// What a name stands for.
#[derive(Clone, Copy, Debug)]
pub(crate) enum Head<'p, 'a> {
    Operator(Operator),
    Local(Value),
    /// A declared constant, with the number of names before it.
    Constant(usize, u32, Sort),
    /// A definition, with the number of names before it.
    Function(usize, &'p [Parameter<'a>], usize),
}

/// What a name stands for.
pub(crate) fn head_of<'p, 'a>(
    top: &TopTable<'p, 'a>,
    visible: usize,
    locals: &Locals<'_>,
    name: &Name,
) -> Option<Head<'p, 'a>>
    ensures { IsHead name.now top.now visible locals.now result }
{
    if let Some(operator) = operator_named(name.as_slice()) {
        return Some(Head::Operator(operator));
    }
    if let Some(value) = locals.value_of(name) {
        return Some(Head::Local(value));
    }
    let (before, known) = top.known(visible, name)?;
    match known {
        Known::Constant(axis, sort) => Some(Head::Constant(before, axis, sort)),
        Known::Function(parameters, body) => Some(Head::Function(before, parameters, body)),
    }
}
