// What names stand for: those of the top by their bytes, and the nearest of `let` and of parameters before them.
ghost use Rattle.std.specs.Prelude.{◌≡◌, [], map};
ghost use Rattle.script_model.specs.Reading.{found, operators};
ghost use Rattle.smt_script.specs.Views.{parameter_of, sort_of};
ghost use Rattle.sort_check.specs.Calls.{LooksUp, LooksUpHead};
ghost use Rattle.sort_check.specs.Sorts.{fit, is_operator, is_taken, name_in, one_real, same_sort};
ghost use Rattle.sort_check.specs.Views.{names_back, names_of, sorts_seen};

use crate::locals::{Level, Locals};
use crate::operators::{Operator, operator_named};
use script_fault::Name;
use smt_script::{Parameter, Sort};
use std::collections::HashMap;

/// What a name of the top stands for.
#[derive(Clone, Copy, Debug)]
pub(crate) enum Known<'p, 'a> {
    Value(Sort),
    Function(&'p [Parameter<'a>], Sort),
    /// The function `sqrt` of one Real, which no command has defined.
    Root,
}

/// What a name stands for.
#[derive(Clone, Copy, Debug)]
pub(crate) enum Head<'p, 'a> {
    Operator(Operator),
    Known(Known<'p, 'a>),
}

/// What a name stands for that is no operator.
fn lookup<'p, 'a>(
    top: &HashMap<&'a [u8], Known<'p, 'a>>,
    locals: &Locals<'a>,
    name: &Name,
) -> Option<Known<'p, 'a>>
    ensures { LooksUp top.now locals.now name.now result }
{
    if let Some(sort) = locals.sort_of(name) {
        return Some(Known::Value(sort));
    }
    top.get(name.as_slice()).copied()
}

/// What a name stands for.
pub(crate) fn head_of<'p, 'a>(
    top: &HashMap<&'a [u8], Known<'p, 'a>>,
    locals: &Locals<'a>,
    name: &Name,
) -> Option<Head<'p, 'a>>
    ensures { LooksUpHead top.now locals.now name.now result }
{
    if let Some(operator) = operator_named(name.as_slice()) {
        return Some(Head::Operator(operator));
    }
    let known = lookup(top, locals, name)?;
    Some(Head::Known(known))
}

/// Whether a name is a symbol of the theories.
pub(crate) fn is_operator(name: &Name) -> bool
    ensures { result ≡ is_operator (found name.now operators) }
{
    operator_named(name.as_slice()).is_some()
}

// Whether a name stands among these.
fn is_among(before: &Level<'_>, name: &Name) -> bool
    ensures { result ≡ name_in name.now (names_of (map parameter_of before.now)) }
{
    before.sort_of(name).is_some()
}

/// Whether a name is a symbol of the theories, or stands among these.
pub(crate) fn is_taken(before: &Level<'_>, name: &Name) -> bool
    ensures { result ≡ is_taken (names_back (map parameter_of before.now) []) name.now }
{
    let operator = is_operator(name);
    let among = is_among(before, name);
    operator || among
}

/// Whether arguments of these sorts fit the parameters.
pub(crate) fn fits(parameters: &[Parameter<'_>], sorts: &[Sort]) -> bool
    ensures { result ≡ fit (map parameter_of parameters.now) (sorts_seen sorts.now) }
{
    let mut left = parameters;
    let mut given = sorts;
    while let [parameter, more @ ..] = left {
        let [sort, later @ ..] = given else {
            return false;
        };
        if !is_same(parameter.sort, *sort) {
            return false;
        }
        left = more;
        given = later;
    }
    given.is_empty()
}

/// Whether it is one sort, and Real.
pub(crate) fn is_one_real(sorts: &[Sort]) -> bool
    ensures { result ≡ one_real (sorts_seen sorts.now) }
{
    matches!(sorts, [Sort::Real])
}

/// Whether two sorts are one.
pub(crate) fn is_same(a: Sort, b: Sort) -> bool
    ensures { result ≡ same_sort (sort_of a) (sort_of b) }
{
    match (a, b) {
        (Sort::Real, Sort::Real) => true,
        (Sort::Bool, Sort::Bool) => true,
        _ => false,
    }
}
