// The arguments of a declaration and the parameters of a definition.
ghost use Rattle.std.specs.Prelude.{◌≡◌, IfOk};
ghost use Rattle.smt_sexp.specs.Arena.{rest_of};
ghost use Rattle.smt_script.specs.Commands.{arguments, parameters};
ghost use Rattle.smt_script.specs.CommandAnswers.{FindsForm, FindsShape, arguments_of, parameters_of};

use crate::command::Parameter;
use crate::forms::{any, ends, group, symbol};
use crate::words::{SortForm, sort_named};
use script_fault::{Name, Place};
use smt_sexp::{Leaf, Seen, Sexps};
use std::alloc::{AllocError, Global};

/// The sorts of a declaration's arguments.
#[derive(Clone, Copy, Debug)]
pub(crate) enum Arguments {
    Nothing,
    Some,
    /// Not all have the form of a sort.
    Wrong,
}

/// The parameters of a definition.
#[derive(Debug, Drop)]
pub(crate) enum Parameters<'a> {
    Known(Vec<Parameter<'a>>),
    /// Some are of a sort that is left out.
    Other,
    /// Not all have their form.
    Wrong,
}

/// What stands in the place of a sort, and the place behind it.
pub(crate) fn sort_form(sexps: &Sexps, at: usize) -> Option<(SortForm, usize)>
    ensures { FindsForm sexps.now at result }
{
    match sexps.look(at) {
        Seen::End => None,
        Seen::Leaf(_, Leaf::Symbol(name), after) => Some((sort_named(name.as_slice()), after)),
        Seen::Leaf(_, _, after) => Some((SortForm::NoSort, after)),
        Seen::Group(_, inside, after) => {
            if ends(sexps, inside) {
                Some((SortForm::NoSort, after))
            } else {
                Some((SortForm::Other, after))
            }
        }
    }
}

/// The arguments that stand from a place on.
pub(crate) fn arguments_from(sexps: &Sexps, start: usize) -> Arguments
    ensures { arguments_of result ≡ arguments (rest_of sexps.now start) }
{
    let mut some = false;
    let mut at = start;
    while let Some((form, after)) = sort_form(sexps, at) {
        if let SortForm::NoSort = form {
            return Arguments::Wrong;
        }
        some = true;
        at = after;
    }
    if some {
        Arguments::Some
    } else {
        Arguments::Nothing
    }
}

// The parameter at a place.
fn parameter(sexps: &Sexps, at: usize) -> Option<(Place, &Name, SortForm)>
    ensures { FindsShape sexps.now at result }
{
    let (inside, _) = group(sexps, at)?;
    let (place, name, next) = symbol(sexps, inside)?;
    let (form, next) = sort_form(sexps, next)?;
    if ends(sexps, next) {
        Some((place, name, form))
    } else {
        None
    }
}

/// The parameters that stand from a place on.
pub(crate) fn parameters_from(
    alloc: Global,
    sexps: &Sexps,
    start: usize,
) -> Result<Parameters<'_>, AllocError>
    ensures { IfOk result (λ params. parameters_of params ≡ parameters (rest_of sexps.now start)) }
{
    let mut known = Vec::new(alloc);
    let mut others = false;
    let mut at = start;
    while let Some(after) = any(sexps, at) {
        let Some((place, name, form)) = parameter(sexps, at) else {
            return Ok(Parameters::Wrong);
        };
        match form {
            SortForm::NoSort => return Ok(Parameters::Wrong),
            SortForm::Other => {
                others = true;
                at = after;
            }
            SortForm::One(sort) => {
                known.push(Parameter { place, name, sort })?;
                at = after;
            }
        }
    }
    if others {
        Ok(Parameters::Other)
    } else {
        Ok(Parameters::Known(known))
    }
}
