// The script of a script's only check.
ghost use Rattle.std.specs.Prelude.{◌≡◌, IfOk};
ghost use Rattle.smt_script.specs.Views.{step_of};
ghost use Rattle.smt_sexp.specs.declared.sexps.Sexps.{Sexps};
ghost use Rattle.sort_check.specs.Single.{IsOnly, IsSecond, IsSingle, StandsAtCheck, check_place, seen_place};

use crate::force::Force;
use crate::typed::{Typed, TypedCourse};
use script_fault::{FaultKind, Place, ReadError};
use smt_script::{Command, Course, Script, Step};
use smt_sexp::Sexps;
use std::alloc::{AllocError, Global};

/// What is in force at the only check of steps, with the check.
///
/// # Errors
///
/// A second check is left out of the language. Where there is none, no check is.
pub fn only_script<'a>(alloc: Global, course: Course<'a>) -> Result<Script<'a>, ReadError>
    ensures { IsOnly course.entry result }
{
    let Course { sexps, steps } = course;
    if let Some(place) = second_check(steps.as_slice()) {
        return Err(ReadError::at(place, FaultKind::LeftOut));
    }
    match at_check(alloc, sexps, steps)? {
        Some(script) => Ok(script),
        None => Err(ReadError::at(Place { line: 0, column: 0 }, FaultKind::NoCheck)),
    }
}

/// What is in force at a script's only check, with the check, where names and sorts are without a fault.
///
/// # Errors
///
/// Those of `only_script`.
pub fn single<'a>(alloc: Global, typed: TypedCourse<'a>) -> Result<Typed<'a>, ReadError>
    ensures { IsSingle typed.entry result }
{
    let script = only_script(alloc, typed.course)?;
    Ok(Typed { script })
}

/// The place of a check.
pub fn check_place(step: &Step<'_>) -> Option<Place>
    ensures { (s : Sexps) → seen_place result ≡ check_place (step_of s step.now) }
{
    match step {
        Step::Command(Command::Check(place)) => Some(*place),
        _ => None,
    }
}

// The place of the second check among steps.
fn second_check(steps: &[Step<'_>]) -> Option<Place>
    ensures { IsSecond steps.now result }
{
    let mut checked = false;
    let mut rest = steps;
    while let [first, later @ ..] = rest {
        if let Some(place) = check_place(first) {
            if checked {
                return Some(place);
            }
            checked = true;
        }
        rest = later;
    }
    None
}

// What is in force at the first check among steps, with the check.
fn at_check<'a>(
    alloc: Global,
    sexps: &'a Sexps,
    steps: Vec<Step<'a>>,
) -> Result<Option<Script<'a>>, AllocError>
    ensures { IfOk result (StandsAtCheck sexps.now steps.entry.items) }
{
    let mut force = Force::new(alloc, sexps);
    let mut left = steps;
    left.reverse();
    while let Some(step) = left.pop() {
        if let Some(place) = check_place(&step) {
            force.script.commands.push(Command::Check(place))?;
            return Ok(Some(force.script));
        }
        force.take(step)?;
    }
    Ok(None)
}
