//! The sorts and names of a script.
//!
//! `check` answers the same script, all of whose names and sorts fit, or its first fault; `check_with_roots` the first fault
//! where `sqrt` is a function of one Real; `check_script` the first fault of a script with one check.
//! `single` answers what is in force at a script's only check; `Force` keeps what is in force while its steps are taken. No
//! term is built here.
#![tactic(auto)]

ghost use Rattle.sort_check.specs.SortAnswers.{IsCheckAnswer, IsRootsAnswer, IsScriptAnswer};

mod commands;
mod expressions;
mod fault;
mod force;
mod forms;
mod frames;
mod locals;
mod names;
mod one_check;
mod operators;
mod scope;
mod stop;
mod typed;

pub use force::Force;
pub use forms::{behind, binding, ends, let_form};
pub use one_check::{check_place, only_script, single};
pub use operators::{Operator, operator_named};
use scope::Theory;
use script_fault::ReadError;
use smt_script::{Course, Script};
use std::alloc::Global;
pub use typed::{Typed, TypedCourse};

/// The same script, or the first fault of its names and sorts.
pub fn check<'a>(alloc: Global, course: Course<'a>) -> Result<TypedCourse<'a>, ReadError>
    ensures { IsCheckAnswer course.entry result }
{
    match commands::sorts(alloc, Theory::Reals, &course) {
        Ok(()) => Ok(TypedCourse { course }),
        Err(stop) => Err(fault::owned(alloc, stop)),
    }
}

/// The first fault of the names and sorts of a script in which `sqrt` is a function of one Real.
pub fn check_with_roots(alloc: Global, course: &Course<'_>) -> Result<(), ReadError>
    ensures { IsRootsAnswer course.now result }
{
    match commands::sorts(alloc, Theory::Roots, course) {
        Ok(()) => Ok(()),
        Err(stop) => Err(fault::owned(alloc, stop)),
    }
}

/// The first fault of the names and sorts of a script with one check.
pub fn check_script(alloc: Global, script: &Script<'_>) -> Result<(), ReadError>
    ensures { IsScriptAnswer script.now result }
{
    match commands::script_sorts(alloc, script) {
        Ok(()) => Ok(()),
        Err(stop) => Err(fault::owned(alloc, stop)),
    }
}
