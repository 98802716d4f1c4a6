// The axes of a script's declared constants.
ghost use Rattle.std.specs.Prelude.{◌<◌, length, IfOk, Some};
ghost use Rattle.dyadic.specs.Point.{real_sort};
ghost use Rattle.poly_graph.specs.Problem as problem;
ghost use Rattle.smt_script.specs.Views.{sort_of};
ghost use Rattle.declared_box.specs.Calls.{AnswersBy, AreDeclared, HaveSortsOf};
ghost use Rattle.declared_box.specs.Table.{AreBefore};
ghost use Rattle.declared_box.specs.Views.{interval_of};
ghost use Rattle.declared_box.specs.Axes.{constant_of, Declares, IsAxisOf, IsBoundsError, fault_of};

use crate::interval::Interval;
use crate::kept::is_too_wide;
use crate::sweep::tightest;
use crate::table::BoundTable;
use poly_graph::{Axis, Declared};
use script_fault::{FaultKind, Name, Place, ReadError};
use smt_script::Sort;
use std::alloc::Global;

/// A declared constant, with the place of the command that declares it.
#[derive(Clone, Copy, Debug)]
pub struct Constant<'a> {
    pub place: Place,
    pub name: &'a Name,
    pub sort: Sort,
}

/// Why an axis has no ends.
#[derive(Clone, Copy, Debug)]
pub enum EndFault {
    Missing,
    TooWide,
}

// What is declared of a Real constant with these ends.
fn real(ends: Interval) -> Result<Declared, EndFault>
    ensures { Declares real_sort (interval_of ends) result }
{
    let Some(low) = ends.low else {
        return Err(EndFault::Missing);
    };
    let Some(high) = ends.high else {
        return Err(EndFault::Missing);
    };
    if is_too_wide(low) || is_too_wide(high) {
        return Err(EndFault::TooWide);
    }
    Ok(Declared::Real(low, high))
}

// What is declared of a constant of this sort with these ends.
fn declared(sort: Sort, ends: Interval) -> Result<Declared, EndFault>
    ensures { Declares (sort_of sort) (interval_of ends) result }
{
    match sort {
        Sort::Real => real(ends),
        Sort::Bool => Ok(Declared::Bool),
    }
}

// The fault of this constant.
fn bounds_error(alloc: Global, constant: &Constant, fault: EndFault) -> ReadError
    ensures { IsBoundsError result (Some (constant_of constant.now, fault_of fault)) }
{
    let Ok(name) = Name::from_slice(alloc, constant.name.as_slice()) else {
        return ReadError::Memory;
    };
    match fault {
        EndFault::Missing => ReadError::at(constant.place, FaultKind::NoBound(name)),
        EndFault::TooWide => ReadError::at(constant.place, FaultKind::BoundTooWide(name)),
    }
}

// The axis of this constant with these ends.
fn axis(alloc: Global, constant: &Constant, ends: Interval) -> Result<Axis, ReadError>
    ensures { IsAxisOf (constant_of constant.now) (interval_of ends) result }
{
    match declared(constant.sort, ends) {
        Ok(declared) => {
            let name = Vec::from_slice(alloc, constant.name.as_slice())?;
            Ok(Axis { name, declared })
        }
        Err(fault) => Err(bounds_error(alloc, constant, fault)),
    }
}

/// The axes of these constants, in order: a Real one lies between the greatest lower and the least upper bound that
/// these lists of the table give it, or between minus `bound` and `bound` where they give none.
///
/// # Errors
///
/// The first constant without an end on one side, or with an end that is no number that is kept and whose size is
/// above 2^32; a missing end comes first.
pub fn declare(
    alloc: Global,
    table: &BoundTable,
    roots: &[u32],
    bound: Option<u32>,
    constants: &[Constant],
) -> Result<Vec<Axis>, ReadError>
    requires { AreBefore (length table.now) roots.now }
    ensures answers { AnswersBy table.now roots.now bound constants.now result }
    ensures bounds { IfOk result AreDeclared }
    ensures sorts { IfOk result (HaveSortsOf constants.now) }
{
    let intervals = tightest(alloc, table, roots, constants.len())?;
    let mut axes = Vec::new(alloc);
    for (k, constant) in constants.iter().enumerate() {
        axes.push(axis(alloc, constant, intervals[k].ended(bound))?)?;
    }
    Ok(axes)
}
