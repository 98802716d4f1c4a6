// The sorts and names of what a script does, one step after the other.
ghost use Rattle.std.specs.Prelude.{◌≡◌, ◌≤◌, [], map, OnOk};
ghost use Rattle.script_model.specs.Sexp as sexp;
ghost use Rattle.script_model.specs.Reading.{Names};
ghost use Rattle.smt_script.specs.Views.{command_of, commands_in, parameter_of, steps_in};
ghost use Rattle.smt_sexp.specs.Arena.{expression_at};
ghost use Rattle.smt_sexp.specs.Views.{place_of};
ghost use Rattle.sort_check.specs.Calls.{FindsAmong, FindsWithin, StepsFrom, faults_asked, wanted_sort};
ghost use Rattle.sort_check.specs.Levels.{course_fault_in};
ghost use Rattle.sort_check.specs.Scopes.{FollowsCommand, FollowsStep};
ghost use Rattle.sort_check.specs.Sorts.{Sorted, known, new_name, sort_fault, taken_parameter};
ghost use Rattle.sort_check.specs.Views.{Knows, theory_names};
ghost use Rattle.sort_check.specs.Steps.{FindsFault};

use crate::expressions::{expression, terms};
use crate::locals::{Level, Locals};
use crate::names::{Known, is_operator, is_same, is_taken};
use crate::scope::{Scope, Theory, stays, theory_top};
use crate::stop::{Fault, Stop};
use script_fault::{MOST_AXES, Name, Place};
use smt_script::{Command, Course, Parameter, Script, Sort, Step};
use smt_sexp::{Seen, Sexps};
use std::alloc::Global;
use std::collections::HashMap;

/// The first fault of the names and sorts of a script, where the names of the theory are known before its first command.
pub(crate) fn sorts<'p, 'a>(
    alloc: Global,
    theory: Theory,
    course: &'p Course<'a>,
) -> Result<(), Stop<'a>>
    ensures { FindsFault result (course_fault_in (theory_names theory) (steps_in course.now)) }
{
    let mut scope = Scope::new(alloc, theory)?;
    let mut rest = course.steps.as_slice();
    while let [first, later @ ..] = rest {
        follow(alloc, theory, course.sexps, &mut scope, first)?;
        rest = later;
    }
    Ok(())
}

/// The first fault of the names and sorts of a script with one check.
pub(crate) fn script_sorts<'p, 'a>(alloc: Global, script: &'p Script<'a>) -> Result<(), Stop<'a>>
    ensures { FindsFault result (sort_fault (commands_in script.now)) }
{
    let mut top = theory_top(alloc, Theory::Reals)?;
    let mut count = 0;
    let mut rest = script.commands.as_slice();
    while let [first, later @ ..] = rest {
        count = step(alloc, script.sexps, &mut top, count, first)?;
        rest = later;
    }
    Ok(())
}

// A step from what is in force before it to what is in force behind it.
fn follow<'p, 'a>(
    alloc: Global,
    theory: Theory,
    sexps: &'a Sexps,
    scope: &mut Scope<'p, 'a>,
    first: &'p Step<'a>,
) -> Result<(), Stop<'a>>
    requires { scope.old.constants ≤ 1024 }
    ensures { FollowsStep theory sexps.now scope.old scope.new first.now result }
{
    match first {
        Step::Command(command) => add(alloc, sexps, scope, command),
        Step::Push(_, count) => {
            scope.open(*count)?;
            Ok(())
        }
        Step::Pop(_, count) => {
            scope.close(*count);
            Ok(())
        }
        Step::Reset(_) => {
            *scope = Scope::new(alloc, theory)?;
            Ok(())
        }
        Step::Values(_, terms) => asked(alloc, sexps, &scope.top, *terms),
    }
}

// A command, which stays in force where it is a declaration, a definition, an assertion or a goal.
fn add<'p, 'a>(
    alloc: Global,
    sexps: &'a Sexps,
    scope: &mut Scope<'p, 'a>,
    command: &'p Command<'a>,
) -> Result<(), Stop<'a>>
    requires { scope.old.constants ≤ 1024 }
    ensures { FollowsCommand sexps.now scope.old scope.new command.now result }
{
    scope.constants = step(alloc, sexps, &mut scope.top, scope.constants, command)?;
    if !stays(command) {
        return Ok(());
    }
    scope.force.push(command)?;
    Ok(())
}

// The fault of terms that are asked for, which stand from a place on.
fn asked<'p, 'a>(
    alloc: Global,
    sexps: &'a Sexps,
    top: &HashMap<&'a [u8], Known<'p, 'a>>,
    start: usize,
) -> Result<(), Stop<'a>>
    ensures { FindsAmong top.now (faults_asked sexps.now start) result }
{
    terms(alloc, sexps, top, start)?;
    Ok(())
}

// A command, after so many constants.
fn step<'p, 'a>(
    alloc: Global,
    sexps: &'a Sexps,
    top: &mut HashMap<&'a [u8], Known<'p, 'a>>,
    count: usize,
    command: &'p Command<'a>,
) -> Result<usize, Stop<'a>>
    requires { count ≤ 1024 }
    ensures { StepsFrom top.old top.new count (command_of sexps.now command.now) result }
{
    match command {
        Command::Declare(place, name, sort) => {
            is_new(top, *place, name)?;
            if count >= MOST_AXES {
                return Err(Stop::Fault(*place, Fault::TooManyAxes));
            }
            top.insert(name.as_slice(), Known::Value(*sort))?;
            Ok(count + 1)
        }
        Command::Define(place, name, parameters, sort, body) => {
            is_new(top, *place, name)?;
            let mut bound = Level::new(alloc);
            are_new(parameters.as_slice(), &mut bound)?;
            let locals = Locals::new(alloc).behind(alloc, bound)?;
            wanted(alloc, sexps, top, locals, *body, *sort)?;
            top.insert(
                name.as_slice(),
                Known::Function(parameters.as_slice(), *sort),
            )?;
            Ok(count)
        }
        Command::Assert(_, body) => {
            wanted_at_top(alloc, sexps, top, *body, Sort::Bool)?;
            Ok(count)
        }
        Command::Minimize(_, body) => {
            wanted_at_top(alloc, sexps, top, *body, Sort::Real)?;
            Ok(count)
        }
        Command::Check(_) => Ok(count),
        Command::Ineffective(_) => Ok(count),
    }
}

// The fault of a name of the top that is known.
fn is_new<'p, 'a>(
    top: &HashMap<&'a [u8], Known<'p, 'a>>,
    place: Place,
    name: &'a Name,
) -> Result<(), Stop<'a>>
    ensures { FindsAmong top.now (new_name (place_of place) name.now) result }
{
    if is_known(top, name) {
        Err(Stop::Fault(place, Fault::Redeclared(name)))
    } else {
        Ok(())
    }
}

// Whether a name is a symbol of the theories, or stands at the top.
fn is_known<'p, 'a>(top: &HashMap<&'a [u8], Known<'p, 'a>>, name: &Name) -> bool
    ensures { (names : Names Sorted) → Knows top.now names → result ≡ known name.now names }
{
    let operator = is_operator(name);
    let stands = top.contains_key(name.as_slice());
    operator || stands
}

// The names of parameters, or the fault of the first one whose name is taken.
fn are_new<'a>(parameters: &[Parameter<'a>], before: &mut Level<'a>) -> Result<(), Stop<'a>>
    requires { before.old ≡ [] }
    ensures fault { FindsFault result (taken_parameter [] (map parameter_of parameters.now)) }
    ensures names { OnOk result (before.new ≡ parameters.now) }
{
    let mut rest = parameters;
    while let [first, later @ ..] = rest {
        if is_taken(before, first.name) {
            return Err(Stop::Fault(first.place, Fault::Redeclared(first.name)));
        }
        before.push(*first)?;
        rest = later;
    }
    Ok(())
}

// The fault of an expression that is to have a sort, where no local names stand around it.
fn wanted_at_top<'p, 'a>(
    alloc: Global,
    sexps: &'a Sexps,
    top: &HashMap<&'a [u8], Known<'p, 'a>>,
    at: usize,
    sort: Sort,
) -> Result<(), Stop<'a>>
    ensures { FindsAmong top.now (wanted_sort sexps.now at sort) result }
{
    let locals = Locals::new(alloc);
    wanted(alloc, sexps, top, locals, at, sort)
}

// The fault of an expression that is to have a sort.
fn wanted<'p, 'a>(
    alloc: Global,
    sexps: &'a Sexps,
    top: &HashMap<&'a [u8], Known<'p, 'a>>,
    locals: Locals<'a>,
    at: usize,
    sort: Sort,
) -> Result<(), Stop<'a>>
    ensures { FindsWithin top.now locals.entry (wanted_sort sexps.now at sort) result }
{
    let found = expression(alloc, sexps, top, locals, at)?;
    if is_same(sort, found) {
        Ok(())
    } else {
        Err(Stop::Fault(place_at(sexps, at), Fault::SortMismatch))
    }
}

// Where the expression at a place begins.
fn place_at(sexps: &Sexps, at: usize) -> Place
    ensures { place_of result ≡ sexp.place_of (expression_at sexps.now at) }
{
    match sexps.look(at) {
        Seen::End => Place { line: 0, column: 0 },
        Seen::Leaf(place, _, _) => place,
        Seen::Group(place, _, _) => place,
    }
}
