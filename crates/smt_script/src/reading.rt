// The commands of a script's expressions, or their first fault (SMT-LIB 2.6, section 3.9).
ghost use Rattle.std.specs.Prelude.{◌≡◌};
ghost use Rattle.smt_sexp.specs.Arena.{listed, rest_of};
ghost use Rattle.smt_script.specs.Calls.{GivesAfterAny, GivesByWord, GivesFound, GivesGroup, GivesLogic, GivesOne, assertion_said, constant_said, definition_said, echo_said, function_said, goal_said, said_alone};
ghost use Rattle.smt_script.specs.Commands.{steps_of};
ghost use Rattle.smt_script.specs.CommandAnswers.{IsCourseAnswer};
ghost use Rattle.smt_script.specs.Run.{Steps, before_of};

use crate::forms::{any, ends, group, string, symbol};
use crate::found::{Before, Found};
use crate::levels::{add_assumed, assume, check, pop, push, reset, values};
use crate::lists::{Arguments, Parameters, arguments_from, parameters_from, sort_form};
use crate::words::{SortForm, Word, is_logic, word_named};
use crate::{Command, Course, Step};
use script_fault::{FaultKind, Limit, Place, ReadError};
use smt_sexp::{Seen, Sexps};
use std::alloc::Global;

/// What the commands of a text's expressions do, or their first fault.
pub fn commands(alloc: Global, sexps: &Sexps) -> Result<Course<'_>, ReadError>
    ensures { IsCourseAnswer sexps.now result (steps_of (listed (rest_of sexps.now 0))) }
{
    let mut steps = Vec::new(alloc);
    let mut before = Before {
        logic: false,
        goal: false,
        checks: 0,
        levels: 0,
        ended: false,
    };
    let mut at = 0;
    while let Some((next, after)) = step(alloc, sexps, before, at, &mut steps)? {
        before = next;
        at = after;
    }
    if before.checks > 0 {
        Ok(Course { sexps, steps })
    } else {
        Err(ReadError::at(Place { line: 0, column: 0 }, FaultKind::NoCheck))
    }
}

// Adds the steps of the command at a place: what comes before the next one, and the place behind it.
fn step<'a>(
    alloc: Global,
    sexps: &'a Sexps,
    before: Before,
    at: usize,
    steps: &mut Vec<Step<'a>>,
) -> Result<Option<(Before, usize)>, ReadError>
    ensures { Steps sexps.now (before_of before) at steps.old.items steps.new.items result }
{
    if before.ended {
        return Ok(None);
    }
    match sexps.look(at) {
        Seen::End => Ok(None),
        Seen::Leaf(place, _, _) => Err(bad_command(place)),
        Seen::Group(place, inside, after) => {
            let next = command(alloc, sexps, before, place, inside, steps)?;
            Ok(Some((next, after)))
        }
    }
}

// Adds the steps of the command of a group.
fn command<'a>(
    alloc: Global,
    sexps: &'a Sexps,
    before: Before,
    place: Place,
    inside: usize,
    steps: &mut Vec<Step<'a>>,
) -> Result<Before, ReadError>
    ensures { GivesGroup sexps.now before place inside steps.old.items steps.new.items result }
{
    let Some((_, name, at)) = symbol(sexps, inside) else {
        return Err(bad_command(place));
    };
    let Some(word) = word_named(name.as_slice()) else {
        return Err(bad_command(place));
    };
    let (next, found) = by_word(alloc, sexps, before, word, place, at)?;
    match found {
        Found::One(step) => steps.push(step)?,
        Found::Assumed(first) => add_assumed(place, sexps, first, steps)?,
    }
    Ok(next)
}

// What the command of a word does at its arguments.
fn by_word(
    alloc: Global,
    sexps: &Sexps,
    before: Before,
    word: Word,
    place: Place,
    at: usize,
) -> Result<(Before, Found<'_>), ReadError>
    ensures { GivesByWord sexps.now before word place at result }
{
    match word {
        Word::SetsLogic => one(
            Before {
                logic: true,
                ..before
            },
            set_logic(sexps, before.logic, place, at),
        ),
        Word::Informs => one(before, Ok(Command::Ineffective(place))),
        Word::Echoes => one(before, echo(sexps, place, at)),
        Word::GetsModel => one(before, alone(sexps, place, at, Command::Ineffective(place))),
        Word::GetsValues => values(sexps, before, place, at),
        Word::Declares => one(before, declare_const(sexps, place, at)),
        Word::DeclaresFunction => one(before, declare_fun(sexps, place, at)),
        Word::Defines => one(before, define_fun(alloc, sexps, place, at)),
        Word::Asserts => one(before, assert_term(sexps, place, at)),
        Word::Minimizes => minimize(sexps, before, place, at),
        Word::Checks => check(sexps, before, place, at),
        Word::Exits => one(
            Before {
                ended: true,
                ..before
            },
            alone(sexps, place, at, Command::Ineffective(place)),
        ),
        Word::Pushes => push(sexps, before, place, at),
        Word::Pops => pop(sexps, before, place, at),
        Word::Assumes => assume(sexps, before, place, at),
        Word::Drops => reset(
            sexps,
            Before {
                levels: 0,
                ..before
            },
            place,
            at,
        ),
        Word::Restarts => reset(
            sexps,
            Before {
                logic: false,
                levels: 0,
                ..before
            },
            place,
            at,
        ),
        Word::StaysOut => Err(left_out(place)),
    }
}

// One command, with what comes before the next one.
fn one<'a>(
    after: Before,
    command: Result<Command<'a>, ReadError>,
) -> Result<(Before, Found<'a>), ReadError>
    ensures { GivesOne after command.entry result }
{
    match command {
        Ok(command) => Ok((after, Found::One(Step::Command(command)))),
        Err(error) => Err(error),
    }
}

// A command without arguments.
fn alone<'a>(
    sexps: &'a Sexps,
    place: Place,
    at: usize,
    command: Command<'a>,
) -> Result<Command<'a>, ReadError>
    ensures { GivesAfterAny sexps.now place (said_alone sexps.now at command.entry) result }
{
    if ends(sexps, at) {
        Ok(command)
    } else {
        Err(bad_command(place))
    }
}

pub(crate) fn bad_command(place: Place) -> ReadError
    ensures { result ≡ ReadError.Fault (record { at = place; kind = FaultKind.BadCommand }) }
{
    ReadError::at(place, FaultKind::BadCommand)
}

fn left_out(place: Place) -> ReadError
    ensures { result ≡ ReadError.Fault (record { at = place; kind = FaultKind.LeftOut }) }
{
    ReadError::at(place, FaultKind::LeftOut)
}

pub(crate) fn too_many(place: Place, what: Limit) -> ReadError
    ensures { result ≡ ReadError.Fault (record { at = place; kind = FaultKind.TooMany what }) }
{
    ReadError::at(place, FaultKind::TooMany(what))
}

// A text.
fn echo(sexps: &Sexps, place: Place, at: usize) -> Result<Command<'_>, ReadError>
    ensures { GivesAfterAny sexps.now place (echo_said sexps.now place at) result }
{
    let Some(at) = string(sexps, at) else {
        return Err(bad_command(place));
    };
    if !ends(sexps, at) {
        return Err(bad_command(place));
    }
    Ok(Command::Ineffective(place))
}

// A logic of those that are read, where none was set before.
fn set_logic<'a>(
    sexps: &'a Sexps,
    is_set: bool,
    place: Place,
    at: usize,
) -> Result<Command<'a>, ReadError>
    ensures { GivesLogic sexps.now is_set place at result }
{
    let Some((_, name, at)) = symbol(sexps, at) else {
        return Err(bad_command(place));
    };
    if !ends(sexps, at) {
        return Err(bad_command(place));
    }
    if is_set {
        return Err(bad_command(place));
    }
    if !is_logic(name.as_slice()) {
        return Err(ReadError::at(place, FaultKind::WrongLogic));
    }
    Ok(Command::Ineffective(place))
}

// A name and a sort.
fn declare_const(sexps: &Sexps, place: Place, at: usize) -> Result<Command<'_>, ReadError>
    ensures { GivesAfterAny sexps.now place (constant_said sexps.now place at) result }
{
    let Some((_, name, at)) = symbol(sexps, at) else {
        return Err(bad_command(place));
    };
    let Some((form, at)) = sort_form(sexps, at) else {
        return Err(bad_command(place));
    };
    if !ends(sexps, at) {
        return Err(bad_command(place));
    }
    match form {
        SortForm::NoSort => Err(bad_command(place)),
        SortForm::Other => Err(left_out(place)),
        SortForm::One(sort) => Ok(Command::Declare(place, name, sort)),
    }
}

// A name, arguments and a sort: an argument is left out.
fn declare_fun(sexps: &Sexps, place: Place, at: usize) -> Result<Command<'_>, ReadError>
    ensures { GivesAfterAny sexps.now place (function_said sexps.now place at) result }
{
    let Some((_, name, at)) = symbol(sexps, at) else {
        return Err(bad_command(place));
    };
    let Some((inside, at)) = group(sexps, at) else {
        return Err(bad_command(place));
    };
    let Some((form, at)) = sort_form(sexps, at) else {
        return Err(bad_command(place));
    };
    if !ends(sexps, at) {
        return Err(bad_command(place));
    }
    match (arguments_from(sexps, inside), form) {
        (Arguments::Wrong, _) => Err(bad_command(place)),
        (_, SortForm::NoSort) => Err(bad_command(place)),
        (Arguments::Some, _) => Err(left_out(place)),
        (_, SortForm::Other) => Err(left_out(place)),
        (Arguments::Nothing, SortForm::One(sort)) => Ok(Command::Declare(place, name, sort)),
    }
}

// A name, parameters, a sort and a term.
fn define_fun(
    alloc: Global,
    sexps: &Sexps,
    place: Place,
    at: usize,
) -> Result<Command<'_>, ReadError>
    ensures { GivesAfterAny sexps.now place (definition_said sexps.now place at) result }
{
    let Some((_, name, at)) = symbol(sexps, at) else {
        return Err(bad_command(place));
    };
    let Some((inside, at)) = group(sexps, at) else {
        return Err(bad_command(place));
    };
    let Some((form, body)) = sort_form(sexps, at) else {
        return Err(bad_command(place));
    };
    let Some(at) = any(sexps, body) else {
        return Err(bad_command(place));
    };
    if !ends(sexps, at) {
        return Err(bad_command(place));
    }
    let params = parameters_from(alloc, sexps, inside)?;
    match (params, form) {
        (Parameters::Wrong, _) => Err(bad_command(place)),
        (_, SortForm::NoSort) => Err(bad_command(place)),
        (Parameters::Other, _) => Err(left_out(place)),
        (_, SortForm::Other) => Err(left_out(place)),
        (Parameters::Known(params), SortForm::One(sort)) => {
            Ok(Command::Define(place, name, params, sort, body))
        }
    }
}

// A term.
fn assert_term(sexps: &Sexps, place: Place, body: usize) -> Result<Command<'_>, ReadError>
    ensures { GivesAfterAny sexps.now place (assertion_said sexps.now place body) result }
{
    let Some(at) = any(sexps, body) else {
        return Err(bad_command(place));
    };
    if !ends(sexps, at) {
        return Err(bad_command(place));
    }
    Ok(Command::Assert(place, body))
}

// The goal, where there is none before it.
fn minimize(
    sexps: &Sexps,
    before: Before,
    place: Place,
    body: usize,
) -> Result<(Before, Found<'_>), ReadError>
    ensures { GivesFound sexps.now place (goal_said sexps.now before place body) result }
{
    let Some(at) = any(sexps, body) else {
        return Err(bad_command(place));
    };
    if !ends(sexps, at) {
        return Err(bad_command(place));
    }
    if before.goal {
        return Err(left_out(place));
    }
    let next = Before {
        goal: true,
        ..before
    };
    let command = Command::Minimize(place, body);
    Ok((next, Found::One(Step::Command(command))))
}
