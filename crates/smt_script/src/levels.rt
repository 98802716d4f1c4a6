// The commands that open and close levels, ask for values and check.
ghost use Rattle.std.specs.Prelude.{◌≡◌, ◌^◌, min, OnOk};
ghost use Rattle.std.specs.Str.Parse.{digits_value};
ghost use Rattle.smt_script.specs.Calls.{Appends, GivesFound, assumptions_said, check_said, pop_said, push_said, reset_said, values_said};
ghost use Rattle.smt_script.specs.declared.found.Found.TheVariants.{Assumed};

use crate::command::{Command, Step};
use crate::forms::{any, ends, group, numeral};
use crate::found::{Before, Found};
use crate::reading::{bad_command, too_many};
use script_fault::{Limit, MOST_CHECKS, MOST_LEVELS, Place, ReadError};
use smt_sexp::Sexps;
use std::alloc::AllocError;

// The first number that is no number of levels.
const TOO_GREAT: usize = 4_294_967_296;

// The number that digits write, or the first one that is too great. A byte that is no digit has the value 36.
fn number_of_levels(digits: &[u8]) -> usize
    ensures { result ≡ min (digits_value 10 digits.now) (2 ^ 32) }
{
    let mut value = 0;
    for byte in digits {
        let digit = char::from(*byte).to_digit(36).unwrap_or(36);
        value = (value * 10 + digit as usize).min(TOO_GREAT);
    }
    value
}

/// The levels that `push` opens.
pub(crate) fn push(
    sexps: &Sexps,
    before: Before,
    place: Place,
    at: usize,
) -> Result<(Before, Found<'_>), ReadError>
    ensures { GivesFound sexps.now place (push_said sexps.now before place at) result }
{
    let Some((digits, at)) = numeral(sexps, at) else {
        return Err(bad_command(place));
    };
    if !ends(sexps, at) {
        return Err(bad_command(place));
    }
    let count = number_of_levels(digits.as_slice());
    let levels = before.levels as usize + count;
    if levels > MOST_LEVELS {
        return Err(too_many(place, Limit::Levels));
    }
    let next = Before {
        levels: levels as u32,
        ..before
    };
    Ok((next, Found::One(Step::Push(place, count))))
}

/// The levels that `pop` closes.
pub(crate) fn pop(
    sexps: &Sexps,
    before: Before,
    place: Place,
    at: usize,
) -> Result<(Before, Found<'_>), ReadError>
    ensures { GivesFound sexps.now place (pop_said sexps.now before place at) result }
{
    let Some((digits, at)) = numeral(sexps, at) else {
        return Err(bad_command(place));
    };
    if !ends(sexps, at) {
        return Err(bad_command(place));
    }
    let count = number_of_levels(digits.as_slice());
    let levels = before.levels as usize;
    if count > levels {
        return Err(bad_command(place));
    }
    let next = Before {
        levels: (levels - count) as u32,
        ..before
    };
    Ok((next, Found::One(Step::Pop(place, count))))
}

/// `reset` and `reset-assertions`, with what comes before the next command.
pub(crate) fn reset(
    sexps: &Sexps,
    after: Before,
    place: Place,
    at: usize,
) -> Result<(Before, Found<'_>), ReadError>
    ensures { GivesFound sexps.now place (reset_said sexps.now after place at) result }
{
    if ends(sexps, at) {
        Ok((after, Found::One(Step::Reset(place))))
    } else {
        Err(bad_command(place))
    }
}

/// The terms of `get-value`, of which there is one at least.
pub(crate) fn values(
    sexps: &Sexps,
    before: Before,
    place: Place,
    at: usize,
) -> Result<(Before, Found<'_>), ReadError>
    ensures { GivesFound sexps.now place (values_said sexps.now before place at) result }
{
    let Some((inside, at)) = group(sexps, at) else {
        return Err(bad_command(place));
    };
    if !ends(sexps, at) || ends(sexps, inside) {
        return Err(bad_command(place));
    }
    Ok((before, Found::One(Step::Values(place, inside))))
}

/// A check, where there is room for one more.
pub(crate) fn check(
    sexps: &Sexps,
    before: Before,
    place: Place,
    at: usize,
) -> Result<(Before, Found<'_>), ReadError>
    ensures { GivesFound sexps.now place (check_said sexps.now before place at) result }
{
    if !ends(sexps, at) {
        return Err(bad_command(place));
    }
    if before.checks as usize >= MOST_CHECKS {
        return Err(too_many(place, Limit::Checks));
    }
    let next = Before {
        checks: before.checks + 1,
        ..before
    };
    Ok((next, Found::One(Step::Command(Command::Check(place)))))
}

/// A check under assumptions, terms of the sort Bool, which opens a level of its own; without any it is a plain check.
pub(crate) fn assume(
    sexps: &Sexps,
    before: Before,
    place: Place,
    at: usize,
) -> Result<(Before, Found<'_>), ReadError>
    ensures { GivesFound sexps.now place (assumptions_said sexps.now before place at) result }
{
    let Some((inside, at)) = group(sexps, at) else {
        return Err(bad_command(place));
    };
    if !ends(sexps, at) {
        return Err(bad_command(place));
    }
    if ends(sexps, inside) {
        return check(sexps, before, place, inside);
    }
    if before.levels as usize >= MOST_LEVELS {
        return Err(too_many(place, Limit::Levels));
    }
    if before.checks as usize >= MOST_CHECKS {
        return Err(too_many(place, Limit::Checks));
    }
    let next = Before {
        checks: before.checks + 1,
        ..before
    };
    Ok((next, Found::Assumed(inside)))
}

/// Adds the steps of a check under assumptions, of which the first stands at `first`.
pub(crate) fn add_assumed<'a>(
    place: Place,
    sexps: &'a Sexps,
    first: usize,
    steps: &mut Vec<Step<'a>>,
) -> Result<(), AllocError>
    ensures { OnOk result (Appends sexps.now place (Assumed first) steps.old.items steps.new.items) }
{
    steps.push(Step::Push(place, 1))?;
    let mut at = first;
    while let Some(after) = any(sexps, at) {
        steps.push(Step::Command(Command::Assert(place, at)))?;
        at = after;
    }
    steps.push(Step::Command(Command::Check(place)))?;
    steps.push(Step::Pop(place, 1))?;
    Ok(())
}
