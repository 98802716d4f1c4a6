//! A problem with a limit of its goal: the search for least values looks there for better points, and a certificate of
//! one may have a cover of it.
#![tactic(auto)]

mod constants;
mod extended;
mod forms;
mod room;

ghost use Rattle.std.specs.Prelude.{◌<◌, length, IfOk};
ghost use Rattle.dyadic.specs.Views.{dyadic_of};
ghost use Rattle.goal_limit.specs.Limits.{IsLimitOf};

use crate::constants::constants_of;
use crate::extended::extended;
use crate::room::has_room;
use dyadic::Dy;
use poly_graph::Problem;
use std::alloc::{AllocError, Global};

/// The problem with one more conjunct, that the goal, the term of atom `goal`, is at most `limit`, a multiple of
/// `2^-bits`; none where `limit` can't be a limit in these bits, or the problem has no room for one among its nodes and
/// atoms.
///
/// # Errors
///
/// Out of memory, also where the shared form has no place for the limit: how much of that is used is not a matter of the
/// problem.
pub fn limited(
    alloc: Global,
    problem: &Problem,
    goal: u32,
    bits: u32,
    limit: Dy,
) -> Result<Option<Problem>, AllocError>
    requires { goal < length problem.now.atoms }
    ensures { IfOk result (IsLimitOf problem.now goal bits (dyadic_of limit)) }
{
    if !has_room(problem) {
        return Ok(None);
    }
    match constants_of(problem, bits, limit) {
        Some(constants) => Ok(Some(extended(alloc, problem, goal, constants)?)),
        None => Ok(None),
    }
}
