// The reader as one call: a script is read as it is written, and with roots where that has a fault.
ghost use Rattle.std.specs.Prelude.{◌≡◌, IfOk, MatchResult};
ghost use Rattle.poly_graph.specs.ProblemViews.{problem_of};
ghost use Rattle.script_fault.specs.Answers.{IsFaultOrMemory};
ghost use Rattle.script_forms.specs.Atoms.{goal_atom};
ghost use Rattle.problem_session.specs.Session.{problems_of};
ghost use Rattle.script_reading.specs.Faults.{script_fault, session_fault};
ghost use Rattle.script_reading.specs.Goals.{goal_in};
ghost use Rattle.script_reading.specs.Reader.{HasProblem, commands_of};
ghost use Rattle.script_reading.specs.Session.{HasSession};

use crate::plain::{plain_goal, plain_session, plain_with_goal};
use crate::told::told;
use crate::with_roots::{rooted_goal, rooted_session, rooted_with_goal};
use poly_graph::Problem;
use problem_session::Session;
use script_fault::ReadError;
use script_reading::{ScriptReader, WithGoal};
use std::alloc::Global;

/// The problem of a script's bytes, where constants without bounds have this one: of what is in force at its only check.
/// Where the script has a fault as it is written, constants stand for its roots and quotients.
///
/// # Errors
///
/// The first fault of the script: of its size, its text, its commands, its names and sorts, its checks, of which there may
/// be one, what replaces its roots and quotients, or its building.
pub fn read_problem(alloc: Global, bytes: &[u8], bound: Option<u32>) -> Result<Problem, ReadError>
    ensures { MatchResult result
        (λ p. HasProblem bound (problem_of p) bytes.now)
        (λ e. IsFaultOrMemory e (script_fault bound bytes.now)) }
{
    let (problem, _) = read_goal(alloc, bytes, bound)?;
    Ok(problem)
}

/// The same, with the number of the atom whose term is the script's goal: none where it has no goal, and where its goal
/// holds a Real `ite`.
///
/// # Errors
///
/// Those of `read_problem`.
pub fn read_goal(
    alloc: Global,
    bytes: &[u8],
    bound: Option<u32>,
) -> Result<(Problem, Option<u32>), ReadError>
    ensures { MatchResult result
        (λ r. HasProblem bound (problem_of r.0) bytes.now ×
        (r.1 ≡ goal_atom (commands_of bound bytes.now)))
        (λ e. IsFaultOrMemory e (script_fault bound bytes.now)) }
{
    match plain_goal(alloc, bytes, bound) {
        Ok(read) => Ok(read),
        Err(ReadError::Memory) => Err(ReadError::Memory),
        Err(ReadError::Fault(written)) => match rooted_goal(alloc, bytes, bound) {
            Ok(read) => Ok(read),
            Err(ReadError::Memory) => Err(ReadError::Memory),
            Err(ReadError::Fault(rooted)) => Err(ReadError::Fault(told(written, rooted))),
        },
    }
}

/// The problems of a script's bytes, where constants without bounds have this one: of each check, what is in force at it.
/// Where the script has a fault as it is written, constants stand for its roots and quotients.
///
/// # Errors
///
/// The first fault of the script: of its size, its text, its commands, its names and sorts, or of the first check that has
/// one.
pub fn read_session(alloc: Global, bytes: &[u8], bound: Option<u32>) -> Result<Session, ReadError>
    ensures { MatchResult result
        (λ session. HasSession bound (problems_of session) bytes.now)
        (λ e. IsFaultOrMemory e (session_fault bound bytes.now)) }
{
    match plain_session(alloc, bytes, bound) {
        Ok(session) => Ok(session),
        Err(ReadError::Memory) => Err(ReadError::Memory),
        Err(ReadError::Fault(written)) => match rooted_session(alloc, bytes, bound) {
            Ok(session) => Ok(session),
            Err(ReadError::Memory) => Err(ReadError::Memory),
            Err(ReadError::Fault(rooted)) => Err(ReadError::Fault(told(written, rooted))),
        },
    }
}

/// The problems of all checks of a script's bytes, as `read_session`, with the script's goal.
///
/// # Errors
///
/// Those of `read_session`.
pub fn read_with_goal(
    alloc: Global,
    bytes: &[u8],
    bound: Option<u32>,
) -> Result<WithGoal, ReadError>
    ensures session { MatchResult result
        (λ read. HasSession bound (problems_of read.session) bytes.now)
        (λ e. IsFaultOrMemory e (session_fault bound bytes.now)) }
    ensures goal { IfOk result (λ read. read.goal ≡ goal_in bound bytes.now) }
{
    match plain_with_goal(alloc, bytes, bound) {
        Ok(read) => Ok(read),
        Err(ReadError::Memory) => Err(ReadError::Memory),
        Err(ReadError::Fault(written)) => match rooted_with_goal(alloc, bytes, bound) {
            Ok(read) => Ok(read),
            Err(ReadError::Memory) => Err(ReadError::Memory),
            Err(ReadError::Fault(rooted)) => Err(ReadError::Fault(told(written, rooted))),
        },
    }
}

/// The reader of scripts: `read_session`, `read_with_goal` and `read_goal`.
#[derive(Clone, Copy, Debug, PartialEq, Eq)]
pub struct Reader;

impl ScriptReader for Reader {
    fn read_script(
        &self,
        alloc: Global,
        bytes: &[u8],
        bound: Option<u32>,
    ) -> Result<Session, ReadError> {
        read_session(alloc, bytes, bound)
    }

    fn read_with_goal(
        &self,
        alloc: Global,
        bytes: &[u8],
        bound: Option<u32>,
    ) -> Result<WithGoal, ReadError> {
        read_with_goal(alloc, bytes, bound)
    }

    fn read_goal(
        &self,
        alloc: Global,
        bytes: &[u8],
        bound: Option<u32>,
    ) -> Result<(Problem, Option<u32>), ReadError> {
        read_goal(alloc, bytes, bound)
    }
}
