// The problems of a script's checks, from its port.
ghost use Rattle.std.specs.Prelude.{◌≡◌, IfOk, IfSome, MatchResult, Option};
ghost use Rattle.poly_graph.specs.ProblemViews.{problem_of};
ghost use Rattle.problem_session.specs.Session.{problems_of};
ghost use Rattle.cert_model.specs.SessionLaws.{IsSession};
ghost use Rattle.script_fault.specs.Answers.{IsFaultOrMemory};
ghost use Rattle.script_forms.specs.Atoms.{goal_atom};
ghost use Rattle.check_run.specs.ScriptFaults.{fault_text};
ghost use Rattle.script_reading.specs.Faults.{script_fault, session_fault};
ghost use Rattle.script_reading.specs.Goals.{goal_in};
ghost use Rattle.script_reading.specs.Reader.{HasProblem, commands_of};
ghost use Rattle.script_reading.specs.Session.{HasSession};
ghost use Rattle.check_run.specs.Check.{IsGoalOf};
ghost use Rattle.check_run.specs.Run.{SameIn};
ghost use Rattle.check_run.specs.Script.{AreWithin, Fetches, HaltEnds, Halts, HasText, IsAtomOf, IsHaltOfFault, IsTooLong, IsWithin};

use crate::ports::{fetch, say};
use crate::status::Status;
use desk::{Desk, ReadAll};
use poly_graph::Problem;
use problem_session::Session;
use script_fault::{FaultKind, Limit, Place, ReadError, ScriptFault};
use script_reading::{ScriptReader, WithGoal};
use std::alloc::Global;

/// Why a run ends before its script has problems: the text of the script's first fault, a port that failed, or out of
/// memory.
#[derive(Debug, Drop)]
pub enum Halt {
    Refused(Vec<u8>),
    Failed,
    Memory,
}

// The refusal of a script for a fault.
fn fault_refusal(alloc: Global, fault: &ScriptFault) -> Halt
    ensures { HasText (fault_text fault.now) result }
{
    match crate::script_fault(alloc, fault) {
        Ok(text) => Halt::Refused(text),
        Err(_) => Halt::Memory,
    }
}

/// Why a script is not read.
pub fn refusal(alloc: Global, error: &ReadError) -> Halt
    ensures { (found : Option ScriptFault) → IsFaultOrMemory error.now found →
        IsHaltOfFault found result }
{
    match error {
        ReadError::Fault(fault) => fault_refusal(alloc, fault),
        ReadError::Memory => Halt::Memory,
    }
}

/// The refusal of a script that is too long.
pub fn too_long(alloc: Global) -> Halt
    ensures { IsTooLong result }
{
    let fault = ScriptFault {
        at: Place { line: 0, column: 0 },
        kind: FaultKind::TooMany(Limit::Bytes),
    };
    fault_refusal(alloc, &fault)
}

// The problems of a script's bytes, which a search takes.
fn read_script<S: ScriptReader>(
    reader: &S,
    alloc: Global,
    bytes: &[u8],
    bound: Option<u32>,
) -> Result<Session, Halt>
    ensures script { MatchResult result
        (λ session. HasSession bound (problems_of session) bytes.now)
        (λ halt. IsHaltOfFault (session_fault bound bytes.now) halt) }
    ensures goes_on { IfOk result (λ session. IsSession (problems_of session)) }
    ensures within { IfOk result (λ session. AreWithin session) }
{
    match reader.read_script(alloc, bytes, bound) {
        Ok(session) => Ok(session),
        Err(error) => Err(refusal(alloc, &error)),
    }
}

/// The problems of the checks of the script on its port, which a search takes.
pub fn fetch_session<S: ScriptReader, D: Desk>(
    reader: &S,
    alloc: Global,
    desk: &mut D,
    name: &str,
    bound: Option<u32>,
) -> Result<Session, Halt>
    ensures script { MatchResult result
        (λ session. Fetches name.now
        (HasSession bound (problems_of session)) (D.sight desk.old) (D.sight desk.new))
        (λ halt. Halts (session_fault bound) name.now halt
        (D.sight desk.old) (D.sight desk.new)) }
    ensures goes_on { IfOk result (λ session. IsSession (problems_of session)) }
    ensures within { IfOk result (λ session. AreWithin session) }
    ensures other { (D.sight desk.new).cert_in ≡ (D.sight desk.old).cert_in }
{
    match fetch(alloc, desk, name) {
        Ok(bytes) => match read_script(reader, alloc, &bytes, bound) {
            Ok(session) => Ok(session),
            Err(halt) => Err(halt),
        },
        Err(ReadAll::Failed) => Err(Halt::Failed),
        Err(ReadAll::TooLong) => Err(too_long(alloc)),
        Err(ReadAll::Memory) => Err(Halt::Memory),
    }
}

// The problems of a script's bytes, which a search takes, with its goal.
fn read_with_goal<S: ScriptReader>(
    reader: &S,
    alloc: Global,
    bytes: &[u8],
    bound: Option<u32>,
) -> Result<WithGoal, Halt>
    ensures script { MatchResult result
        (λ read. HasSession bound (problems_of read.session) bytes.now)
        (λ halt. IsHaltOfFault (session_fault bound bytes.now) halt) }
    ensures goal { IfOk result (λ read. read.goal ≡ goal_in bound bytes.now) }
    ensures goes_on { IfOk result (λ read. IsSession (problems_of read.session)) }
    ensures within { IfOk result (λ read. AreWithin read.session) }
    ensures atom { IfOk result (λ read. IsGoalOf read.goal read.session) }
{
    match reader.read_with_goal(alloc, bytes, bound) {
        Ok(read) => Ok(read),
        Err(error) => Err(refusal(alloc, &error)),
    }
}

/// The problems of the checks of the script on its port, which a search takes, with its goal.
pub fn fetch_with_goal<S: ScriptReader, D: Desk>(
    reader: &S,
    alloc: Global,
    desk: &mut D,
    name: &str,
    bound: Option<u32>,
) -> Result<WithGoal, Halt>
    ensures script { MatchResult result
        (λ read. Fetches name.now
        (HasSession bound (problems_of read.session)) (D.sight desk.old) (D.sight desk.new))
        (λ halt. Halts (session_fault bound) name.now halt
        (D.sight desk.old) (D.sight desk.new)) }
    ensures goal { IfOk result (λ read. IfSome (D.sight desk.old).script (λ script.
        read.goal ≡ goal_in bound script)) }
    ensures goes_on { IfOk result (λ read. IsSession (problems_of read.session)) }
    ensures within { IfOk result (λ read. AreWithin read.session) }
    ensures atom { IfOk result (λ read. IsGoalOf read.goal read.session) }
    ensures other { (D.sight desk.new).cert_in ≡ (D.sight desk.old).cert_in }
{
    match fetch(alloc, desk, name) {
        Ok(bytes) => match read_with_goal(reader, alloc, &bytes, bound) {
            Ok(read) => Ok(read),
            Err(halt) => Err(halt),
        },
        Err(ReadAll::Failed) => Err(Halt::Failed),
        Err(ReadAll::TooLong) => Err(too_long(alloc)),
        Err(ReadAll::Memory) => Err(Halt::Memory),
    }
}

// The problem of a script's bytes, which a search takes, and the atom of its goal.
fn read_goal<S: ScriptReader>(
    reader: &S,
    alloc: Global,
    bytes: &[u8],
    bound: Option<u32>,
) -> Result<(Problem, Option<u32>), Halt>
    ensures script { MatchResult result
        (λ r. HasProblem bound (problem_of r.0) bytes.now)
        (λ halt. IsHaltOfFault (script_fault bound bytes.now) halt) }
    ensures goal { IfOk result (λ r. r.1 ≡ goal_atom (commands_of bound bytes.now)) }
    ensures within { IfOk result (λ r. IsWithin r.0) }
    ensures atom { IfOk result (λ r. IsAtomOf r.1 r.0) }
{
    match reader.read_goal(alloc, bytes, bound) {
        Ok(read) => Ok(read),
        Err(error) => Err(refusal(alloc, &error)),
    }
}

/// The problem of the script on its port, which may have one check and which a search takes, and the atom of its goal.
pub fn fetch_goal<S: ScriptReader, D: Desk>(
    reader: &S,
    alloc: Global,
    desk: &mut D,
    name: &str,
    bound: Option<u32>,
) -> Result<(Problem, Option<u32>), Halt>
    ensures script { MatchResult result
        (λ r. Fetches name.now
        (HasProblem bound (problem_of r.0)) (D.sight desk.old) (D.sight desk.new))
        (λ halt. Halts (script_fault bound) name.now halt
        (D.sight desk.old) (D.sight desk.new)) }
    ensures goal { IfOk result (λ r. IfSome (D.sight desk.old).script (λ script.
        r.1 ≡ goal_atom (commands_of bound script))) }
    ensures within { IfOk result (λ r. IsWithin r.0) }
    ensures atom { IfOk result (λ r. IsAtomOf r.1 r.0) }
{
    match fetch(alloc, desk, name) {
        Ok(bytes) => match read_goal(reader, alloc, &bytes, bound) {
            Ok(read) => Ok(read),
            Err(halt) => Err(halt),
        },
        Err(ReadAll::Failed) => Err(Halt::Failed),
        Err(ReadAll::TooLong) => Err(too_long(alloc)),
        Err(ReadAll::Memory) => Err(Halt::Memory),
    }
}

/// Ends a run whose script has no problems.
pub fn end_halted<D: Desk>(desk: &mut D, halt: Halt) -> Status
    ensures ends { HaltEnds halt (D.sight desk.old) (D.sight desk.new) result }
    ensures same { SameIn (D.sight desk.old) (D.sight desk.new) }
{
    match halt {
        Halt::Refused(text) => say(desk, Status::ScriptRefused, &text),
        Halt::Failed => Status::InFailed,
        Halt::Memory => Status::NoMemory,
    }
}
