// A reader of scripts, for callers that stand below the crate that reads.
ghost use Rattle.std.specs.Prelude.{◌≡◌, IfOk, MatchResult};
ghost use Rattle.poly_graph.specs.ProblemViews.{problem_of};
ghost use Rattle.problem_session.specs.Session.{problems_of};
ghost use Rattle.script_fault.specs.Answers.{IsFaultOrMemory};
ghost use Rattle.script_forms.specs.Atoms.{goal_atom};
ghost use Rattle.script_reading.specs.Faults.{script_fault, session_fault};
ghost use Rattle.script_reading.specs.Goals.{goal_in};
ghost use Rattle.script_reading.specs.Reader.{HasProblem, commands_of};
ghost use Rattle.script_reading.specs.Session.{HasSession};

use poly_graph::Problem;
use problem_session::Session;
use script_fault::ReadError;
use std::alloc::Global;

/// The problems of a script's checks, with its goal.
#[derive(Drop)]
pub struct WithGoal {
    pub session: Session,
    /// The atom whose term is the goal in force at the only check; none with several checks, without a goal, and where the
    /// goal holds a Real `ite`.
    pub goal: Option<u32>,
}

/// What reads a script: the problems of its checks, or its first fault.
pub trait ScriptReader {
    /// The problems of a script's bytes, where constants without bounds have this one: of each check, what is in force
    /// at it.
    fn read_script(
        &self,
        alloc: Global,
        bytes: &[u8],
        bound: Option<u32>,
    ) -> Result<Session, ReadError>
        ensures { MatchResult result
            (λ session. HasSession bound (problems_of session) bytes.now)
            (λ e. IsFaultOrMemory e (session_fault bound bytes.now)) };

    /// The same with the script's goal.
    fn read_with_goal(
        &self,
        alloc: Global,
        bytes: &[u8],
        bound: Option<u32>,
    ) -> Result<WithGoal, ReadError>
        ensures session { MatchResult result
            (λ read. HasSession bound (problems_of read.session) bytes.now)
            (λ e. IsFaultOrMemory e (session_fault bound bytes.now)) }
        ensures goal { IfOk result (λ read. read.goal ≡ goal_in bound bytes.now) };

    /// The problem of a script that may have one check, and the atom whose term is its goal: none without a goal, and where
    /// the goal holds a Real `ite`.
    fn read_goal(
        &self,
        alloc: Global,
        bytes: &[u8],
        bound: Option<u32>,
    ) -> Result<(Problem, Option<u32>), ReadError>
        ensures { MatchResult result
            (λ r. HasProblem bound (problem_of r.0) bytes.now × (r.1 ≡ goal_atom (commands_of bound bytes.now)))
            (λ e. IsFaultOrMemory e (script_fault bound bytes.now)) };
}
