// `check`, from its words to its end.
ghost use Rattle.std.specs.Prelude.{◌≡◌};
ghost use Rattle.cert_model.specs.SessionLaws.{IsSession};
ghost use Rattle.problem_session.specs.Session.{problems_of};
ghost use Rattle.check_run.specs.Check.{EndsOnCheck, IsGoalOf};
ghost use Rattle.check_run.specs.Run.{CertIsRead, CheckHasCause, IsReadToEnd, check_run, HasCause, HasCourse, ScriptIsRead};

use crate::check::check_session;
use crate::goal::check_goal;
use crate::script::{end_halted, fetch_with_goal};
use crate::status::Status;
use command_line::CheckWords;
use desk::Desk;
use script_reading::{ScriptReader, WithGoal};
use std::alloc::Global;

// Checks the certificate on its port, by the goal where there is one.
fn check_read<D: Desk>(
    alloc: Global,
    desk: &mut D,
    name: &str,
    read: &WithGoal,
    bound: Option<u32>,
) -> Status
    requires session { IsSession (problems_of read.now.session) }
    requires goal { IsGoalOf read.now.goal read.now.session }
    ensures ends { EndsOnCheck read.now.goal read.now.session bound name.now
        (D.sight desk.old) (D.sight desk.new) result }
    ensures cause { CheckHasCause (D.sight desk.old) (D.sight desk.new) result }
    ensures script { (D.sight desk.new).script ≡ (D.sight desk.old).script }
    ensures read { result ≡ Status.Answered → IsReadToEnd (D.sight desk.old) (D.sight desk.new) }
{
    let Some(goal) = read.goal else {
        return check_session(alloc, desk, name, &read.session, bound);
    };
    match read.session.first(alloc) {
        Ok(problem) => check_goal(alloc, desk, name, &problem, goal, bound),
        Err(_) => Status::NoMemory,
    }
}

/// Checks a certificate of a script: reads both from their ports, and answers the verdict.
pub fn run_check<S: ScriptReader, D: Desk>(
    reader: &S,
    alloc: Global,
    desk: &mut D,
    asked: CheckWords<'_>,
) -> Status
    ensures cause { HasCause (check_run asked.entry (D.sight desk.old) (D.sight desk.new) result) }
    ensures script { ScriptIsRead
        (check_run asked.entry (D.sight desk.old) (D.sight desk.new) result) }
    ensures cert { CertIsRead (check_run asked.entry (D.sight desk.old) (D.sight desk.new) result) }
    ensures course { HasCourse
        (check_run asked.entry (D.sight desk.old) (D.sight desk.new) result) }
{
    let CheckWords {
        script,
        cert,
        bound,
    } = asked;
    match fetch_with_goal(reader, alloc, desk, script, bound) {
        Ok(read) => check_read(alloc, desk, cert, &read, bound),
        Err(stop) => end_halted(desk, stop),
    }
}
