// `check` of a script with a goal, from the problem of its only check to the verdict of a certificate.
ghost use Rattle.std.specs.Prelude.{◌≡◌, ◌<◌, [], Err, IfOk, Ok, length};
ghost use Rattle.cert_least.specs.Feeding.{HasTaken};
ghost use Rattle.check_run.specs.Goals.{EndsOnGoal, EndsOnGoalVerdict, IsGoalConfirmation, IsGoalReadFor, IsGoalVerdictFor};
ghost use Rattle.check_run.specs.Run.{CheckHasCause, IsReadToEnd, SameIn};

use crate::check::{ROOM, Unconfirmed, refuse, shown};
use crate::least::confirmed_least;
use crate::ports::say;
use crate::status::Status;
use cert_check::CertFault;
use cert_least::{GoalFeed, GoalVerdict};
use desk::{Denied, Desk, Port};
use poly_graph::Problem;
use std::alloc::{AllocError, Global};

// The verdict of the certificate on its port by a feed that was fed nothing; it is read up to its first fault.
fn verdict_by<D: Desk>(
    desk: &mut D,
    problem: &Problem,
    goal: u32,
    bound: Option<u32>,
    feed: &mut GoalFeed<'_>,
) -> Result<GoalVerdict, Unconfirmed>
    requires { HasTaken problem.now goal bound [] feed.old }
    ensures told { IsGoalVerdictFor problem.now goal bound (D.sight desk.old) result }
    ensures leaves { IsGoalReadFor result (D.sight desk.old) (D.sight desk.new) }
{
    let mut buffer = [0u8; ROOM];
    loop {
        let n = match desk.read(Port::CertIn, &mut buffer) {
            Ok(n) => n,
            Err(_) => return Err(Unconfirmed::Failed),
        };
        if n == 0 {
            match feed.end() {
                Ok(verdict) => return Ok(verdict),
                Err(fault) => return Err(Unconfirmed::Fault(fault)),
            }
        }
        match feed.piece(&buffer[..n]) {
            Ok(()) => {}
            Err(fault) => return Err(Unconfirmed::Fault(fault)),
        }
    }
}

// The verdict of the certificate on its port, which is read up to its first fault.
fn read_verdict<D: Desk>(
    alloc: Global,
    desk: &mut D,
    problem: &Problem,
    goal: u32,
    bound: Option<u32>,
) -> Result<GoalVerdict, Unconfirmed>
    requires { goal < length problem.now.atoms }
    ensures told { IsGoalVerdictFor problem.now goal bound (D.sight desk.old) result }
    ensures leaves { IsGoalReadFor result (D.sight desk.old) (D.sight desk.new) }
{
    match GoalFeed::new(alloc, problem, goal, bound) {
        Ok(mut feed) => verdict_by(desk, problem, goal, bound, &mut feed),
        Err(_) => Err(Unconfirmed::Fault(CertFault::Memory)),
    }
}

// What a certificate without a fault shows.
fn goal_shown(alloc: Global, verdict: GoalVerdict) -> Result<Vec<u8>, AllocError>
    ensures { IfOk result (λ text. IsGoalConfirmation verdict text.items) }
{
    match verdict {
        GoalVerdict::Check(verdict) => shown(alloc, verdict),
        GoalVerdict::Least(least) => confirmed_least(alloc, least),
    }
}

// Confirms a certificate.
fn confirm<D: Desk>(alloc: Global, desk: &mut D, verdict: GoalVerdict) -> Status
    ensures ends { EndsOnGoalVerdict (Ok verdict) (D.sight desk.old) (D.sight desk.new) result }
    ensures same { SameIn (D.sight desk.old) (D.sight desk.new) }
    ensures cause { CheckHasCause (D.sight desk.old) (D.sight desk.new) result }
{
    match goal_shown(alloc, verdict) {
        Ok(text) => say(desk, Status::Answered, &text),
        Err(_) => Status::NoMemory,
    }
}

/// Checks the certificate on its port, which is read by pieces and never held whole, for the problem of the only check of a
/// script, whose goal is the term of this atom.
pub fn check_goal<D: Desk>(
    alloc: Global,
    desk: &mut D,
    name: &str,
    problem: &Problem,
    goal: u32,
    bound: Option<u32>,
) -> Status
    requires { goal < length problem.now.atoms }
    ensures ends { EndsOnGoal problem.now goal bound name.now
        (D.sight desk.old) (D.sight desk.new) result }
    ensures cause { CheckHasCause (D.sight desk.old) (D.sight desk.new) result }
    ensures script { (D.sight desk.new).script ≡ (D.sight desk.old).script }
    ensures read { result ≡ Status.Answered → IsReadToEnd (D.sight desk.old) (D.sight desk.new) }
{
    match desk.start(Port::CertIn, name) {
        Ok(()) => {}
        Err(Denied::Failed) => return Status::InFailed,
        Err(Denied::Memory) => return Status::NoMemory,
    }
    match read_verdict(alloc, desk, problem, goal, bound) {
        Ok(verdict) => confirm(alloc, desk, verdict),
        Err(Unconfirmed::Fault(fault)) => refuse(alloc, desk, fault),
        Err(Unconfirmed::Failed) => Status::InFailed,
    }
}
