// `upgrade` of a script with a goal, from the problem of its only check to a certificate in the newest version.
ghost use Rattle.std.specs.Prelude.{◌≡◌, [], ◌++◌, ◌+◌, ◌<◌, ◌^◌, OnOk, length};
ghost use Rattle.problem_session.specs.Session.{problems_of};
ghost use Rattle.cert_model.specs.SessionLaws.{IsSession};
ghost use Rattle.cert_least.specs.Feeding.{bytes_taken, HasTaken, IsFedPiece};
ghost use Rattle.check_run.specs.Check.{IsGoalOf};
ghost use Rattle.check_run.specs.Run.{IsReadToEnd, UpgradeHasCause};
ghost use Rattle.dpoly.specs.Upgrade.{EndsOnGoalUpgrade, EndsOnUpgrade, IsGoalKeptFor, IsReadAsKept};

use crate::upgrade::{upgrade_session, write_upgraded};
use cert_check::CertFault;
use cert_least::GoalFeed;
use check_run::{ROOM, Status, Unconfirmed, refuse};
use desk::{Denied, Desk, Port};
use poly_graph::Problem;
use script_reading::WithGoal;
use std::alloc::Global;

// Feeds a piece, and keeps it.
fn feed_and_keep(feed: &mut GoalFeed<'_>, kept: &mut Vec<u8>, piece: &[u8]) -> Result<(), CertFault>
    ensures goes { IsFedPiece feed.old piece.now feed.new result }
    ensures kept { OnOk result (kept.new.items ≡ kept.old.items ++ piece.now) }
    ensures more { OnOk result (bytes_taken feed.new ≡ bytes_taken feed.old + length piece.now) }
    ensures fits { bytes_taken feed.new < 2 ^ 64 }
{
    match feed.piece(piece) {
        Ok(()) => {}
        Err(fault) => return Err(fault),
    }
    match kept.extend_from_slice(piece) {
        Ok(()) => Ok(()),
        Err(_) => Err(CertFault::Memory),
    }
}

// The certificate on its port by a feed that was fed nothing, whole, where it is accepted; it is read up to its first fault.
fn kept_by<D: Desk>(
    alloc: Global,
    desk: &mut D,
    problem: &Problem,
    goal: u32,
    bound: Option<u32>,
    feed: &mut GoalFeed<'_>,
) -> Result<Vec<u8>, Unconfirmed>
    requires { HasTaken problem.now goal bound [] feed.old }
    ensures told { IsGoalKeptFor problem.now goal bound (D.sight desk.old) result }
    ensures leaves { IsReadAsKept result (D.sight desk.old) (D.sight desk.new) }
{
    let mut kept = Vec::new(alloc);
    let mut buffer = [0u8; ROOM];
    loop {
        let n = match desk.read(Port::CertIn, &mut buffer) {
            Ok(n) => n,
            Err(_) => return Err(Unconfirmed::Failed),
        };
        if n == 0 {
            match feed.end() {
                Ok(_) => return Ok(kept),
                Err(fault) => return Err(Unconfirmed::Fault(fault)),
            }
        }
        match feed_and_keep(feed, &mut kept, &buffer[..n]) {
            Ok(()) => {}
            Err(fault) => return Err(Unconfirmed::Fault(fault)),
        }
    }
}

// The certificate on its port, whole, where it is accepted; it is read up to its first fault.
fn read_kept<D: Desk>(
    alloc: Global,
    desk: &mut D,
    problem: &Problem,
    goal: u32,
    bound: Option<u32>,
) -> Result<Vec<u8>, Unconfirmed>
    requires { goal < length problem.now.atoms }
    ensures told { IsGoalKeptFor problem.now goal bound (D.sight desk.old) result }
    ensures leaves { IsReadAsKept result (D.sight desk.old) (D.sight desk.new) }
{
    match GoalFeed::new(alloc, problem, goal, bound) {
        Ok(mut feed) => kept_by(alloc, desk, problem, goal, bound, &mut feed),
        Err(_) => Err(Unconfirmed::Fault(CertFault::Memory)),
    }
}

// Checks the certificate on its port for the problem of the only check of a script, whose goal is the term of this atom, and
// keeps it; where it is accepted, writes it under a name in the newest version.
fn upgrade_goal<D: Desk>(
    alloc: Global,
    desk: &mut D,
    cert: &str,
    out: &str,
    problem: &Problem,
    goal: u32,
    bound: Option<u32>,
) -> Status
    requires { goal < length problem.now.atoms }
    ensures ends { EndsOnGoalUpgrade problem.now goal bound cert.now out.now
        (D.sight desk.old) (D.sight desk.new) result }
    ensures cause { UpgradeHasCause (D.sight desk.old) (D.sight desk.new) result }
    ensures script { (D.sight desk.new).script ≡ (D.sight desk.old).script }
    ensures read { result ≡ Status.Answered → IsReadToEnd (D.sight desk.old) (D.sight desk.new) }
{
    match desk.start(Port::CertIn, cert) {
        Ok(()) => {}
        Err(Denied::Failed) => return Status::InFailed,
        Err(Denied::Memory) => return Status::NoMemory,
    }
    match read_kept(alloc, desk, problem, goal, bound) {
        Ok(kept) => write_upgraded(alloc, desk, out, &kept),
        Err(Unconfirmed::Fault(fault)) => refuse(alloc, desk, fault),
        Err(Unconfirmed::Failed) => Status::InFailed,
    }
}

/// Checks the certificate on its port for the checks of a script, by its goal where there is one, and keeps it; where it is
/// accepted, writes it under a name in the newest version.
pub fn upgrade_read<D: Desk>(
    alloc: Global,
    desk: &mut D,
    cert: &str,
    out: &str,
    read: &WithGoal,
    bound: Option<u32>,
) -> Status
    requires session { IsSession (problems_of read.now.session) }
    requires goal { IsGoalOf read.now.goal read.now.session }
    ensures ends { EndsOnUpgrade read.now.goal read.now.session bound cert.now out.now
        (D.sight desk.old) (D.sight desk.new) result }
    ensures cause { UpgradeHasCause (D.sight desk.old) (D.sight desk.new) result }
    ensures script { (D.sight desk.new).script ≡ (D.sight desk.old).script }
    ensures read { result ≡ Status.Answered → IsReadToEnd (D.sight desk.old) (D.sight desk.new) }
{
    let Some(goal) = read.goal else {
        return upgrade_session(alloc, desk, cert, out, &read.session, bound);
    };
    match read.session.first(alloc) {
        Ok(problem) => upgrade_goal(alloc, desk, cert, out, &problem, goal, bound),
        Err(_) => Status::NoMemory,
    }
}
