// `upgrade`, from the problems of a script's checks to a certificate in the newest version.
ghost use Rattle.std.specs.Prelude.{◌≡◌, [], ◌++◌, ◌+◌, ◌<◌, ◌^◌, None, OnOk, length};
ghost use Rattle.problem_session.specs.Session.{problems_of};
ghost use Rattle.cert_model.specs.SessionLaws.{IsSession};
ghost use Rattle.cert_check.specs.Feeding.{bytes_taken, IsFedPiece};
ghost use Rattle.cert_check.specs.Sessions.{HasTakenSession};
ghost use Rattle.check_run.specs.Run.{IsReadToEnd, SameIn, UpgradeHasCause};
ghost use Rattle.dpoly.specs.Upgrade.{EndsOnUpgrade, EndsOnUpgraded, IsKeptFor, IsReadAsKept};

use cert_check::{CertFault, Feed};
use cert_upgrade::upgrade;
use check_run::{ROOM, Status, Unconfirmed, finish, refuse};
use desk::{Denied, Desk, Port};
use problem_session::Session;
use std::alloc::Global;

// Feeds a piece, and keeps it.
fn feed_and_keep(feed: &mut Feed<'_>, kept: &mut Vec<u8>, piece: &[u8]) -> Result<(), CertFault>
    ensures goes { IsFedPiece feed.old piece.now feed.new result }
    ensures kept { OnOk result (kept.new.items ≡ kept.old.items ++ piece.now) }
    ensures more { OnOk result (bytes_taken feed.new ≡ bytes_taken feed.old + length piece.now) }
    ensures fits { bytes_taken feed.new < 2 ^ 64 }
{
    match feed.piece(piece) {
        Ok(()) => {}
        Err(fault) => return Err(fault),
    }
    match kept.extend_from_slice(piece) {
        Ok(()) => Ok(()),
        Err(_) => Err(CertFault::Memory),
    }
}

// The certificate on its port by a feed that was fed nothing, whole, where it is accepted; it is read up to its first fault.
fn kept_by<D: Desk>(
    alloc: Global,
    desk: &mut D,
    session: &Session,
    bound: Option<u32>,
    feed: &mut Feed<'_>,
) -> Result<Vec<u8>, Unconfirmed>
    requires { HasTakenSession session.now bound [] feed.old }
    ensures told { IsKeptFor session.now bound (D.sight desk.old) result }
    ensures leaves { IsReadAsKept result (D.sight desk.old) (D.sight desk.new) }
{
    let mut kept = Vec::new(alloc);
    let mut buffer = [0u8; ROOM];
    loop {
        let n = match desk.read(Port::CertIn, &mut buffer) {
            Ok(n) => n,
            Err(_) => return Err(Unconfirmed::Failed),
        };
        if n == 0 {
            match feed.end_all() {
                Ok(_) => return Ok(kept),
                Err(fault) => return Err(Unconfirmed::Fault(fault)),
            }
        }
        match feed_and_keep(feed, &mut kept, &buffer[..n]) {
            Ok(()) => {}
            Err(fault) => return Err(Unconfirmed::Fault(fault)),
        }
    }
}

// The certificate on its port, whole, where it is accepted; it is read up to its first fault.
fn read_kept<D: Desk>(
    alloc: Global,
    desk: &mut D,
    session: &Session,
    bound: Option<u32>,
) -> Result<Vec<u8>, Unconfirmed>
    requires { IsSession (problems_of session.now) }
    ensures told { IsKeptFor session.now bound (D.sight desk.old) result }
    ensures leaves { IsReadAsKept result (D.sight desk.old) (D.sight desk.new) }
{
    match Feed::new_session(alloc, session, bound) {
        Ok(mut feed) => kept_by(alloc, desk, session, bound, &mut feed),
        Err(_) => Err(Unconfirmed::Fault(CertFault::Memory)),
    }
}

/// Writes an accepted certificate in the newest version, and says so.
pub fn write_upgraded<D: Desk>(alloc: Global, desk: &mut D, name: &str, kept: &[u8]) -> Status
    ensures ends { EndsOnUpgraded name.now kept.now (D.sight desk.old) (D.sight desk.new) result }
    ensures same { SameIn (D.sight desk.old) (D.sight desk.new) }
    ensures cause { UpgradeHasCause (D.sight desk.old) (D.sight desk.new) result }
{
    match upgrade(alloc, kept) {
        Ok(text) => finish(desk, name, &text, b"upgraded\n"),
        Err(_) => Status::NoMemory,
    }
}

/// Checks the certificate on its port for the checks of a session, and keeps it; where it is accepted, writes it under a
/// name in the newest version.
pub fn upgrade_session<D: Desk>(
    alloc: Global,
    desk: &mut D,
    cert: &str,
    out: &str,
    session: &Session,
    bound: Option<u32>,
) -> Status
    requires { IsSession (problems_of session.now) }
    ensures ends { EndsOnUpgrade None session.now bound cert.now out.now
        (D.sight desk.old) (D.sight desk.new) result }
    ensures cause { UpgradeHasCause (D.sight desk.old) (D.sight desk.new) result }
    ensures script { (D.sight desk.new).script ≡ (D.sight desk.old).script }
    ensures read { result ≡ Status.Answered → IsReadToEnd (D.sight desk.old) (D.sight desk.new) }
{
    match desk.start(Port::CertIn, cert) {
        Ok(()) => {}
        Err(Denied::Failed) => return Status::InFailed,
        Err(Denied::Memory) => return Status::NoMemory,
    }
    match read_kept(alloc, desk, session, bound) {
        Ok(kept) => write_upgraded(alloc, desk, out, &kept),
        Err(Unconfirmed::Fault(fault)) => refuse(alloc, desk, fault),
        Err(Unconfirmed::Failed) => Status::InFailed,
    }
}
