// `check`, from the problems of a script's checks to the verdicts of a certificate.
ghost use Rattle.std.specs.Prelude.{◌≡◌, [], Err, IfOk, None, Ok};
ghost use Rattle.problem_session.specs.Session.{problems_of};
ghost use Rattle.cert_model.specs.SessionLaws.{IsSession};
ghost use Rattle.cert_check.specs.Sessions.{HasTakenSession};
ghost use Rattle.check_run.specs.Check.{AreConfirmations, EndsOnCheck, EndsOnFault, EndsOnVerdict, IsConfirmation, IsReadFor, IsVerdictFor};
ghost use Rattle.check_run.specs.Goals.{EndsOnGoalVerdict};
ghost use Rattle.check_run.specs.Run.{CheckHasCause, IsReadToEnd, ResumeHasCause, SameIn, UpgradeHasCause};

use crate::ports::say;
use crate::status::Status;
use crate::{cert_fault, confirmed_delta_sat, confirmed_unsat, left_open};
use cert_check::{CertFault, Feed, Verdict};
use desk::{Denied, Desk, Port};
use problem_session::Session;
use std::alloc::{AllocError, Global};

// The most bytes of a certificate that are read at once.
pub const ROOM: usize = 65_536;

/// Why a certificate is not confirmed: its first fault, out of memory included, or its port failed.
#[derive(Clone, Copy, Debug, PartialEq, Eq)]
pub enum Unconfirmed {
    Fault(CertFault),
    Failed,
}

// The verdicts of the certificate on its port by a feed that was fed nothing; it is read up to its first fault.
fn verdicts_by<D: Desk>(
    desk: &mut D,
    session: &Session,
    bound: Option<u32>,
    feed: &mut Feed<'_>,
) -> Result<Vec<Verdict>, Unconfirmed>
    requires { HasTakenSession session.now bound [] feed.old }
    ensures told { IsVerdictFor session.now bound (D.sight desk.old) result }
    ensures leaves { IsReadFor result (D.sight desk.old) (D.sight desk.new) }
{
    let mut buffer = [0u8; ROOM];
    loop {
        let n = match desk.read(Port::CertIn, &mut buffer) {
            Ok(n) => n,
            Err(_) => return Err(Unconfirmed::Failed),
        };
        if n == 0 {
            match feed.end_all() {
                Ok(verdicts) => return Ok(verdicts),
                Err(fault) => return Err(Unconfirmed::Fault(fault)),
            }
        }
        match feed.piece(&buffer[..n]) {
            Ok(()) => {}
            Err(fault) => return Err(Unconfirmed::Fault(fault)),
        }
    }
}

// The verdicts of the certificate on its port, which is read up to its first fault.
fn read_verdicts<D: Desk>(
    alloc: Global,
    desk: &mut D,
    session: &Session,
    bound: Option<u32>,
) -> Result<Vec<Verdict>, Unconfirmed>
    requires { IsSession (problems_of session.now) }
    ensures told { IsVerdictFor session.now bound (D.sight desk.old) result }
    ensures leaves { IsReadFor result (D.sight desk.old) (D.sight desk.new) }
{
    match Feed::new_session(alloc, session, bound) {
        Ok(mut feed) => verdicts_by(desk, session, bound, &mut feed),
        Err(_) => Err(Unconfirmed::Fault(CertFault::Memory)),
    }
}

/// What a certificate without a fault shows of one check.
pub(crate) fn shown(alloc: Global, verdict: Verdict) -> Result<Vec<u8>, AllocError>
    ensures { IfOk result (λ text. IsConfirmation verdict text.items) }
{
    match verdict {
        Verdict::Unsat(margin_bits) => confirmed_unsat(alloc, margin_bits),
        Verdict::Point(delta_bits) => confirmed_delta_sat(alloc, delta_bits),
        Verdict::Left(boxes) => left_open(alloc, boxes),
    }
}

// What it shows of all of them, one after the other.
fn all_shown(alloc: Global, verdicts: &[Verdict]) -> Result<Vec<u8>, AllocError>
    ensures { IfOk result (λ text. AreConfirmations verdicts.now text.items) }
{
    let mut text = Vec::new(alloc);
    for verdict in verdicts {
        let one = shown(alloc, *verdict)?;
        text.extend_from_slice(&one)?;
    }
    Ok(text)
}

// Confirms a certificate.
fn confirm<D: Desk>(alloc: Global, desk: &mut D, verdicts: Vec<Verdict>) -> Status
    ensures ends { EndsOnVerdict (Ok verdicts) (D.sight desk.old) (D.sight desk.new) result }
    ensures same { SameIn (D.sight desk.old) (D.sight desk.new) }
    ensures cause { CheckHasCause (D.sight desk.old) (D.sight desk.new) result }
{
    match all_shown(alloc, &verdicts) {
        Ok(text) => say(desk, Status::Answered, &text),
        Err(_) => Status::NoMemory,
    }
}

/// Refuses a certificate for its first fault.
pub fn refuse<D: Desk>(alloc: Global, desk: &mut D, fault: CertFault) -> Status
    ensures ends { EndsOnVerdict (Err fault) (D.sight desk.old) (D.sight desk.new) result }
    ensures goal { EndsOnGoalVerdict (Err fault) (D.sight desk.old) (D.sight desk.new) result }
    ensures refuses { EndsOnFault fault (D.sight desk.old) (D.sight desk.new) result }
    ensures resume { ResumeHasCause (D.sight desk.old) (D.sight desk.new) result }
    ensures upgrade { UpgradeHasCause (D.sight desk.old) (D.sight desk.new) result }
    ensures same { SameIn (D.sight desk.old) (D.sight desk.new) }
    ensures cause { CheckHasCause (D.sight desk.old) (D.sight desk.new) result }
    ensures refused { result ≡ Status.Answered → ⊥ }
{
    match cert_fault(alloc, fault) {
        Ok(text) => say(desk, Status::CertRefused, &text),
        Err(_) => Status::NoMemory,
    }
}

/// Checks the certificate on its port, which is read by pieces and never held whole, for the checks of a session.
pub fn check_session<D: Desk>(
    alloc: Global,
    desk: &mut D,
    name: &str,
    session: &Session,
    bound: Option<u32>,
) -> Status
    requires { IsSession (problems_of session.now) }
    ensures ends { EndsOnCheck None session.now bound name.now
        (D.sight desk.old) (D.sight desk.new) result }
    ensures cause { CheckHasCause (D.sight desk.old) (D.sight desk.new) result }
    ensures script { (D.sight desk.new).script ≡ (D.sight desk.old).script }
    ensures read { result ≡ Status.Answered → IsReadToEnd (D.sight desk.old) (D.sight desk.new) }
{
    match desk.start(Port::CertIn, name) {
        Ok(()) => {}
        Err(Denied::Failed) => return Status::InFailed,
        Err(Denied::Memory) => return Status::NoMemory,
    }
    match read_verdicts(alloc, desk, session, bound) {
        Ok(verdicts) => confirm(alloc, desk, verdicts),
        Err(Unconfirmed::Fault(fault)) => refuse(alloc, desk, fault),
        Err(Unconfirmed::Failed) => Status::InFailed,
    }
}
