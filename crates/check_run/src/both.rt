// A script and a certificate, both read whole before anything is done with them.
ghost use Rattle.std.specs.Prelude.{◌≡◌, MatchResult, Ok};
ghost use Rattle.check_run.specs.Both.{FetchesBoth, FetchesCert, FetchesScript, HaltsBoth, HaltsCert, HaltsScript, status_of};

use crate::ports::fetch;
use crate::status::Status;
use desk::{Denied, Desk, Port, ReadAll, read_all};
use std::alloc::Global;

/// What was read of the two in ports.
#[derive(Debug, Drop)]
pub struct Inputs {
    /// The script; none where it is longer than a script may be.
    pub script: Option<Vec<u8>>,
    pub cert: Vec<u8>,
}

/// Why they were not read: a port failed, or there was no memory.
#[derive(Clone, Copy, Debug, PartialEq, Eq)]
pub enum Unread {
    Failed,
    Memory,
}

impl Unread {
    /// The status of a run that ends so.
    pub fn status(self) -> Status
        ensures { result ≡ status_of self }
    {
        match self {
            Unread::Failed => Status::InFailed,
            Unread::Memory => Status::NoMemory,
        }
    }
}

/// The script on its port, or none where it is too long.
pub(crate) fn fetch_script<D: Desk>(
    alloc: Global,
    desk: &mut D,
    name: &str,
) -> Result<Option<Vec<u8>>, Unread>
    ensures { MatchResult result
        (λ x. FetchesScript name.now x (D.sight desk.old) (D.sight desk.new))
        (λ e. HaltsScript name.now e (D.sight desk.old) (D.sight desk.new)) }
{
    match fetch(alloc, desk, name) {
        Ok(bytes) => Ok(Some(bytes)),
        Err(ReadAll::TooLong) => Ok(None),
        Err(ReadAll::Failed) => Err(Unread::Failed),
        Err(ReadAll::Memory) => Err(Unread::Memory),
    }
}

// The certificate on its port. One of more bytes than can be addressed finds no memory.
fn fetch_cert<D: Desk>(alloc: Global, desk: &mut D, name: &str) -> Result<Vec<u8>, Unread>
    ensures { MatchResult result
        (λ v. FetchesCert name.now v.items (D.sight desk.old) (D.sight desk.new))
        (λ e. HaltsCert name.now e (D.sight desk.old) (D.sight desk.new)) }
{
    match desk.start(Port::CertIn, name) {
        Ok(()) => {}
        Err(Denied::Failed) => return Err(Unread::Failed),
        Err(Denied::Memory) => return Err(Unread::Memory),
    }
    match read_all(alloc, desk, Port::CertIn, usize::MAX) {
        Ok(bytes) => Ok(bytes),
        Err(ReadAll::Failed) => Err(Unread::Failed),
        Err(ReadAll::TooLong) | Err(ReadAll::Memory) => Err(Unread::Memory),
    }
}

/// The script and the certificate on their ports, in this order.
pub fn fetch_both<D: Desk>(
    alloc: Global,
    desk: &mut D,
    script: &str,
    cert: &str,
) -> Result<Inputs, Unread>
    ensures { MatchResult result
        (λ x. FetchesBoth script.now cert.now x (D.sight desk.old) (D.sight desk.new))
        (λ e. HaltsBoth script.now cert.now e (D.sight desk.old) (D.sight desk.new)) }
{
    let script = fetch_script(alloc, desk, script)?;
    match fetch_cert(alloc, desk, cert) {
        Ok(cert) => Ok(Inputs { script, cert }),
        Err(unread) => Err(unread),
    }
}
