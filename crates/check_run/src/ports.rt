// Whole texts on a run's ports.
ghost use Rattle.std.specs.Prelude.{◌≡◌, ◌≤◌, ◌<◌, [], OnOk, IfOk, IfSome, IsErrOf, length, option_map};
ghost use Rattle.desk.specs.Sight.{IsOut, with_bytes, with_start, SideFailed, faults_on};
ghost use Rattle.script_reading.specs.Faults.{most_bytes};
ghost use Rattle.check_run.specs.Course.{Ends, Quiet, says, gives};
ghost use Rattle.check_run.specs.Run.{SameIn};
ghost use Rattle.check_run.specs.Parts.{IsTextPort, PutStops, After};
ghost use Rattle.check_run.specs.Script.{script_start};

use crate::status::Status;
use desk::{Denied, Desk, Port, ReadAll, read_all, write_whole};
use std::alloc::Global;

// The most bytes that a script has.
pub const SCRIPT_LIMIT: usize = 67_108_864;

// Starts a port and writes a whole text on it.
fn put<D: Desk>(desk: &mut D, port: Port, name: &str, text: &[u8]) -> Result<(), Denied>
    requires out { IsOut port }
    requires text { IsTextPort port }
    ensures ok { OnOk result (D.sight desk.new
        ≡ with_bytes port text.now (with_start port name.now (D.sight desk.old))) }
    ensures failed { IsErrOf result Denied.Failed →
        PutStops port name.now text.now (D.sight desk.old) (D.sight desk.new) }
    ensures side { IsErrOf result Denied.Failed →
        SideFailed (faults_on port (D.sight desk.old)) (faults_on port (D.sight desk.new)) }
    ensures memory { IsErrOf result Denied.Memory →
        PutStops port name.now text.now (D.sight desk.old) (D.sight desk.new) }
{
    match desk.start(port, name) {
        Ok(()) => write_whole(desk, port, text),
        Err(denied) => Err(denied),
    }
}

/// Gives an answer alone, with its status.
pub fn say<D: Desk>(desk: &mut D, status: Status, text: &[u8]) -> Status
    ensures ends { Ends (says status text.now) (D.sight desk.old) (D.sight desk.new) result }
    ensures same { SameIn (D.sight desk.old) (D.sight desk.new) }
{
    match put(desk, Port::Answer, "-", text) {
        Ok(()) => status,
        Err(Denied::Failed) => Status::OutFailed,
        Err(Denied::Memory) => Status::NoMemory,
    }
}

/// Gives a certificate whole, and then an answer.
pub fn finish<D: Desk>(desk: &mut D, name: &str, cert: &[u8], text: &[u8]) -> Status
    ensures ends { Ends (gives name.now cert.now text.now)
        (D.sight desk.old) (D.sight desk.new) result }
    ensures same { SameIn (D.sight desk.old) (D.sight desk.new) }
{
    match put(desk, Port::CertOut, name, cert) {
        Ok(()) => say(desk, Status::Answered, text),
        Err(Denied::Failed) => Status::OutFailed,
        Err(Denied::Memory) => Status::NoMemory,
    }
}

/// The whole script.
pub fn fetch<D: Desk>(alloc: Global, desk: &mut D, name: &str) -> Result<Vec<u8>, ReadAll>
    ensures all { IfOk result (λ v. IfSome (D.sight desk.old).script (λ script. v.items ≡ script)) }
    ensures end { OnOk result ((D.sight desk.new).script
        ≡ option_map (λ script. []) (D.sight desk.old).script) }
    ensures after { OnOk result
        (After (script_start name.now) (D.sight desk.old) (D.sight desk.new)) }
    ensures other { (D.sight desk.new).cert_in ≡ (D.sight desk.old).cert_in }
    ensures parts { (D.sight desk.new).parts ≡ (D.sight desk.old).parts }
    ensures failed { IsErrOf result ReadAll.Failed →
        Quiet (script_start name.now) (D.sight desk.old) (D.sight desk.new) }
    ensures side { IsErrOf result ReadAll.Failed →
        SideFailed (D.sight desk.old).in_faults (D.sight desk.new).in_faults }
    ensures long { IsErrOf result ReadAll.TooLong →
        After (script_start name.now) (D.sight desk.old) (D.sight desk.new) }
    ensures too_long { IsErrOf result ReadAll.TooLong →
        IfSome (D.sight desk.old).script (λ held. most_bytes < length held) }
    ensures memory { IsErrOf result ReadAll.Memory →
        Quiet (script_start name.now) (D.sight desk.old) (D.sight desk.new) }
{
    match desk.start(Port::Script, name) {
        Ok(()) => read_all(alloc, desk, Port::Script, SCRIPT_LIMIT),
        Err(Denied::Failed) => Err(ReadAll::Failed),
        Err(Denied::Memory) => Err(ReadAll::Memory),
    }
}
