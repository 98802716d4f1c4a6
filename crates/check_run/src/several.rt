// A script that is read whole, the starts of several certificates, and the draft of the one that is written.
ghost use Rattle.std.specs.Prelude.{◌≡◌, [], ◌∷◌, MatchResult};
ghost use Rattle.desk.specs.Sight.{with_start};
ghost use Rattle.command_line.specs.Seen.{seen_join, texts_behind};
ghost use Rattle.check_run.specs.Joined.{part_starts, several_starts};
ghost use Rattle.check_run.specs.Several.{FetchesSeveral, HaltsSeveral, IsHalted, Starts, StartsSeveral};

use crate::both::fetch_script;
use crate::status::Status;
use command_line::JoinWords;
use desk::{Denied, Desk, Port};
use std::alloc::Global;

// Starts the port of each certificate, in their order.
fn start_parts<D: Desk>(desk: &mut D, names: &[&str]) -> Result<(), Status>
    ensures starts { MatchResult result
        (λ x. Starts (part_starts (texts_behind names.now))
        (D.sight desk.old) (D.sight desk.new))
        (λ status. IsHalted (part_starts (texts_behind names.now)) status
        (D.sight desk.old) (D.sight desk.new)) }
    ensures script { (D.sight desk.new).script ≡ (D.sight desk.old).script }
{
    for name in names {
        match desk.start(Port::Part, name) {
            Ok(()) => {}
            Err(Denied::Failed) => return Err(Status::InFailed),
            Err(Denied::Memory) => return Err(Status::NoMemory),
        }
    }
    Ok(())
}

// Starts a draft, which is empty.
fn start_draft<D: Desk>(desk: &mut D, name: &str) -> Result<(), Status>
    ensures starts { MatchResult result
        (λ x. D.sight desk.new ≡ with_start Port.Draft name.now (D.sight desk.old))
        (λ status. IsHalted ((Port.Draft, name.now) ∷ []) status
        (D.sight desk.old) (D.sight desk.new)) }
    ensures script { (D.sight desk.new).script ≡ (D.sight desk.old).script }
{
    match desk.start(Port::Draft, name) {
        Ok(()) => Ok(()),
        Err(Denied::Failed) => Err(Status::OutFailed),
        Err(Denied::Memory) => Err(Status::NoMemory),
    }
}

// Starts the ports of the certificates, and then the draft.
fn start_several<D: Desk>(desk: &mut D, names: &[&str], out: &str) -> Result<(), Status>
    ensures starts { MatchResult result
        (λ x. StartsSeveral (texts_behind names.now) out.now
        (D.sight desk.old) (D.sight desk.new))
        (λ status. IsHalted (several_starts (texts_behind names.now) out.now) status
        (D.sight desk.old) (D.sight desk.new)) }
    ensures script { (D.sight desk.new).script ≡ (D.sight desk.old).script }
{
    match start_parts(desk, names) {
        Ok(()) => start_draft(desk, out),
        Err(status) => Err(status),
    }
}

/// The script on its port, or none where it is too long; behind it the ports of the certificates and the draft are
/// started.
pub fn fetch_several<D: Desk>(
    alloc: Global,
    desk: &mut D,
    asked: &JoinWords<'_>,
) -> Result<Option<Vec<u8>>, Status>
    ensures { MatchResult result
        (λ x. FetchesSeveral (seen_join asked.now) x (D.sight desk.old) (D.sight desk.new))
        (λ status. HaltsSeveral (seen_join asked.now) status (D.sight desk.old) (D.sight desk.new)) }
{
    match fetch_script(alloc, desk, asked.script) {
        Ok(script) => match start_several(desk, &asked.certs, asked.out) {
            Ok(()) => Ok(script),
            Err(status) => Err(status),
        },
        Err(unread) => Err(unread.status()),
    }
}
