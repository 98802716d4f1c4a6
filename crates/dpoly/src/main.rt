// The program: reads the words of the call, and hands them with the real ports to `run_top`.
#![tactic(auto)]

mod ahead;
mod alone;
mod answers;
mod auto;
mod explain;
mod join;
mod leaf;
mod lists;
mod located;
mod minimize;
mod plan;
mod progress;
mod resume;
mod resumption;
mod solve;
mod top;
mod upgrade;
mod upgrade_goal;
mod walk;

use ahead::is_refused;
use auto::resolve_workers;
pub use check_run::Status;
use explain::explain;
use file_desk::{FileDesk, words_of};
use lists::resolve_lists;
use progress::Progress;
pub use solve_core::{Gate, NoGate};
use std::process::ExitCode;
pub use top::run_top;

fn main(rt: HostRuntime) -> ExitCode {
    let mut desk = FileDesk::new(rt, "dpoly");
    let Ok(mut words) = words_of(&rt, "dpoly") else {
        return ExitCode::from(Status::NoMemory.code());
    };
    if resolve_workers(&rt, rt.alloc(), &mut words).is_err() {
        return ExitCode::from(Status::NoMemory.code());
    }
    if let Err(status) = resolve_lists(&rt, &mut words) {
        return ExitCode::from(status.code());
    }
    if is_refused(&rt, &words) {
        return ExitCode::from(Status::OutFailed.code());
    }
    let gate = Progress::new(rt);
    let status = run_top(&rt, rt.alloc(), &words, &mut desk, &gate);
    gate.clear();
    desk.clear();
    explain(&rt, &words, &desk, status);
    ExitCode::from(status.code())
}
