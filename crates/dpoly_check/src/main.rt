// The checker alone: reads the words of the call, and hands them with the real ports to `run_top`.
#![tactic(auto)]

mod explain;
mod top;

pub use check_run::Status;
use explain::explain;
use file_desk::{FileDesk, words_of};
use std::process::ExitCode;
pub use top::run_top;

fn main(rt: HostRuntime) -> ExitCode {
    let mut desk = FileDesk::new(rt, "dpoly-check");
    let Ok(words) = words_of(&rt, "dpoly-check") else {
        return ExitCode::from(Status::NoMemory.code());
    };
    let status = run_top(rt.alloc(), &words, &mut desk);
    desk.clear();
    explain(&rt, &words, &desk, status);
    ExitCode::from(status.code())
}
