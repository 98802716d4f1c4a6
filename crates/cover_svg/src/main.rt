// The program `cover_svg SCRIPT CERT [ACROSS UPWARD]`: draws the cover that a certificate describes, projected to the Real
// constants of these two names.
#![tactic(auto)]

mod drawing;
mod fate;
mod fault;
mod frame;
mod picture;

use drawing::draw;
use fault::Fault;
use frame::Axes;
use std::alloc::Global;
use std::io::ErrorKind;
use std::process::ExitCode;
use std::{env, fs};

// The picture of the files that the words name.
fn drawn(rt: &HostRuntime, alloc: Global) -> Result<String, Fault> {
    let args = match env::args(rt) {
        Ok(args) => args,
        Err(error) => match error.kind() {
            ErrorKind::OutOfMemory => return Err(Fault::Memory),
            // One of them is not UTF-8.
            _ => return Err(Fault::Usage),
        },
    };
    let words = args.collect::<Vec<String>>(alloc)?;
    let (script, cert, axes) = match words.as_slice() {
        [_, script, cert] => (script, cert, Axes::All),
        [_, script, cert, across, upward] if across != upward => {
            let named = Axes::Named(across.as_bytes(), upward.as_bytes());
            (script, cert, named)
        }
        _ => return Err(Fault::Usage),
    };
    let Ok(script) = fs::read(rt, script.as_str()) else {
        return Err(Fault::Script);
    };
    let Ok(cert) = fs::read(rt, cert.as_str()) else {
        return Err(Fault::Cert);
    };
    draw(alloc, &script, &cert, axes)
}

fn main(rt: HostRuntime) -> ExitCode {
    let fault = match drawn(&rt, rt.alloc()) {
        Ok(text) => match rt.print(text) {
            Ok(()) => return ExitCode::from(0),
            Err(_) => Fault::Output,
        },
        Err(fault) => fault,
    };
    let status = fault.status();
    let _ = eprintln!(rt; "cover_svg: {fault}");
    ExitCode::from(status)
}
