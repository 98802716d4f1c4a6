// What is refused before a run begins: a file to write that is the script, or that cannot be written. A search may take
// hours, and its certificate is written behind it. For people; promised by no clause.
use command_line::{Request, read_words};
use file_desk::{is_same_file, printable, try_to_write};
use std::io::ErrorKind;

// The names of the script and of the file that is written.
#[derive(Clone, Copy)]
struct Outcome<'a> {
    script: &'a str,
    out: &'a str,
}

fn outcome_of<'a>(request: &Request<'a>) -> Option<Outcome<'a>> {
    let (script, out) = match request {
        Request::Solve(asked) => (asked.script, asked.cert),
        Request::Minimize(asked) => (asked.script, asked.cert),
        Request::Demo(asked) => ("-", asked.cert),
        Request::Upgrade(asked) => (asked.script, asked.out),
        Request::Resume(asked) => (asked.script, asked.out),
        Request::Join(asked) => (asked.script, asked.out),
        Request::Check(_) | Request::Plan(_) => return None,
    };
    Some(Outcome { script, out })
}

/// Says on standard error why the file that these words name cannot be written, where it is so. Whether it is.
pub fn is_refused(rt: &HostRuntime, words: &[String]) -> bool {
    let Ok(request) = read_words(rt.alloc(), words) else {
        return false;
    };
    let Some(asked) = outcome_of(&request) else {
        return false;
    };
    let Ok(name) = printable(rt.alloc(), asked.out) else {
        return false;
    };
    if is_same_file(rt, asked.script, asked.out) {
        let _ = eprintln!(rt; "dpoly: cannot write {name}: it is the script");
        return true;
    }
    match try_to_write(rt, asked.out) {
        Ok(()) => false,
        Err(error) if error.kind() == ErrorKind::OutOfMemory => false,
        Err(error) => {
            let _ = eprintln!(rt; "dpoly: cannot write {name}: {error}");
            true
        }
    }
}
