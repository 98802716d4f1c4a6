// What standard error says of a certificate that leaves boxes open or stuck: for people to read, and promised by no clause.
use crate::left::left_in;
use crate::outputs::is_plain_file;
use crate::portion::percent;

/// A certificate that leaves boxes, the script that it is of, and the bound of the call.
#[derive(Clone, Copy)]
pub struct Unfinished<'a> {
    pub script: &'a str,
    pub cert: &'a str,
    pub bound: Option<u32>,
}

// The name of a file as a word of a shell's command; this in its place where it is no plain word, or a standard stream.
fn word_of<'a>(name: &'a str, instead: &'a str) -> &'a str {
    for symbol in name.chars() {
        if !symbol.is_ascii_alphanumeric() && !matches!(symbol, '/' | '.' | '_' | '-' | '+') {
            return instead;
        }
    }
    if name.is_empty() || name.starts_with("-") {
        instead
    } else {
        name
    }
}

impl<'a> Unfinished<'a> {
    /// Says how many boxes the check with this number, from 0 on, is left with, and how much is closed.
    pub fn say_left(&self, rt: &HostRuntime, check: usize) {
        if !is_plain_file(rt, self.cert) {
            return;
        }
        if let Ok(Some(left)) = left_in(rt, self.cert, check) {
            if let Ok(closed) = percent(rt.alloc(), left.closed) {
                let boxes = left.boxes;
                let _ = eprintln!(rt;
                    "dpoly: boxes left: {boxes}; closed: {closed} of the declared box, where each split takes a box for two halves"
                );
            }
        }
    }

    /// Says the command that goes on.
    pub fn say_resume(&self, rt: &HostRuntime) {
        let script = word_of(self.script, "SCRIPT");
        let cert = word_of(self.cert, "CERT");
        let _ = match self.bound {
            Some(bound) => {
                eprintln!(rt;
                    "dpoly: to go on from it: dpoly resume --bound {bound} {script} {cert} OUT"
                )
            }
            None => eprintln!(rt; "dpoly: to go on from it: dpoly resume {script} {cert} OUT"),
        };
    }
}
