// What standard error says of a run that gave no answer: for people to read, and promised by no clause.
ghost use Rattle.std.specs.Prelude.{◌<◌};

use crate::decimals::{decimals_of, ends_of};
use crate::files::FileDesk;
use crate::hints::{cert_hint_for, hint_for};
use crate::outputs::is_plain_file;
use desk::Port;
use std::alloc::{AllocError, Global};
use std::io::Read;
use std::{fs, io};

/// At most so many bytes of a script's line are shown.
const WINDOW: usize = 100;

/// At most so many lines of an answer are said again as decimals.
const MOST_LINES: usize = 32;

/// Where a script is refused: the line and the column, in bytes, both from 1.
#[derive(Clone, Copy, Debug, PartialEq, Eq)]
struct Spot {
    line: usize,
    column: usize,
}

// The place with which the text of a script's fault ends, if it is one within the script.
fn spot_in(text: &str) -> Option<Spot> {
    let (_, place) = text.trim_end().rsplit_once(' ')?;
    let (line, column) = place.split_once(':')?;
    match (line.parse::<usize>(), column.parse::<usize>()) {
        (Ok(line), Ok(column)) if line > 0 && column > 0 => Some(Spot { line, column }),
        _ => None,
    }
}

// The line of the script with this number, from 1.
fn line_at(script: &[u8], number: usize) -> Option<&[u8]>
    requires { 0 < number }
{
    script.split(|byte| *byte == b'\n').nth(number - 1)
}

// What stands in the script from the place to the end of its line.
fn text_at(script: &[u8], at: Spot) -> &[u8] {
    match line_at(script, at.line.max(1)) {
        Some(line) => line.get(at.column.saturating_sub(1)..).unwrap_or(&[]),
        None => &[],
    }
}

// What stands for a byte of a script, so that each takes one column.
fn plain(byte: u8) -> char {
    match byte {
        b' '..=b'~' => byte as char,
        b'\t' => ' ',
        _ => '?',
    }
}

// The line of the script at the place, and a caret under the place; a long line is cut.
fn excerpt(alloc: Global, script: &[u8], at: Spot) -> Result<String, AllocError> {
    let mut text = String::new(alloc);
    if at.line == 0 || at.column == 0 {
        return Ok(text);
    }
    let Some(line) = line_at(script, at.line) else {
        return Ok(text);
    };
    let first = at.column.saturating_sub(WINDOW / 2);
    text.push_str("  ")?;
    for byte in line.iter().skip(first).take(WINDOW) {
        text.push(plain(*byte))?;
    }
    text.push_str("\n  ")?;
    for _ in first + 1..at.column {
        text.push(' ')?;
    }
    text.push_str("^\n")?;
    Ok(text)
}

/// The text with each control character but a line feed at the end escaped: a name in a script, or of a file, cannot write
/// to a terminal.
pub fn printable(alloc: Global, text: &str) -> Result<String, AllocError> {
    let mut shown = String::new(alloc);
    let line = text.trim_end();
    for symbol in line.chars() {
        if symbol.is_control() {
            let code = symbol as u32;
            write!(shown, "\\x{code:02x}")?;
        } else {
            shown.push(symbol)?;
        }
    }
    if text.ends_with('\n') {
        shown.push('\n')?;
    }
    Ok(shown)
}

/// What standard error says of a run of a program: the program's name, and those of the script and of the certificate that
/// is read or written.
#[derive(Clone, Copy, Debug, PartialEq, Eq)]
pub struct Messages<'a> {
    pub program: &'a str,
    pub script: &'a str,
    pub cert_in: &'a str,
    pub cert_out: &'a str,
}

// What a file that is read is called.
fn source<'a>(name: &'a str) -> &'a str {
    if name == "-" { "standard input" } else { name }
}

// What a file that is written is called.
fn sink<'a>(name: &'a str) -> &'a str {
    if name == "-" { "standard output" } else { name }
}

// The first bytes of a plain file; none where it cannot be read.
fn beginning(rt: &HostRuntime, name: &str) -> Vec<u8> {
    let mut bytes = Vec::new(rt.alloc());
    if !is_plain_file(rt, name) {
        return bytes;
    }
    let mut buffer = [0u8; 16];
    if let Ok(mut file) = fs::open(rt, name) {
        if let Ok(count) = file.read(&mut buffer) {
            let _ = bytes.extend_from_slice(&buffer[..count]);
        }
    }
    bytes
}

impl<'a> Messages<'a> {
    // What a port is called; of certificates that are read at any place, the first that failed.
    fn port_name<'b>(&'b self, desk: &'b FileDesk, port: Port) -> &'b str {
        match port {
            Port::Script => source(self.script),
            Port::CertIn => source(self.cert_in),
            Port::Part => source(desk.failed_part().unwrap_or("a certificate")),
            Port::CertOut | Port::Draft => sink(self.cert_out),
            Port::Answer => "standard output",
        }
    }

    /// Says which port failed, and why.
    pub fn port_failed(&self, rt: &HostRuntime, desk: &FileDesk) {
        let Some(trouble) = desk.trouble() else {
            return;
        };
        let program = self.program;
        let Ok(name) = printable(rt.alloc(), self.port_name(desk, trouble.port)) else {
            return;
        };
        let verb = match trouble.port {
            Port::Script | Port::CertIn | Port::Part => "read",
            Port::CertOut | Port::Answer | Port::Draft => "write",
        };
        let _ = match &trouble.error {
            Some(error) => eprintln!(rt; "{program}: cannot {verb} {name}: {error}"),
            None => eprintln!(rt; "{program}: cannot {verb} {name}: nothing more was taken"),
        };
    }

    // Says what the program answered of the file of this name.
    fn say(&self, rt: &HostRuntime, name: &str, answer: &str) {
        let program = self.program;
        if let (Ok(name), Ok(answer)) = (
            printable(rt.alloc(), name),
            printable(rt.alloc(), answer),
        ) {
            let _ = eprint!(rt; "{program}: {name}: {answer}");
        }
    }

    /// The script once more: what came from standard input, or its file, which is read again.
    pub fn script_text(&self, rt: &HostRuntime, desk: &FileDesk) -> Option<Vec<u8>> {
        if self.script == "-" {
            Vec::from_slice(rt.alloc(), desk.piped_script()).ok()
        } else {
            fs::read(rt, self.script).ok()
        }
    }

    /// Shows a line of the script, with a caret under a column of it; both count from 1.
    pub fn show_place(&self, rt: &HostRuntime, script: &[u8], line: usize, column: usize) {
        if let Ok(shown) = excerpt(rt.alloc(), script, Spot { line, column }) {
            let _ = rt.eprint(shown);
        }
    }

    // Shows the place of a fault in the script, and answers what stands there.
    fn place_shown<'s>(&self, rt: &HostRuntime, script: &'s [u8], at: Spot) -> &'s [u8] {
        self.show_place(rt, script, at.line, at.column);
        text_at(script, at)
    }

    // Says what would help with the script that is refused by this answer, with this at the answer's place in it.
    fn help(&self, rt: &HostRuntime, answer: &str, behind: &[u8]) {
        if let Some(help) = hint_for(answer, behind) {
            let program = self.program;
            let _ = eprintln!(rt; "{program}: {help}");
        }
    }

    /// Says which script is refused, for what, shows its line, and says what would help.
    pub fn script_refused(&self, rt: &HostRuntime, desk: &FileDesk) {
        let text = desk.answer();
        self.say(rt, source(self.script), text);
        let Some(at) = spot_in(text) else {
            self.help(rt, text, &[]);
            return;
        };
        if let Some(script) = self.script_text(rt, desk) {
            let behind = self.place_shown(rt, &script, at);
            self.help(rt, text, behind);
        }
    }

    // Says the numbers of a line of an answer as decimals: of an axis of a point, or of a box, or a bound of a least value.
    fn line_as_decimals(&self, rt: &HostRuntime, line: &str) -> Result<(), AllocError> {
        let Some((rest, last)) = line.rsplit_once(' ') else {
            return Ok(());
        };
        if let Some((name, first)) = rest.rsplit_once(' ') {
            if let Some((lower, upper)) = ends_of(rt.alloc(), first, last)? {
                let program = self.program;
                let name = printable(rt.alloc(), name)?;
                let _ = eprintln!(rt; "{program}: {name} from {lower} to {upper}");
                return Ok(());
            }
        }
        if let Some(value) = decimals_of(rt.alloc(), last)? {
            let _ = self.say_decimal(rt, rest, &value);
        }
        Ok(())
    }

    fn say_decimal(&self, rt: &HostRuntime, name: &str, value: &str) -> io::Result<()> {
        let program = self.program;
        let name = printable(rt.alloc(), name)?;
        eprintln!(rt; "{program}: {name} = {value}")
    }

    /// Says the numbers of an answer as decimals, those of its first lines, behind which margins and deltas are left out.
    pub fn decimals(&self, rt: &HostRuntime, desk: &FileDesk) {
        for line in desk.answer().lines().take(MOST_LINES) {
            if !line.starts_with("margin ") && !line.starts_with("delta ") {
                let _ = self.line_as_decimals(rt, line);
            }
        }
    }

    /// Says which certificate is refused, and for what: by the last line of the answer.
    pub fn cert_refused(&self, rt: &HostRuntime, desk: &FileDesk) {
        let text = match desk.answer().split_once('\n') {
            Some((_, rest)) if !rest.is_empty() => rest,
            _ => desk.answer(),
        };
        self.say(rt, source(self.cert_in), text);
        if let Some(help) = cert_hint_for(text, &beginning(rt, self.cert_in)) {
            let program = self.program;
            let _ = eprintln!(rt; "{program}: {help}");
        }
    }

    /// Says that there was no memory.
    pub fn no_memory(&self, rt: &HostRuntime) {
        let program = self.program;
        let _ = eprintln!(rt; "{program}: out of memory");
    }
}
