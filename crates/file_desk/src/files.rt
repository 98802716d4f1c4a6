// The desk over real files and standard streams. It shows neither bytes nor starts.
ghost use Rattle.std.specs.Prelude.{◌≡◌, ◌≤◌, ◌<◌, length, IfOk, IfErr, OnOk, OnErr, IsErrOf};
ghost use Rattle.desk.specs.Sight.{SideFailed};

use crate::draft::Draft;
use crate::parts::Parts;
use crate::reading::Reading;
use desk::{Denied, Desk, Failed, Port};
use std::fs::File;
use std::io::{ErrorKind, Read, Stdin, Stdout, Write};
use std::{fs, io};

/// At most so many bytes of an answer are kept.
const MOST_KEPT: usize = 4096;

#[derive(Drop)]
enum Source {
    Closed,
    Input(Stdin),
    File(File),
}

#[derive(Drop)]
enum Sink {
    Closed,
    Output(Stdout),
    File(File),
}

/// A port that failed: why, unless it took nothing more without a reason.
#[derive(Drop)]
pub struct Trouble {
    pub port: Port,
    pub error: Option<io::Error>,
}

// Files that are open for nothing, so that no port is opened under the number of a standard stream that was closed.
#[derive(Drop)]
struct Held {
    _first: Option<File>,
    _second: Option<File>,
    _third: Option<File>,
}

/// Files by their names, and `-` for a standard stream. Keeps what a message about the run needs: the first failure, the
/// answer's first bytes, and a script that came from standard input. Shows how much of a certificate was read.
#[derive(Drop)]
pub struct FileDesk {
    rt: HostRuntime,
    _held: Held,
    trouble: Option<Trouble>,
    answered: Vec<u8>,
    piped: Vec<u8>,
    reading: Reading,
    script: Source,
    cert_in: Source,
    parts: Parts,
    answer: Sink,
    cert_out: Sink,
    draft: Option<Draft>,
    draft_out: Sink,
    in_faults: u64,
    out_faults: u64,
}

impl FileDesk {
    /// The desk of a run that begins now, of a program of this name.
    pub fn new(rt: HostRuntime, program: &'static str) -> Self {
        FileDesk {
            rt,
            _held: hold(&rt),
            trouble: None,
            answered: Vec::new(rt.alloc()),
            piped: Vec::new(rt.alloc()),
            reading: Reading::new(rt, program),
            script: Source::Closed,
            cert_in: Source::Closed,
            parts: Parts::new(rt),
            answer: Sink::Closed,
            cert_out: Sink::Closed,
            draft: None,
            draft_out: Sink::Closed,
            in_faults: 0,
            out_faults: 0,
        }
    }
}

// Counts a failure.
fn count(faults: &mut u64)
    ensures { SideFailed faults.old faults.new }
{
    *faults = faults.saturating_add(1);
}

// Opens a folder, which can be neither read nor written, under the lowest free number.
fn hold_one(rt: &HostRuntime) -> Option<File> {
    fs::open(rt, "/").ok()
}

fn hold(rt: &HostRuntime) -> Held {
    Held {
        _first: hold_one(rt),
        _second: hold_one(rt),
        _third: hold_one(rt),
    }
}

fn open(rt: &HostRuntime, name: &str) -> Result<Source, io::Error> {
    if name == "-" {
        return Ok(Source::Input(rt.stdin()));
    }
    match fs::open(rt, name) {
        Ok(file) => Ok(Source::File(file)),
        Err(error) => Err(error),
    }
}

// How many bytes a source has, where that is known.
fn size_of(source: &Source) -> Option<u64> {
    match source {
        Source::File(file) => {
            let metadata = file.metadata().ok()?;
            if metadata.is_file() {
                Some(metadata.len())
            } else {
                None
            }
        }
        Source::Closed | Source::Input(_) => None,
    }
}

fn create(rt: &HostRuntime, name: &str) -> Result<Sink, io::Error> {
    if name == "-" {
        return Ok(Sink::Output(rt.stdout()));
    }
    match fs::create(rt, name) {
        Ok(file) => Ok(Sink::File(file)),
        Err(error) => Err(error),
    }
}

// Why it failed, where it did.
fn read_some(source: &mut Source, into: &mut [u8]) -> Result<usize, Option<io::Error>>
    ensures { IfOk result (λ n. n ≤ length into.new) }
{
    let read = match source {
        Source::Closed => return Err(None),
        Source::Input(stdin) => stdin.read(into),
        Source::File(file) => file.read(into),
    };
    match read {
        Ok(n) => Ok(n),
        Err(error) => Err(Some(error)),
    }
}

// Why it failed, where it did, or none where it took nothing of a piece that is not empty.
fn write_some(sink: &mut Sink, from: &[u8]) -> Result<usize, Option<io::Error>>
    ensures fits { IfOk result (λ n. n ≤ length from.now) }
    ensures some { IfOk result (λ n. 0 < length from.now → 0 < n) }
{
    let written = match sink {
        Sink::Closed => return Err(None),
        Sink::Output(stdout) => stdout.write(from),
        Sink::File(file) => file.write(from),
    };
    match written {
        Ok(n) if n > 0 || from.is_empty() => Ok(n),
        Ok(_) => Err(None),
        Err(error) => Err(Some(error)),
    }
}

impl FileDesk {
    /// The first failure.
    pub fn trouble(&self) -> Option<&Trouble> {
        self.trouble.as_ref()
    }

    /// The first bytes of the answer.
    pub fn answer(&self) -> &str {
        match str::from_utf8(&self.answered) {
            Ok(text) => text,
            Err(_) => "",
        }
    }

    /// The script, where it came from standard input.
    pub fn piped_script(&self) -> &[u8] {
        &self.piped
    }

    /// The name of the first certificate that failed, of those that are read at any place.
    pub fn failed_part(&self) -> Option<&str> {
        self.parts.failed()
    }

    /// Ends what is shown of the reading of a certificate, and takes a draft away that was not kept.
    pub fn clear(&mut self) {
        self.reading.clear();
        self.discard();
    }

    // Closes a draft that was not kept, and takes it away.
    fn discard(&mut self)
        ensures in_faults { self.new.in_faults ≡ self.old.in_faults }
        ensures out_faults { self.new.out_faults ≡ self.old.out_faults }
    {
        self.draft_out = Sink::Closed;
        if let Some(draft) = self.draft.take() {
            draft.remove(&self.rt);
        }
    }

    // Keeps a failure, where it is the first.
    fn keep_trouble(&mut self, port: Port, error: Option<io::Error>)
        ensures in_faults { self.new.in_faults ≡ self.old.in_faults }
        ensures out_faults { self.new.out_faults ≡ self.old.out_faults }
    {
        if self.trouble.is_none() {
            self.trouble = Some(Trouble { port, error });
        }
    }

    // Keeps what was read of a script on standard input; where there is no memory, the message lacks it. Counts what was
    // read of a certificate.
    fn note_read(&mut self, port: Port, bytes: &[u8])
        ensures in_faults { self.new.in_faults ≡ self.old.in_faults }
        ensures out_faults { self.new.out_faults ≡ self.old.out_faults }
    {
        match (port, &self.script) {
            (Port::Script, Source::Input(_)) => {
                let _ = self.piped.extend_from_slice(bytes);
            }
            (Port::CertIn, _) => self.reading.go_on(bytes.len()),
            _ => {}
        }
    }

    // Keeps the first bytes of an answer.
    fn keep_answer(&mut self, port: Port, bytes: &[u8])
        ensures in_faults { self.new.in_faults ≡ self.old.in_faults }
        ensures out_faults { self.new.out_faults ≡ self.old.out_faults }
    {
        if port == Port::Answer && self.answered.len() < MOST_KEPT {
            let _ = self.answered.extend_from_slice(bytes);
        }
    }

    // A failure of the in side.
    fn fail_in(&mut self, port: Port, error: Option<io::Error>)
        ensures in_faults { SideFailed self.old.in_faults self.new.in_faults }
        ensures out_faults { self.new.out_faults ≡ self.old.out_faults }
    {
        self.keep_trouble(port, error);
        count(&mut self.in_faults);
    }

    // A failure of the out side.
    fn fail_out(&mut self, port: Port, error: Option<io::Error>)
        ensures in_faults { self.new.in_faults ≡ self.old.in_faults }
        ensures out_faults { SideFailed self.old.out_faults self.new.out_faults }
    {
        self.keep_trouble(port, error);
        count(&mut self.out_faults);
    }

    // Starts an in port.
    fn start_in(&mut self, port: Port, name: &str) -> Result<(), Denied>
        ensures ok { OnOk result (self.new.in_faults ≡ self.old.in_faults) }
        ensures failed { OnErr result (SideFailed self.old.in_faults self.new.in_faults) }
        ensures error { IfErr result (λ e. e ≡ Denied.Failed) }
        ensures out_faults { self.new.out_faults ≡ self.old.out_faults }
    {
        match open(&self.rt, name) {
            Ok(source) => {
                match port {
                    Port::Script => self.script = source,
                    _ => {
                        self.reading.begin(size_of(&source));
                        self.cert_in = source;
                    }
                }
                Ok(())
            }
            Err(error) => {
                self.fail_in(port, Some(error));
                Err(Denied::Failed)
            }
        }
    }

    // Starts the next certificate that is read at any place.
    fn start_part(&mut self, name: &str) -> Result<(), Denied>
        ensures ok { OnOk result (self.new.in_faults ≡ self.old.in_faults) }
        ensures failed { IsErrOf result Denied.Failed →
            SideFailed self.old.in_faults self.new.in_faults }
        ensures memory { IsErrOf result Denied.Memory →
            self.new.in_faults ≡ self.old.in_faults }
        ensures out_faults { self.new.out_faults ≡ self.old.out_faults }
    {
        match self.parts.start(name) {
            Ok(()) => Ok(()),
            Err(error) if error.kind() == ErrorKind::OutOfMemory => Err(Denied::Memory),
            Err(error) => {
                self.fail_in(Port::Part, Some(error));
                Err(Denied::Failed)
            }
        }
    }

    // Starts an out port.
    fn start_out(&mut self, port: Port, name: &str) -> Result<(), Denied>
        ensures ok { OnOk result (self.new.out_faults ≡ self.old.out_faults) }
        ensures failed { OnErr result (SideFailed self.old.out_faults self.new.out_faults) }
        ensures error { IfErr result (λ e. e ≡ Denied.Failed) }
        ensures in_faults { self.new.in_faults ≡ self.old.in_faults }
    {
        match create(&self.rt, name) {
            Ok(sink) => {
                match port {
                    Port::Answer => self.answer = sink,
                    _ => self.cert_out = sink,
                }
                Ok(())
            }
            Err(error) => {
                self.fail_out(port, Some(error));
                Err(Denied::Failed)
            }
        }
    }

    // Starts a draft.
    fn start_draft(&mut self, name: &str) -> Result<(), Denied>
        ensures ok { OnOk result (self.new.out_faults ≡ self.old.out_faults) }
        ensures failed { IsErrOf result Denied.Failed →
            SideFailed self.old.out_faults self.new.out_faults }
        ensures memory { IsErrOf result Denied.Memory →
            self.new.out_faults ≡ self.old.out_faults }
        ensures in_faults { self.new.in_faults ≡ self.old.in_faults }
    {
        self.discard();
        match self.begin_draft(name) {
            Ok(()) => Ok(()),
            Err(error) if error.kind() == ErrorKind::OutOfMemory => Err(Denied::Memory),
            Err(error) => {
                self.fail_out(Port::Draft, Some(error));
                Err(Denied::Failed)
            }
        }
    }

    // Creates the file of a draft.
    fn begin_draft(&mut self, name: &str) -> Result<(), io::Error>
        ensures in_faults { self.new.in_faults ≡ self.old.in_faults }
        ensures out_faults { self.new.out_faults ≡ self.old.out_faults }
    {
        let (draft, file) = Draft::create(&self.rt, name)?;
        self.draft_out = Sink::File(file);
        self.draft = Some(draft);
        Ok(())
    }

    // Gives the draft its name, when all that was written is in its file, and closes it.
    fn end_draft(&mut self) -> Result<(), Option<io::Error>>
        ensures in_faults { self.new.in_faults ≡ self.old.in_faults }
        ensures out_faults { self.new.out_faults ≡ self.old.out_faults }
    {
        let (Some(draft), Sink::File(file)) = (&self.draft, &self.draft_out) else {
            return Err(None);
        };
        file.sync_all()?;
        draft.keep(&self.rt)?;
        self.draft = None;
        self.draft_out = Sink::Closed;
        Ok(())
    }
}

impl Desk for FileDesk {
    ghost use Rattle.std.specs.Prelude.{None};

    ghost sight = { λ d. record { script = None; cert_in = None; parts = None; answer = None; cert_out = None; draft = None; starts = None; in_faults = d.in_faults; out_faults = d.out_faults } };

    fn start(&mut self, p: Port, name: &str) -> Result<(), Denied> {
        match p {
            Port::Script | Port::CertIn => self.start_in(p, name),
            Port::Part => self.start_part(name),
            Port::Answer | Port::CertOut => self.start_out(p, name),
            Port::Draft => self.start_draft(name),
        }
    }

    fn read(&mut self, p: Port, into: &mut [u8]) -> Result<usize, Failed> {
        let read = match p {
            Port::Script => read_some(&mut self.script, into),
            Port::CertIn => read_some(&mut self.cert_in, into),
            _ => unreachable!(),
        };
        match read {
            Ok(n) => {
                self.note_read(p, &into[..n]);
                Ok(n)
            }
            Err(error) => {
                self.fail_in(p, error);
                Err(Failed)
            }
        }
    }

    fn read_at(&mut self, number: usize, at: u64, into: &mut [u8]) -> Result<usize, Failed> {
        match self.parts.read_at(number, at, into) {
            Ok(n) => {
                self.reading.go_on(n);
                Ok(n)
            }
            Err(error) => {
                self.fail_in(Port::Part, Some(error));
                Err(Failed)
            }
        }
    }

    fn write(&mut self, p: Port, from: &[u8]) -> Result<usize, Denied> {
        let written = match p {
            Port::Answer => write_some(&mut self.answer, from),
            Port::CertOut => write_some(&mut self.cert_out, from),
            Port::Draft => write_some(&mut self.draft_out, from),
            _ => unreachable!(),
        };
        match written {
            Ok(n) => {
                self.keep_answer(p, &from[..n]);
                Ok(n)
            }
            Err(error) => {
                self.fail_out(p, error);
                Err(Denied::Failed)
            }
        }
    }

    fn keep(&mut self) -> Result<(), Denied> {
        match self.end_draft() {
            Ok(()) => Ok(()),
            Err(error) => {
                self.fail_out(Port::Draft, error);
                Err(Denied::Failed)
            }
        }
    }
}
