// Certificates that are read at any place.
ghost use Rattle.std.specs.Prelude.{◌≡◌, ◌≤◌, length, IfOk};

use std::fs::{File, Metadata};
use std::io::ErrorKind;
use std::os::unix::fs::{FileExt, MetadataExt};
use std::{fs, io};

/// So many files stay open; one more is, while it takes the place of another.
const MOST_OPEN: usize = 255;

/// Which file it is, how long, and when it was last changed.
#[derive(Clone, Copy, PartialEq, Eq)]
struct Stamp {
    device: u64,
    node: u64,
    size: u64,
    seconds: i64,
    nanoseconds: i64,
}

/// A certificate: its name, and what its file was at the start.
#[derive(Drop)]
struct Part {
    name: String,
    stamp: Stamp,
}

/// The file of the certificate with this number.
#[derive(Drop)]
struct Opened {
    number: usize,
    file: File,
}

/// Certificates in the order of their starts. The file of number n stays open at place n mod `MOST_OPEN`, until another
/// that belongs there is read; it is opened again when it is read again.
#[derive(Drop)]
pub struct Parts {
    rt: HostRuntime,
    parts: Vec<Part>,
    opened: Vec<Opened>,
    failed: Option<String>,
}

fn stamp_of(metadata: &Metadata) -> Stamp {
    Stamp {
        device: metadata.dev(),
        node: metadata.ino(),
        size: metadata.len(),
        seconds: metadata.mtime(),
        nanoseconds: metadata.mtime_nsec(),
    }
}

// Opens a file that can be read at any place.
fn open(rt: &HostRuntime, name: &str) -> Result<(File, Stamp), io::Error> {
    let refused = "only a plain file can be read at any place";
    if name == "-" {
        return Err(io::Error::new(ErrorKind::InvalidInput, refused));
    }
    let file = fs::open(rt, name)?;
    let metadata = file.metadata()?;
    if metadata.is_file() {
        Ok((file, stamp_of(&metadata)))
    } else {
        Err(io::Error::new(ErrorKind::InvalidInput, refused))
    }
}

// Opens the file of a certificate again.
fn open_again(rt: &HostRuntime, part: &Part) -> Result<File, io::Error> {
    let (file, stamp) = open(rt, &part.name)?;
    if stamp == part.stamp {
        Ok(file)
    } else {
        Err(io::Error::other("the file was changed while it was read"))
    }
}

fn not_started() -> io::Error {
    io::Error::new(ErrorKind::NotFound, "no such certificate was started")
}

impl Parts {
    /// None is started yet.
    pub fn new(rt: HostRuntime) -> Self {
        Parts {
            rt,
            parts: Vec::new(rt.alloc()),
            opened: Vec::new(rt.alloc()),
            failed: None,
        }
    }

    /// Starts the next certificate.
    pub fn start(&mut self, name: &str) -> Result<(), io::Error> {
        let started = self.start_next(name);
        if started.is_err() && self.failed.is_none() {
            self.failed = name.to_string(self.rt.alloc()).ok();
        }
        started
    }

    fn start_next(&mut self, name: &str) -> Result<(), io::Error> {
        let (file, stamp) = open(&self.rt, name)?;
        let number = self.parts.len();
        let name = name.to_string(self.rt.alloc())?;
        self.put(Opened { number, file })?;
        self.parts.push(Part { name, stamp })?;
        Ok(())
    }

    // Keeps a file open, in place of the one that stood there.
    fn put(&mut self, opened: Opened) -> Result<(), io::Error> {
        match self.opened.get_mut(opened.number % MOST_OPEN) {
            Some(place) => {
                *place = opened;
                Ok(())
            }
            None => Ok(self.opened.push(opened)?),
        }
    }

    /// Reads a certificate into the front of a buffer, from a place on.
    pub fn read_at(&mut self, number: usize, at: u64, into: &mut [u8]) -> Result<usize, io::Error>
        ensures { IfOk result (λ n. n ≤ length into.new) }
    {
        let read = self.read_open(number, at, into);
        if read.is_err() && self.failed.is_none() {
            self.failed = self.name_of(number);
        }
        read
    }

    fn read_open(&mut self, number: usize, at: u64, into: &mut [u8]) -> Result<usize, io::Error>
        ensures { IfOk result (λ n. n ≤ length into.new) }
    {
        self.ensure_open(number)?;
        match self.opened.get(number % MOST_OPEN) {
            Some(opened) => opened.file.read_at(into, at),
            None => Err(not_started()),
        }
    }

    // The file of this certificate stands open at its place.
    fn ensure_open(&mut self, number: usize) -> Result<(), io::Error> {
        if let Some(opened) = self.opened.get(number % MOST_OPEN) {
            if opened.number == number {
                return Ok(());
            }
        }
        let file = match self.parts.get(number) {
            Some(part) => open_again(&self.rt, part)?,
            None => return Err(not_started()),
        };
        self.put(Opened { number, file })
    }

    fn name_of(&self, number: usize) -> Option<String> {
        let part = self.parts.get(number)?;
        part.name.to_string(self.rt.alloc()).ok()
    }

    /// The name of the first certificate that failed.
    pub fn failed(&self) -> Option<&str> {
        match &self.failed {
            Some(name) => Some(name),
            None => None,
        }
    }
}
