// The names of a certificate that is written in pieces.
use std::fs::File;
use std::io::ErrorKind;
use std::{fs, io};

/// What stands behind a certificate's name in that of its draft, in the same folder, before the draft's number.
const SUFFIX: &str = ".part";

/// So many names are tried.
const MOST_NAMES: u32 = 1000;

/// The name that a draft takes when it is kept, and the one that it has until then, which is its own.
#[derive(Drop)]
pub struct Draft {
    name: String,
    path: String,
}

impl Draft {
    /// A draft of the certificate with this name, and its file, which is made anew: no file that is there is opened, and
    /// no link is followed. Refused where something else than a plain file has the name.
    pub fn create(rt: &HostRuntime, name: &str) -> Result<(Draft, File), io::Error> {
        if name == "-" || fs::metadata(rt, name).is_ok_and(|found| !found.is_file()) {
            let refused = "it is written as a draft first, which takes a plain file's name only";
            return Err(io::Error::new(ErrorKind::InvalidInput, refused));
        }
        let name = name.to_string(rt.alloc())?;
        for number in 1..=MOST_NAMES {
            let path = format!(in rt.alloc(); "{name}{SUFFIX}{number}")?;
            match File::create_new(rt, &path) {
                Ok(file) => return Ok((Draft { name, path }, file)),
                Err(error) if error.kind() == ErrorKind::AlreadyExists => {}
                Err(error) => return Err(error),
            }
        }
        let refused = "too many drafts of it were left in its folder";
        Err(io::Error::new(ErrorKind::AlreadyExists, refused))
    }

    /// The draft takes its name.
    pub fn keep(&self, rt: &HostRuntime) -> Result<(), io::Error> {
        fs::rename(rt, &self.path, &self.name)
    }

    /// Takes the draft away.
    pub fn remove(&self, rt: &HostRuntime) {
        let _ = fs::remove_file(rt, &self.path);
    }
}
