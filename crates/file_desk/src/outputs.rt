// What is known of a file by its name.
use crate::draft::Draft;
use std::fs::File;
use std::io::ErrorKind;
use std::os::unix::fs::MetadataExt;
use std::{fs, io};

// The name of a file that is made to see whether one can be made in a folder.
const PROBE: &str = ".dpoly-probe";

/// Whether both names are of one plain file.
pub fn is_same_file(rt: &HostRuntime, one: &str, other: &str) -> bool {
    if one == "-" || other == "-" {
        return false;
    }
    match (fs::metadata(rt, one), fs::metadata(rt, other)) {
        (Ok(one), Ok(other)) => {
            one.is_file() && one.dev() == other.dev() && one.ino() == other.ino()
        }
        _ => false,
    }
}

/// Whether the name is that of a plain file, which can be read once more without waiting.
pub fn is_plain_file(rt: &HostRuntime, name: &str) -> bool {
    name != "-" && fs::metadata(rt, name).is_ok_and(|found| found.is_file())
}

/// Opens a file of this name for writing, where there is one, or else makes one beside it and takes that away again. No file
/// that is there is changed. The error is why nothing can be written under the name.
pub fn try_to_write(rt: &HostRuntime, name: &str) -> Result<(), io::Error> {
    if name == "-" {
        return Ok(());
    }
    match fs::metadata(rt, name) {
        Ok(found) if found.is_file() || found.is_dir() => {
            File::options().write(true).open(rt, name)?;
            Ok(())
        }
        Ok(_) => Ok(()),
        Err(error) if error.kind() == ErrorKind::NotFound => try_beside(rt, name),
        Err(error) => Err(error),
    }
}

// Makes a file in the folder of this name, under a name that is as short as that may be, and takes it away again.
fn try_beside(rt: &HostRuntime, name: &str) -> Result<(), io::Error> {
    let probe = match name.rsplit_once('/') {
        Some((folder, _)) => format!(in rt.alloc(); "{folder}/{PROBE}")?,
        None => PROBE.to_string(rt.alloc())?,
    };
    let (draft, _file) = Draft::create(rt, &probe)?;
    draft.remove(rt);
    Ok(())
}
