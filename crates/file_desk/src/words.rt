// The words of a call.
use std::alloc::AllocError;
use std::env;
use std::io::ErrorKind;

/// The words of the call of a program of this name. Where one of them is not UTF-8 there are none, so that the call is
/// refused for usage.
pub fn words_of(rt: &HostRuntime, program: &str) -> Result<Vec<String>, AllocError> {
    match env::args(rt) {
        Ok(args) => Ok(args.collect::<Vec<String>>(rt.alloc())?),
        Err(error) => match error.kind() {
            ErrorKind::OutOfMemory => Err(AllocError),
            _ => {
                let _ = eprintln!(rt; "{program}: an argument is not UTF-8");
                Ok(Vec::new(rt.alloc()))
            }
        },
    }
}
