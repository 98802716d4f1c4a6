// Why there is no picture.

use cert_check::CertFault;
use script_fault::ReadError;
use std::alloc::{AllocError, AllocFailed};
use thiserror::Error;

/// Why there is no picture.
#[derive(Debug, Drop, Error)]
pub enum Fault {
    #[error("wants the names of a script and of a certificate, and for a projection those of two Real constants")]
    Usage,
    #[error("the script can't be read")]
    Script,
    #[error("the certificate can't be read")]
    Cert,
    #[error("the picture can't be written")]
    Output,
    #[error("out of memory")]
    Memory,
    /// The script has a fault.
    #[error("script: {0}")]
    Refused(ReadError),
    /// The script has another number of Real constants than two, and none was named.
    #[error("the script does not have two Real constants: name two of them, behind the certificate")]
    Axes,
    /// The script has no Real constant of a name that was given.
    #[error("the script does not have Real constants of these two names")]
    NoAxis,
    /// The bounds of a constant cross.
    #[error("the declared box is empty")]
    EmptyBox,
    /// The certificate is refused.
    #[error("certificate: {0}")]
    Unconfirmed(CertFault),
}

impl Fault {
    /// The status with which the program ends: 1 for the certificate, 2 for the script, 3 for the words, 4 where a file
    /// is not read, 5 where the picture is not written, 6 where there is no memory.
    pub fn status(&self) -> u8 {
        match self {
            Fault::Unconfirmed(CertFault::Memory) => 6,
            Fault::Unconfirmed(_) => 1,
            Fault::Axes | Fault::NoAxis | Fault::EmptyBox => 2,
            Fault::Refused(ReadError::Memory) => 6,
            Fault::Refused(_) => 2,
            Fault::Usage => 3,
            Fault::Script | Fault::Cert => 4,
            Fault::Output => 5,
            Fault::Memory => 6,
        }
    }
}

impl From<ReadError> for Fault {
    fn from(error: ReadError) -> Self {
        Fault::Refused(error)
    }
}

impl From<CertFault> for Fault {
    fn from(fault: CertFault) -> Self {
        Fault::Unconfirmed(fault)
    }
}

impl From<AllocError> for Fault {
    fn from(_: AllocError) -> Self {
        Fault::Memory
    }
}

impl<T: Drop> From<AllocFailed<T>> for Fault {
    fn from(_: AllocFailed<T>) -> Self {
        Fault::Memory
    }
}
