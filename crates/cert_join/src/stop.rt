// Why certificates are not joined.
use cert_check::CertFault;

/// Why no whole certificate was written.
#[derive(Clone, Copy, Debug, PartialEq, Eq)]
pub enum Stop {
    /// A certificate could not be read.
    Failed,
    /// The draft could not be written.
    Denied,
    Memory,
    /// The certificates have different headers, or one has none that is read.
    Unlike,
    /// They have too many lemmas with different states.
    Crowded,
    /// The checker refuses what is joined.
    Refused(CertFault),
}

/// Why nothing more of what is joined is written.
#[derive(Clone, Copy, Debug, PartialEq, Eq)]
pub enum Unjoined {
    Memory,
    Unlike,
    Crowded,
}
