// How far a certificate is.
ghost use Rattle.cert_least.specs.Phases.{IsFaultIn};

use cert_check::{CertFault, Loosenings};
use dyadic::Dy;

/// What a header told so far: its version, and the bits of its margin and of its delta; 0 where they are not told.
#[derive(Clone, Copy)]
pub struct Told {
    pub version: u32,
    pub margin: u32,
    pub delta: u32,
}

/// What a cover is of: the lower bound, and the bits of the limit of the goal, where there is one.
#[derive(Clone, Copy)]
pub struct Scope {
    pub lower: Option<Dy>,
    pub bits: Option<u32>,
}

/// The kind of the next line, over what is due to the checker of the check.
#[derive(Clone, Copy)]
pub enum Phase {
    /// The first line.
    Version,
    /// A later line of a certificate of the check, of which no `lower` may follow.
    Plain,
    /// A line of a header behind the first, where `lower` may follow.
    Header(Told),
    /// `lower`, or in version 5 a line of a certificate of the check.
    Lower(Told),
    /// `cover`, or where there is no limit before it, `goal`.
    Cover(Told, Scope),
    /// A later line of the cover, or one behind it.
    InCover(Scope),
    /// A line behind `point`, with the header of the cover.
    InPoint(Loosenings, Option<Dy>),
    /// A fault is answered for good.
    Stopped(CertFault),
}

/// The fault that is answered for good.
pub fn fault_in(phase: Phase) -> Option<CertFault>
    ensures { IsFaultIn phase result }
{
    match phase {
        Phase::Stopped(fault) => Some(fault),
        _ => None,
    }
}
