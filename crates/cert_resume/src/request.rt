// What is asked for.
ghost use Rattle.std.specs.Prelude.{◌≡◌};
ghost use Rattle.cert_resume.specs.Request.{IsShare, first_version, options_with, share_of};
ghost use Rattle.cert_resumed.specs.Resumed.{is_own};

use cert_base::Base;
use cover_data::Options;

/// Share `number` of `count` shares of the states that are left, from 1 to `count`: of each `count` states in a row one.
#[derive(Clone, Copy, Debug, PartialEq, Eq)]
pub struct Share {
    pub number: u32,
    pub count: u32,
}

/// What a cover is resumed with.
#[derive(Clone, Copy, Debug, PartialEq, Eq)]
pub struct Request {
    /// The bits of the least width: no axis of a side of at most 2 to the power of minus this is cut.
    pub least_bits: u32,
    /// How many branches may be made in all.
    pub budget: u32,
    /// How many workers search.
    pub workers: u32,
    /// The states that are searched.
    pub share: Share,
}

impl Share {
    /// Whether the state of this number, counted from 0, is in the share.
    pub fn has(self, place: usize) -> bool
        requires { IsShare self }
        ensures { result ≡ is_own (share_of self) place }
    {
        place % self.count as usize == self.number as usize - 1
    }
}

// The version of the format in which a search begins that goes on from one of this version.
fn first_version(version: u32) -> u32
    ensures { result ≡ first_version version }
{
    if version <= 2 { 2 } else { 5 }
}

/// What a book is searched for that goes on from the base, with so many branches left.
pub fn options_with(base: &Base, request: Request, budget: u32) -> Options
    ensures { result ≡ options_with base.now request budget }
{
    Options {
        delta_bits: base.delta,
        margin_bits: base.margin,
        least_bits: request.least_bits,
        version: first_version(base.version),
        budget,
        workers: request.workers,
        bound: base.bound,
    }
}
