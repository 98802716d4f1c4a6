ghost use Rattle.std.specs.Prelude.{◌≡◌};
ghost use Rattle.check_run.specs.Statuses.{exit_code};

/// How a run ended.
#[derive(Clone, Copy, Debug, PartialEq, Eq)]
pub enum Status {
    /// The answer was given.
    Answered,
    /// A certificate was refused.
    CertRefused,
    /// A script was refused.
    ScriptRefused,
    /// The words were refused.
    Usage,
    /// A script or a certificate could not be read.
    InFailed,
    /// A certificate or an answer could not be written.
    OutFailed,
    /// There was no memory.
    NoMemory,
}

impl Status {
    /// The program's exit status, from 0 to 6.
    pub fn code(self) -> u8
        ensures { result ≡ exit_code self }
    {
        match self {
            Status::Answered => 0,
            Status::CertRefused => 1,
            Status::ScriptRefused => 2,
            Status::Usage => 3,
            Status::InFailed => 4,
            Status::OutFailed => 5,
            Status::NoMemory => 6,
        }
    }
}
