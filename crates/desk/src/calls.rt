// Which calls of a desk in memory are to fail, and how many it has seen.
ghost use Rattle.std.specs.Prelude.{◌≡◌};
ghost use Rattle.desk.specs.Calls.{calls_on, IsCounted};

use crate::Port;

/// A call that is to fail: the port, and which of its calls it is, from 0.
#[derive(Clone, Copy, Debug, PartialEq, Eq)]
pub struct Fault {
    pub port: Port,
    pub call: u64,
}

/// How many calls each port has seen.
#[derive(Clone, Copy, Debug, PartialEq, Eq)]
pub struct Calls {
    pub script: u64,
    pub cert_in: u64,
    pub part: u64,
    pub answer: u64,
    pub cert_out: u64,
    pub draft: u64,
}

impl Calls {
    // The calls that a port has seen.
    pub(crate) fn on(&self, p: Port) -> u64
        ensures { result ≡ calls_on p self.now }
    {
        match p {
            Port::Script => self.script,
            Port::CertIn => self.cert_in,
            Port::Part => self.part,
            Port::Answer => self.answer,
            Port::CertOut => self.cert_out,
            Port::Draft => self.draft,
        }
    }

    // One more call on a port.
    pub(crate) fn count(&mut self, p: Port)
        ensures one { IsCounted p self.old self.new }
    {
        match p {
            Port::Script => self.script = self.script.saturating_add(1),
            Port::CertIn => self.cert_in = self.cert_in.saturating_add(1),
            Port::Part => self.part = self.part.saturating_add(1),
            Port::Answer => self.answer = self.answer.saturating_add(1),
            Port::CertOut => self.cert_out = self.cert_out.saturating_add(1),
            Port::Draft => self.draft = self.draft.saturating_add(1),
        }
    }
}
