// Desks in memory, which tell all their bytes and starts.
ghost use Rattle.std.specs.Prelude.{◌≡◌, ◌<◌, ◌≤◌, ◌++◌, ◌+◌, ◌∷◌, ◌^◌, ◌-◌, ◌↔◌, [], length, take, drop, min, IfOk, OnOk, OnErr, IsTrue, IsErr, IsErrOf, Contains};

use crate::calls::{Calls, Fault};
use crate::{Denied, Desk, Failed, Port};
use std::alloc::{AllocError, Global};

/// The bytes of a port that is read, and how many of them were read.
#[derive(Drop)]
pub struct Source {
    bytes: Vec<u8>,
    at: usize,
    ghost within: { at ≤ length bytes.items },
}

impl Source {
    ghost use Rattle.desk.specs.Memory.{left_in};

    // Reads at most so many bytes to the front of a buffer, and answers how many.
    fn read(&mut self, most: usize, into: &mut [u8]) -> usize
        ensures count { result ≡ min most (min (length (left_in self.old)) (length into.old)) }
        ensures bytes { into.new ≡ take result (left_in self.old) ++ drop result into.old }
        ensures same { self.new.bytes ≡ self.old.bytes }
        ensures at { self.new.at ≡ self.old.at + result }
    {
        let n = copy_front(&self.bytes[self.at..], most, into);
        self.at += n;
        n
    }
}

/// A start that answered Ok.
#[derive(Drop)]
pub struct Start {
    pub port: Port,
    pub name: String,
}

/// A desk in memory that never fails.
#[derive(Drop)]
pub struct SteadyDesk {
    alloc: Global,
    script: Source,
    cert_in: Source,
    parts: Vec<Vec<u8>>,
    answer: Vec<u8>,
    cert_out: Vec<u8>,
    draft: Vec<u8>,
    starts: Vec<Start>,
    most: usize,
    ghost some: { 0 < most },
}

/// A desk in memory that fails at the calls of a list.
#[derive(Drop)]
pub struct MemoryDesk {
    steady: SteadyDesk,
    faults: Vec<Fault>,
    calls: Calls,
    in_faults: u64,
    out_faults: u64,
}

// Copies what fits to the front of a buffer, and answers how much that was.
fn copy_front(rest: &[u8], most: usize, into: &mut [u8]) -> usize
    ensures count { result ≡ min most (min (length rest.now) (length into.old)) }
    ensures bytes { into.new ≡ take result rest.now ++ drop result into.old }
{
    let n = most.min(rest.len().min(into.len()));
    into[..n].copy_from_slice(&rest[..n]);
    n
}

// What stands from a place on.
fn rest_from(bytes: &[u8], at: u64) -> &[u8]
    ensures { result.now ≡ drop at bytes.now }
{
    let at = (bytes.len() as u64).min(at);
    &bytes[at as usize..]
}

fn is_listed(faults: &[Fault], fault: Fault) -> bool
    ensures { IsTrue result ↔ Contains faults.now fault }
{
    faults.contains(&fault)
}

// Appends what is taken at once, and answers how much that was.
fn append_front(sink: &mut Vec<u8>, most: usize, piece: &[u8]) -> Result<usize, AllocError>
    ensures ok { OnOk result (sink.new.items
        ≡ sink.old.items ++ take (min most (length piece.now)) piece.now) }
    ensures count { IfOk result (λ n. n ≡ min most (length piece.now)) }
    ensures err { OnErr result (sink.new.items ≡ sink.old.items) }
{
    let n = most.min(piece.len());
    sink.extend_from_slice(&piece[..n])?;
    Ok(n)
}

impl SteadyDesk {
    ghost use Rattle.std.specs.Prelude.{◌≡◌, ◌<◌, Some, [], map};
    ghost use Rattle.desk.specs.Sight.{left_on, written_on, IsIn, IsOut};
    ghost use Rattle.desk.specs.Memory.{steady_sight, start_of, parts_of, unused_sight};

    /// Ports with these bytes to read, and calls that take at most this many bytes.
    pub fn new(alloc: Global, script: Vec<u8>, cert_in: Vec<u8>, most: usize) -> Self
        requires { 0 < most }
        ensures { steady_sight result ≡ unused_sight script.items cert_in.items }
    {
        SteadyDesk {
            alloc,
            script: Source {
                bytes: script,
                at: 0,
            },
            cert_in: Source {
                bytes: cert_in,
                at: 0,
            },
            parts: Vec::new(alloc),
            answer: Vec::new(alloc),
            cert_out: Vec::new(alloc),
            draft: Vec::new(alloc),
            starts: Vec::new(alloc),
            most,
        }
    }

    /// The same desk with these certificates to read at any place.
    pub fn with_parts(mut self, parts: Vec<Vec<u8>>) -> Self
        ensures { steady_sight result
            ≡ record (steady_sight self) { parts = Some (parts_of parts) } }
    {
        self.parts = parts;
        self
    }

    /// What was written on a port.
    pub fn written(&self, p: Port) -> &[u8]
        requires { IsOut p }
        ensures { written_on p (steady_sight self.now) ≡ Some result.now }
    {
        match p {
            Port::Answer => &self.answer,
            Port::CertOut => &self.cert_out,
            Port::Draft => &self.draft,
            _ => unreachable!(),
        }
    }

    /// What is left to read on a port.
    pub fn left(&self, p: Port) -> &[u8]
        requires { IsIn p }
        ensures { left_on p (steady_sight self.now) ≡ Some result.now }
    {
        match p {
            Port::Script => &self.script.bytes[self.script.at..],
            Port::CertIn => &self.cert_in.bytes[self.cert_in.at..],
            _ => unreachable!(),
        }
    }

    /// The starts that answered Ok.
    pub fn starts(&self) -> &[Start]
        ensures { (steady_sight self.now).starts ≡ Some (map start_of result.now) }
    {
        &self.starts
    }
}

impl Desk for SteadyDesk {
    ghost use Rattle.desk.specs.Memory.{steady_sight};

    ghost sight = { steady_sight };

    fn start(&mut self, p: Port, name: &str) -> Result<(), Denied> {
        let name = name.to_string(self.alloc)?;
        self.starts.push(Start { port: p, name })?;
        if let Port::Draft = p {
            self.draft.clear();
        }
        Ok(())
    }

    fn read(&mut self, p: Port, into: &mut [u8]) -> Result<usize, Failed> {
        match p {
            Port::Script => Ok(self.script.read(self.most, into)),
            Port::CertIn => Ok(self.cert_in.read(self.most, into)),
            _ => unreachable!(),
        }
    }

    fn read_at(&mut self, number: usize, at: u64, into: &mut [u8]) -> Result<usize, Failed> {
        match self.parts.get(number) {
            Some(bytes) => Ok(copy_front(rest_from(bytes, at), self.most, into)),
            None => Ok(0),
        }
    }

    fn write(&mut self, p: Port, from: &[u8]) -> Result<usize, Denied> {
        match p {
            Port::Answer => Ok(append_front(&mut self.answer, self.most, from)?),
            Port::CertOut => Ok(append_front(&mut self.cert_out, self.most, from)?),
            Port::Draft => Ok(append_front(&mut self.draft, self.most, from)?),
            _ => unreachable!(),
        }
    }

    fn keep(&mut self) -> Result<(), Denied> {
        self.cert_out.extend_from_slice(&self.draft)?;
        self.draft.clear();
        Ok(())
    }
}

impl MemoryDesk {
    ghost use Rattle.std.specs.Prelude.{◌≡◌, ◌<◌, Some, [], OnOk, OnErr, map};
    ghost use Rattle.desk.specs.Sight.{left_on, written_on, IsIn, IsOut, FailsOn};
    ghost use Rattle.desk.specs.Calls.{IsCounted, no_calls};
    ghost use Rattle.desk.specs.Memory.{memory_sight, start_of, IsDue, calls_of, faults_of, parts_of, unused_sight};

    /// Ports with these bytes to read, and calls that take at most this many bytes. None fails yet.
    pub fn new(alloc: Global, script: Vec<u8>, cert_in: Vec<u8>, most: usize) -> Self
        requires { 0 < most }
        ensures sight { memory_sight result ≡ unused_sight script.items cert_in.items }
        ensures calls { calls_of result ≡ no_calls }
        ensures faults { faults_of result ≡ [] }
    {
        MemoryDesk {
            steady: SteadyDesk::new(alloc, script, cert_in, most),
            faults: Vec::new(alloc),
            calls: Calls {
                script: 0,
                cert_in: 0,
                part: 0,
                answer: 0,
                cert_out: 0,
                draft: 0,
            },
            in_faults: 0,
            out_faults: 0,
        }
    }

    /// The same desk with these certificates to read at any place.
    pub fn with_parts(mut self, parts: Vec<Vec<u8>>) -> Self
        ensures sight { memory_sight result
            ≡ record (memory_sight self) { parts = Some (parts_of parts) } }
        ensures calls { calls_of result ≡ calls_of self }
        ensures faults { faults_of result ≡ faults_of self }
    {
        self.steady.parts = parts;
        self
    }

    /// One more call that is to fail.
    pub fn fail(&mut self, fault: Fault) -> Result<(), AllocError>
        ensures same { memory_sight self.new ≡ memory_sight self.old }
        ensures calls { calls_of self.new ≡ calls_of self.old }
        ensures ok { OnOk result (faults_of self.new ≡ faults_of self.old ++ fault ∷ []) }
        ensures err { OnErr result (faults_of self.new ≡ faults_of self.old) }
    {
        self.faults.push(fault)?;
        Ok(())
    }

    /// What was written on a port.
    pub fn written(&self, p: Port) -> &[u8]
        requires { IsOut p }
        ensures { written_on p (memory_sight self.now) ≡ Some result.now }
    {
        self.steady.written(p)
    }

    /// What is left to read on a port.
    pub fn left(&self, p: Port) -> &[u8]
        requires { IsIn p }
        ensures { left_on p (memory_sight self.now) ≡ Some result.now }
    {
        self.steady.left(p)
    }

    /// The starts that answered Ok.
    pub fn starts(&self) -> &[Start]
        ensures { (memory_sight self.now).starts ≡ Some (map start_of result.now) }
    {
        self.steady.starts()
    }

    /// How often the in side has failed.
    pub fn in_faults(&self) -> u64
        ensures { result ≡ (memory_sight self.now).in_faults }
    {
        self.in_faults
    }

    /// How often the out side has failed.
    pub fn out_faults(&self) -> u64
        ensures { result ≡ (memory_sight self.now).out_faults }
    {
        self.out_faults
    }

    /// The calls that are to fail.
    pub fn faults(&self) -> &[Fault]
        ensures { result.now ≡ faults_of self.now }
    {
        &self.faults
    }

    /// How many calls each port has seen; the counts stay at their last value.
    pub fn calls(&self) -> Calls
        ensures { result ≡ calls_of self.now }
    {
        self.calls
    }

    // Counts a call, and answers whether it is to fail.
    fn fails_now(&mut self, p: Port) -> bool
        ensures same { memory_sight self.new ≡ memory_sight self.old }
        ensures due { IsTrue result ↔ IsDue self.old p }
        ensures counted { IsCounted p (calls_of self.old) (calls_of self.new) }
        ensures listed { faults_of self.new ≡ faults_of self.old }
    {
        let call = self.calls.on(p);
        self.calls.count(p);
        is_listed(&self.faults, Fault { port: p, call })
    }

    // Counts a failure of a port's side.
    fn count(&mut self, p: Port)
        ensures fails { FailsOn p (memory_sight self.old) (memory_sight self.new) }
        ensures calls { calls_of self.new ≡ calls_of self.old }
        ensures listed { faults_of self.new ≡ faults_of self.old }
    {
        match p {
            Port::Script | Port::CertIn | Port::Part => {
                self.in_faults = self.in_faults.saturating_add(1);
            }
            Port::Answer | Port::CertOut | Port::Draft => {
                self.out_faults = self.out_faults.saturating_add(1);
            }
        }
    }
}

impl Desk for MemoryDesk {
    ghost use Rattle.desk.specs.Sight.{IsIn, IsOut, with_start, kept, FailsOn, ReadStep, PartStep, WriteStep};
    ghost use Rattle.desk.specs.Calls.{IsCounted};
    ghost use Rattle.desk.specs.Memory.{memory_sight, IsDue, calls_of, faults_of};

    ghost sight = { memory_sight };

    fn start(&mut self, p: Port, name: &str) -> Result<(), Denied>
        ensures ok { OnOk result (memory_sight self.new
            ≡ with_start p name.now (memory_sight self.old)) }
        ensures failed { IsErrOf result Denied.Failed →
            FailsOn p (memory_sight self.old) (memory_sight self.new) }
        ensures memory { IsErrOf result Denied.Memory →
            memory_sight self.new ≡ memory_sight self.old }
        ensures due { IsErrOf result Denied.Failed ↔ IsDue self.old p }
        ensures counted { IsCounted p (calls_of self.old) (calls_of self.new) }
        ensures listed { faults_of self.new ≡ faults_of self.old }
    {
        if self.fails_now(p) {
            self.count(p);
            return Err(Denied::Failed);
        }
        self.steady.start(p, name)
    }

    fn read(&mut self, p: Port, into: &mut [u8]) -> Result<usize, Failed>
        requires { IsIn p }
        ensures ok { IfOk result (λ n.
            ReadStep p n into.new (memory_sight self.old) (memory_sight self.new)) }
        ensures failed { OnErr result (FailsOn p (memory_sight self.old) (memory_sight self.new)) }
        ensures due { IsErr result ↔ IsDue self.old p }
        ensures counted { IsCounted p (calls_of self.old) (calls_of self.new) }
        ensures listed { faults_of self.new ≡ faults_of self.old }
    {
        if self.fails_now(p) {
            self.count(p);
            return Err(Failed);
        }
        self.steady.read(p, into)
    }

    fn read_at(&mut self, number: usize, at: u64, into: &mut [u8]) -> Result<usize, Failed>
        ensures ok { IfOk result (λ n.
            PartStep number at n into.new (memory_sight self.old) (memory_sight self.new)) }
        ensures failed { OnErr result
            (FailsOn Port.Part (memory_sight self.old) (memory_sight self.new)) }
        ensures due { IsErr result ↔ IsDue self.old Port.Part }
        ensures counted { IsCounted Port.Part (calls_of self.old) (calls_of self.new) }
        ensures listed { faults_of self.new ≡ faults_of self.old }
    {
        if self.fails_now(Port::Part) {
            self.count(Port::Part);
            return Err(Failed);
        }
        self.steady.read_at(number, at, into)
    }

    fn write(&mut self, p: Port, from: &[u8]) -> Result<usize, Denied>
        requires { IsOut p }
        ensures ok { IfOk result (λ n.
            WriteStep p n from.now (memory_sight self.old) (memory_sight self.new)) }
        ensures failed { IsErrOf result Denied.Failed →
            FailsOn p (memory_sight self.old) (memory_sight self.new) }
        ensures memory { IsErrOf result Denied.Memory →
            memory_sight self.new ≡ memory_sight self.old }
        ensures due { IsErrOf result Denied.Failed ↔ IsDue self.old p }
        ensures counted { IsCounted p (calls_of self.old) (calls_of self.new) }
        ensures listed { faults_of self.new ≡ faults_of self.old }
    {
        if self.fails_now(p) {
            self.count(p);
            return Err(Denied::Failed);
        }
        self.steady.write(p, from)
    }

    fn keep(&mut self) -> Result<(), Denied>
        ensures ok { OnOk result (memory_sight self.new ≡ kept (memory_sight self.old)) }
        ensures failed { IsErrOf result Denied.Failed →
            FailsOn Port.Draft (memory_sight self.old) (memory_sight self.new) }
        ensures memory { IsErrOf result Denied.Memory →
            memory_sight self.new ≡ memory_sight self.old }
        ensures due { IsErrOf result Denied.Failed ↔ IsDue self.old Port.Draft }
        ensures counted { IsCounted Port.Draft (calls_of self.old) (calls_of self.new) }
        ensures listed { faults_of self.new ≡ faults_of self.old }
    {
        if self.fails_now(Port::Draft) {
            self.count(Port::Draft);
            return Err(Denied::Failed);
        }
        self.steady.keep()
    }
}
