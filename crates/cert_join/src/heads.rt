// The first five lines of each certificate.
ghost use Rattle.std.specs.Prelude.{◌≡◌, ◌≢◌, ◌++◌, ◌∷◌, ◌<◌, ◌^◌, [], ℕ, List, true, false, cond, nat_eq, Some, Ok, OnOk, slice_get, drop, map};
ghost use Rattle.cert_model.specs.Due.{is_version};
ghost use Rattle.cert_read.specs.CertLine.{cover, version};
ghost use Rattle.cert_read.specs.LineText.{line_text};
ghost use Rattle.cert_joined.specs.Covers.{Cover, AreTextsOf, IsTextOf};
ghost use Rattle.cert_join.specs.Ahead.{AreBefore};
ghost use Rattle.cert_join.specs.Spot.{Spot, IsBefore};
ghost use Rattle.cert_join.specs.Heads.{all_lines, head_text, HasRead, IsBehind, IsReading, IsUnlike, ReadsHeads, ReadsOf, TakesLine};

use crate::cursor::Cursor;
use crate::joiner::Step;
use crate::line::{append_number, number_of};
use crate::stop::Unjoined;
use std::alloc::{AllocError, Global};

// The newest version.
const NEWEST: u32 = 5;

/// What the first five lines of the certificates say: all but the first and the last are alike.
#[derive(Drop)]
pub struct Heads {
    // The certificate, and which of its lines is the next, from 0.
    part: usize,
    row: u32,
    margin: Vec<u8>,
    delta: Vec<u8>,
    bound: Vec<u8>,
    /// The first certificate of a point.
    pub point: Option<usize>,
    /// Of each certificate, how many lemmas it says that it has.
    pub counts: Vec<u32>,
    // The version of what joins those of which it was read, and the earliest that was read.
    version: u32,
    earliest: u32,
}

// Keeps the line of the first certificate, and says of another one's whether it is the same.
fn is_alike(kept: &mut Vec<u8>, is_first: bool, line: &[u8]) -> Result<bool, AllocError>
    ensures first { is_first ≡ true → OnOk result (kept.new.items ≡ kept.old.items ++ line.now) }
    ensures alike { is_first ≡ false → kept.new.items ≡ kept.old.items }
    ensures same { is_first ≡ false → result ≡ Ok true → line.now ≡ kept.old.items }
    ensures unlike { result ≡ Ok false → (is_first ≡ false) × (line.now ≢ kept.old.items) }
{
    if is_first {
        return match kept.extend_from_slice(line) {
            Ok(()) => Ok(true),
            Err(error) => Err(error),
        };
    }
    Ok(line == kept.as_slice())
}

/// Appends a line.
pub fn append_line(text: &mut Vec<u8>, line: &[u8]) -> Result<(), AllocError>
    ensures { OnOk result (text.new.items ≡ text.old.items ++ (line.now ++ (10 ∷ []))) }
{
    match text.extend_from_slice(line) {
        Ok(()) => {}
        Err(error) => return Err(error),
    }
    match text.push(b'\n') {
        Ok(()) => Ok(()),
        Err(_) => Err(AllocError),
    }
}

// The number of lemmas in the last line of a cover.
fn count_in(line: &[u8]) -> Option<u32>
    ensures { (n : ℕ) → n < 2 ^ 32 → line.now ≡ line_text (cover n) → result ≡ Some n }
{
    match line.strip_prefix(b"cover ".as_slice()) {
        Some(digits) => number_of(digits),
        None => None,
    }
}

// The version in the first line.
fn version_in(line: &[u8]) -> Option<u32>
    ensures { (n : ℕ) → n < 2 ^ 32 → line.now ≡ line_text (version n) → result ≡ Some n }
{
    match line.strip_prefix(b"dpoly ".as_slice()) {
        Some(digits) => number_of(digits),
        None => None,
    }
}

// Appends the first line of a certificate of this version.
fn append_version(text: &mut Vec<u8>, number: u32) -> Result<(), AllocError>
    ensures { OnOk result (text.new.items
        ≡ text.old.items ++ (line_text (version number) ++ (10 ∷ []))) }
{
    match text.extend_from_slice(b"dpoly ") {
        Ok(()) => {}
        Err(error) => return Err(error),
    }
    match append_number(text, number) {
        Ok(()) => {}
        Err(error) => return Err(error),
    }
    match text.push(b'\n') {
        Ok(()) => Ok(()),
        Err(_) => Err(AllocError),
    }
}

impl Heads {
    pub fn new(alloc: Global) -> Self
        ensures { (certs : List (List ℕ)) (covers : List Cover) (spots : List Spot) →
            AreBefore certs (map all_lines covers) spots → IsReading certs covers result spots }
    {
        Heads {
            part: 0,
            row: 0,
            margin: Vec::new(alloc),
            delta: Vec::new(alloc),
            bound: Vec::new(alloc),
            point: None,
            counts: Vec::new(alloc),
            version: 2,
            earliest: NEWEST,
        }
    }

    /// Whether one is of an earlier version than what joins them, and so may not have all rules of that.
    pub fn has_older(&self) -> bool {
        self.earliest < self.version
    }

    // Takes the version of a certificate, and says whether it is one for one check.
    fn take_number(&mut self, number: u32) -> bool
        ensures same { self.new
            ≡ record self.old { version = self.new.version; earliest = self.new.earliest } }
        ensures version { self.new.version ≡ cond (nat_eq number 5) 5 self.old.version }
        ensures known { result ≡ is_version number }
    {
        if number == NEWEST {
            self.version = NEWEST;
        }
        self.earliest = self.earliest.min(number);
        number == 1 || number == 2 || number == NEWEST
    }

    // Takes the first line of a certificate, and says whether it is that of a version for one check.
    fn take_version(&mut self, line: &[u8]) -> bool
        ensures same { self.new
            ≡ record self.old { version = self.new.version; earliest = self.new.earliest } }
        ensures version { (n : ℕ) → n < 2 ^ 32 → line.now ≡ line_text (version n) →
            self.new.version ≡ cond (nat_eq n 5) 5 self.old.version }
        ensures known { (n : ℕ) → n < 2 ^ 32 → line.now ≡ line_text (version n) →
            result ≡ is_version n }
    {
        match version_in(line) {
            Some(number) => self.take_number(number),
            None => false,
        }
    }

    // Takes the next line of a certificate, and says whether it may stand there.
    fn take(&mut self, line: &[u8]) -> Result<bool, AllocError>
        ensures takes { result ≡ Ok true → TakesLine line.now self.old self.new }
        ensures unlike { result ≡ Ok false → IsUnlike line.now self.old }
    {
        let is_first = self.part == 0;
        match self.row {
            0 => Ok(self.take_version(line)),
            1 => is_alike(&mut self.margin, is_first, line),
            2 => is_alike(&mut self.delta, is_first, line),
            3 => is_alike(&mut self.bound, is_first, line),
            _ => self.take_kind(line),
        }
    }

    // Takes the kind of a certificate, and says whether it is one.
    fn take_kind(&mut self, line: &[u8]) -> Result<bool, AllocError>
        ensures same { self.new
            ≡ record self.old { point = self.new.point; counts = self.new.counts } }
        ensures cover { (n : ℕ) → n < 2 ^ 32 → line.now ≡ line_text (cover n) → result ≡ Ok true →
            (self.new.point ≡ self.old.point)
            × (self.new.counts.items ≡ self.old.counts.items ++ (n ∷ [])) }
        ensures other { result ≡ Ok false → (n : ℕ) → n < 2 ^ 32 → line.now ≢ line_text (cover n) }
    {
        match count_in(line) {
            Some(count) => match self.counts.push(count) {
                Ok(()) => Ok(true),
                Err(_) => Err(AllocError),
            },
            None => self.take_point(line),
        }
    }

    // Takes the kind of a certificate of no cover, and says whether it is a point's.
    fn take_point(&mut self, line: &[u8]) -> Result<bool, AllocError>
        ensures { self.new ≡ record self.old { point = self.new.point; counts = self.new.counts } }
    {
        if line != b"point".as_slice() {
            return Ok(false);
        }
        if self.point.is_none() {
            self.point = Some(self.part);
        }
        match self.counts.push(0) {
            Ok(()) => Ok(true),
            Err(_) => Err(AllocError),
        }
    }

    // Goes on to the next line.
    fn pass(&mut self)
        requires { self.old.part < usize.MAX }
        ensures { IsBehind self.old self.new }
    {
        if self.row < 4 {
            self.row += 1;
        } else {
            self.row = 0;
            self.part += 1;
        }
    }

    // Reads one more line of the certificate whose turn it is.
    fn read(&mut self, cursor: &mut Cursor) -> Result<Step, Unjoined>
        requires { self.old.part < usize.MAX }
        ensures { (cert : List ℕ) (covers : List Cover) (c : Cover) → IsTextOf c cert →
            slice_get covers self.old.part ≡ Some c → HasRead covers self.old →
            IsBefore cert (drop self.old.row (all_lines c)) cursor.old →
            ReadsOf cert covers c self.old result self.new cursor.new }
    {
        if !cursor.is_ready() {
            return Ok(Step::Read(self.part));
        }
        match self.take(cursor.text()) {
            Ok(true) => {}
            Ok(false) => return Err(Unjoined::Unlike),
            Err(_) => return Err(Unjoined::Memory),
        }
        cursor.pass();
        self.pass();
        Ok(Step::On)
    }

    /// Reads one more line.
    pub fn step(&mut self, cursors: &mut [Cursor]) -> Result<Step, Unjoined>
        ensures { (certs : List (List ℕ)) (covers : List Cover) → AreTextsOf covers certs →
            IsReading certs covers self.old cursors.old →
            ReadsHeads certs covers result self.new cursors.new }
    {
        let part = self.part;
        if part < cursors.len() {
            self.read(&mut cursors[part])
        } else {
            Ok(Step::Over)
        }
    }

    /// Appends the first four lines.
    pub fn append(&self, text: &mut Vec<u8>) -> Result<(), AllocError>
        ensures { OnOk result (text.new.items ≡ text.old.items ++ head_text self.now) }
    {
        match append_version(text, self.version) {
            Ok(()) => {}
            Err(error) => return Err(error),
        }
        match append_line(text, &self.margin) {
            Ok(()) => {}
            Err(error) => return Err(error),
        }
        match append_line(text, &self.delta) {
            Ok(()) => {}
            Err(error) => return Err(error),
        }
        append_line(text, &self.bound)
    }
}
