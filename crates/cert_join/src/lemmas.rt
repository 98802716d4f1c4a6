// The lemmas of the joined certificate.
ghost use Rattle.std.specs.Prelude.{◌≡◌, ◌<◌, ◌+◌, ◌++◌, ℕ, List, false, length, map, OnOk};
ghost use Rattle.cover_model.specs.Derivation.{Tree};
ghost use Rattle.cert_read.specs.CertLine.{CertLine, lemma};
ghost use Rattle.cert_read.specs.LineText.{line_text, IsSpelled};
ghost use Rattle.cert_join.specs.LemmasDue.{lines_ahead, whole_line, IsBegun, IsInner, IsNextBegun, IsRest, IsTaken, AreLemmasDue, LemmasLeft, Rest, StepsLemmas, StepsWithin};
ghost use Rattle.cert_join.specs.Spot.{IsBefore};
ghost use Rattle.cert_join.specs.Written.{texts_of};

use crate::cursor::Cursor;
use crate::joiner::Step;
use crate::line::{append_number, append_renumbered, names_before, number_of};
use crate::numbering::is_behind;
use std::alloc::AllocError;

/// Goes through the lemmas of each certificate, and writes each lemma where it comes first.
#[derive(Drop)]
pub struct Lemmas {
    part: usize,
    // How many lemmas of the certificate were begun.
    begun: usize,
    is_written: bool,
    // How many lemmas were written, and the number of the next.
    next: u64,
}

// Whether these digits spell this number.
fn is_number(digits: &[u8], number: usize) -> bool {
    match number_of(digits) {
        Some(said) => said as usize == number,
        None => false,
    }
}

// Appends the first line of a lemma.
fn append_first(text: &mut Vec<u8>, number: u32) -> Result<(), AllocError>
    ensures { OnOk result (text.new.items ≡ text.old.items ++ whole_line (lemma number)) }
{
    match text.extend_from_slice(b"lemma ") {
        Ok(()) => {}
        Err(error) => return Err(error),
    }
    match append_number(text, number) {
        Ok(()) => {}
        Err(error) => return Err(error),
    }
    match text.push(b'\n') {
        Ok(()) => Ok(()),
        Err(_) => Err(AllocError),
    }
}

impl Lemmas {
    pub fn new() -> Self
        ensures { result ≡ record { part = 0; begun = 0; is_written = false; next = 0 } }
    {
        Lemmas {
            part: 0,
            begun: 0,
            is_written: false,
            next: 0,
        }
    }

    // Begins the next lemma of a certificate, which has this number.
    fn begin(&mut self, number: u32, text: &mut Vec<u8>) -> Result<(), AllocError>
        requires { self.old.begun < usize.MAX }
        ensures { OnOk result (IsBegun number self.old self.new text.old.items text.new.items) }
    {
        self.begun += 1;
        if number as u64 != self.next {
            self.is_written = false;
            return Ok(());
        }
        self.is_written = true;
        self.next += 1;
        match append_first(text, number) {
            Ok(()) => Ok(()),
            Err(error) => Err(error),
        }
    }

    // Begins the next lemma of a certificate, which says that it has the number of these digits.
    fn begin_said(
        &mut self,
        digits: &[u8],
        numbers: &[u32],
        text: &mut Vec<u8>,
        is_odd: &mut bool,
    ) -> Result<(), AllocError>
        ensures { self.old.begun < length numbers.now → OnOk result
            (IsNextBegun numbers.now self.old self.new text.old.items text.new.items) }
    {
        let begun = self.begun;
        *is_odd = *is_odd || !is_number(digits, begun);
        if begun >= numbers.len() {
            *is_odd = true;
            self.is_written = false;
            return Ok(());
        }
        self.begin(numbers[begun], text)
    }

    // Takes a line of the lemma that was begun.
    fn copy(
        &self,
        line: &[u8],
        numbers: &[u32],
        text: &mut Vec<u8>,
        is_odd: &mut bool,
    ) -> Result<(), AllocError>
        ensures { (l : CertLine) → line.now ≡ line_text l → IsSpelled l → OnOk result
            (IsTaken numbers.now l self.now self.now text.old.items text.new.items) }
    {
        if !self.is_written {
            return Ok(());
        }
        // The tree of a lemma may name those before it.
        *is_odd = *is_odd || !names_before(line, self.begun.saturating_sub(1));
        append_renumbered(text, line, numbers)?;
        text.push(b'\n')?;
        Ok(())
    }

    // Takes a line of a lemma, by the numbers of the certificate's lemmas.
    fn take(
        &mut self,
        line: &[u8],
        numbers: &[u32],
        text: &mut Vec<u8>,
        is_odd: &mut bool,
    ) -> Result<(), AllocError>
        ensures first { (i : ℕ) → line.now ≡ line_text (lemma i) →
            self.old.begun < length numbers.now → OnOk result
            (IsNextBegun numbers.now self.old self.new text.old.items text.new.items) }
        ensures inner { (l : CertLine) → line.now ≡ line_text l → IsInner l → IsSpelled l →
            OnOk result
            (IsTaken numbers.now l self.old self.new text.old.items text.new.items) }
    {
        match line.strip_prefix(b"lemma ") {
            Some(digits) => self.begin_said(digits, numbers, text, is_odd),
            None => self.copy(line, numbers, text, is_odd),
        }
    }

    // Reads one more line of a certificate, by the numbers of its lemmas.
    fn step_within(
        &mut self,
        cursor: &mut Cursor,
        numbers: &[u32],
        text: &mut Vec<u8>,
        is_odd: &mut bool,
    ) -> Result<Step, AllocError>
        requires { self.old.part < usize.MAX }
        ensures { (cert : List ℕ) (t : Tree) (r : Rest) → IsRest self.old.begun r →
            self.old.begun + length r.lemmas ≡ length numbers.now →
            IsBefore cert (texts_of (lines_ahead self.old.begun r t)) cursor.old →
            StepsWithin cert t numbers.now self.old self.new r cursor.new
            text.old.items text.new.items result }
    {
        if !cursor.is_ready() {
            return Ok(Step::Read(self.part));
        }
        if is_behind(cursor) {
            self.part += 1;
            self.begun = 0;
            self.is_written = false;
            cursor.pass();
            return Ok(Step::On);
        }
        self.take(cursor.text(), numbers, text, is_odd)?;
        cursor.pass();
        Ok(Step::On)
    }

    /// Reads one more line; whether that is odd: none that an accepted certificate has.
    pub fn step(
        &mut self,
        cursors: &mut [Cursor],
        numbers: &[Vec<u32>],
        text: &mut Vec<u8>,
        is_odd: &mut bool,
    ) -> Result<Step, AllocError>
        ensures { (certs : List (List ℕ)) (f : LemmasLeft) →
            AreLemmasDue certs (map (λ v. v.items) numbers.now) f self.old cursors.old →
            StepsLemmas certs (map (λ v. v.items) numbers.now) self.old self.new f cursors.new
            text.old.items text.new.items result }
    {
        let part = self.part;
        if part >= cursors.len() || part >= numbers.len() {
            return Ok(Step::Over);
        }
        self.step_within(&mut cursors[part], numbers[part].as_slice(), text, is_odd)
    }
}
