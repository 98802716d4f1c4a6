// The reader of lines.
ghost use Rattle.std.specs.Prelude.{◌≡◌, ◌≤◌, ◌&&◌, [], false, true, drop, length, nat_lt, vec_len, IfNone, IfOk, OnErr, OnOk};
ghost use Rattle.cert_read.specs.Reading.{IsNextLine, fed, lines_ahead};

use crate::parse::{LONGEST, parse};
use crate::place::place_of;
use crate::{Line, LineFault};
use std::alloc::{AllocError, Global};
use std::marker::Model;

/// Reads the lines of bytes that come in pieces, whatever pieces these are.
///
/// It keeps the bytes that it has not answered yet. A line ends with a line feed; where the input ended, a last line
/// without one counts too, and nothing after the last line feed is no line.
#[derive(Drop)]
pub struct LineReader {
    alloc: Global,
    bytes: Vec<u8>,
    /// The place of the first byte that is not answered yet.
    at: usize,
    /// How many bytes from there are known to be no line feed.
    searched: usize,
    ended: bool,
}

impl Model for LineReader {
    ghost use Rattle.cert_read.specs.State.{Reading};

    ghost Value = { Reading };

    ghost use Rattle.cert_read.specs.Held.{reading_of, IsHeld};

    ghost view = { reading_of };

    ghost invariant = { IsHeld };
}

impl LineReader {
    pub fn new(alloc: Global) -> LineReader
        ensures { result ≡ record { unread = []; ended = false } }
    {
        LineReader {
            alloc,
            bytes: Vec::new(alloc),
            at: 0,
            searched: 0,
            ended: false,
        }
    }

    /// Takes a piece of the input. After [`end`](Self::end) nothing is taken; without memory all is as before.
    pub fn feed(&mut self, piece: &[u8]) -> Result<(), AllocError>
        ensures ok { OnOk result (self.new ≡ fed self.old piece.now) }
        ensures err { OnErr result (self.new ≡ self.old) }
    {
        if self.ended {
            return Ok(());
        }
        self.at = compact(&mut self.bytes, self.at);
        self.bytes.extend_from_slice(piece)
    }

    /// Tells that the input ended.
    pub fn end(&mut self)
        ensures { self.new ≡ record self.old { ended = true } }
    {
        self.ended = true;
    }

    /// What the next line says, or None where no whole line is left in what was fed.
    ///
    /// A line is passed as it is answered. After a fault all is as before: without memory the call may be made again,
    /// and each other fault is answered by every later call. A line that is too long is told as soon as so many bytes
    /// were fed.
    pub fn next_line(&mut self) -> Result<Option<Line>, LineFault>
        ensures lines { IsNextLine (lines_ahead self.old) self.old self.new result }
        ensures held { IfOk result (λ o. IfNone o (length self.new.unread ≤ 524288)) }
    {
        let (_, unread) = self.bytes.split_at(self.at);
        let size = place_of(b'\n', self.searched, unread);
        if size == unread.len() {
            if size > LONGEST {
                return Err(LineFault::LineTooLong);
            }
            if !is_last_line(size, self.ended) {
                self.searched = size;
                return Ok(None);
            }
        }
        let (bytes, _) = unread.split_at(size);
        match parse(self.alloc, bytes) {
            Ok(line) => {
                self.at = (self.at + size + 1).min(self.bytes.len());
                self.searched = 0;
                Ok(Some(line))
            }
            Err(fault) => Err(fault),
        }
    }

    /// How many bytes were fed and not yet answered. Where [`next_line`](Self::next_line) just answered None, these are
    /// the bytes of the line that is not whole yet, at most 524,288.
    pub fn held(&self) -> usize
        ensures { result ≡ length self.now.unread }
    {
        self.bytes.len() - self.at
    }
}

// Whether so many bytes without a line feed are the last line: some, and the input ended.
fn is_last_line(size: usize, ended: bool) -> bool
    ensures { result ≡ (nat_lt 0 size && ended) }
{
    size > 0 && ended
}

// Drops the bytes before a place where these are half of them, and says where the others begin. So each byte moves
// about once.
fn compact(bytes: &mut Vec<u8>, at: usize) -> usize
    requires { at ≤ vec_len bytes.old }
    ensures same { drop result bytes.new.items ≡ drop at bytes.old.items }
    ensures within { result ≤ vec_len bytes.new }
{
    if at < bytes.len() - at {
        return at;
    }
    bytes.drain(..at);
    0
}
