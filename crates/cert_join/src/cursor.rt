// A place in a certificate that is read line by line.
ghost use Rattle.std.specs.Prelude.{◌≡◌, ◌⊎◌, [], ◌∷◌, ◌<◌, ℕ, List, IsTrue, true, false, Some, None, Ok, MatchOption, length, drop, option_copied};
ghost use Rattle.cert_join.specs.Spot.{HasNoLine, IsBefore, IsLineSize, IsMark, IsPieceAt, IsReady, line_in, rewound, text_in};

use memchr::memchr;
use std::alloc::{AllocError, Global};
use std::marker::Model;

// A line has at most so many bytes, its line break aside.
const LONGEST: usize = 524_288;

/// Where a cursor stood.
#[derive(Clone, Copy, Debug, PartialEq, Eq)]
pub struct Mark {
    at: u64,
}

/// A certificate that is read line by line, and of which one piece is held.
#[derive(Drop)]
pub struct Cursor {
    // Where in the certificate the bytes begin that are read next.
    behind: u64,
    bytes: Vec<u8>,
    // Where in these the next line begins.
    at: usize,
    // So many bytes from there on hold no line break.
    searched: usize,
    // How long the next line is, once that is known.
    size: Option<usize>,
    // The certificate holds no more bytes.
    ended: bool,
}

// How long the last line is, where so many bytes are left and none of them is a line break.
fn last_size(ended: bool, left: usize) -> Option<usize>
    ensures { MatchOption result (IsTrue ended → left ≡ 0)
        (λ n. (n ≡ left) × IsTrue ended × (0 < n)) }
{
    if ended && left > 0 { Some(left) } else { None }
}

// Whether no next line can come where so many bytes are left without a line break: none that is not too long.
fn is_over(ended: bool, left: usize) -> bool
    ensures { result ≡ true → IsTrue ended ⊎ (LONGEST < left) }
{
    ended || left > LONGEST
}

impl Model for Cursor {
    ghost use Rattle.cert_join.specs.Spot.{Spot};

    ghost Value = { Spot };

    ghost use Rattle.cert_join.specs.Held.{spot_of, IsHeld};

    ghost view = { spot_of };

    ghost invariant = { IsHeld };
}

impl Cursor {
    /// At the certificate's beginning.
    pub fn new(alloc: Global) -> Self
        ensures { result ≡
            record { unread = []; behind = 0; ended = false; size = None } }
    {
        Cursor {
            behind: 0,
            bytes: Vec::new(alloc),
            at: 0,
            searched: 0,
            size: None,
            ended: false,
        }
    }

    // The bytes that were not passed.
    fn rest(&self) -> &[u8]
        ensures { result.now ≡ self.now.unread }
    {
        let at = self.at.min(self.bytes.len());
        let (_, rest) = self.bytes.split_at(at);
        rest
    }

    // How long the next line is, where its end is among the bytes held.
    fn size_of_next(&self) -> Option<usize>
        ensures { MatchOption result (HasNoLine self.now.unread self.now.ended)
            (IsLineSize self.now.unread self.now.ended) }
    {
        let at = self.at.min(self.bytes.len());
        let (_, rest) = self.bytes.split_at(at);
        let from = self.searched.min(rest.len());
        let (_, new) = rest.split_at(from);
        match memchr(b'\n', new) {
            Some(place) => Some(from + place),
            None => last_size(self.ended, rest.len()),
        }
    }

    /// Whether the next line is known, or that there is none.
    pub fn is_ready(&mut self) -> bool
        ensures same { self.new ≡ record self.old { size = self.new.size } }
        ensures ready { result ≡ true → IsReady self.new }
    {
        if let Some(_) = self.size {
            return true;
        }
        self.size = self.size_of_next();
        match self.size {
            Some(_) => true,
            None => {
                self.searched = self.rest().len();
                is_over(self.ended, self.searched)
            }
        }
    }

    /// The next line, once that is ready; none where there is none, or it is too long.
    pub fn line(&self) -> Option<&[u8]>
        ensures { option_copied result ≡ line_in self.now }
    {
        match self.size {
            Some(size) => {
                let rest = self.rest();
                let (line, _) = rest.split_at(size.min(rest.len()));
                Some(line)
            }
            None => None,
        }
    }

    /// The same where there is none as an empty line.
    pub fn text(&self) -> &[u8]
        ensures { result.now ≡ text_in self.now }
    {
        match self.line() {
            Some(line) => line,
            None => b"".as_slice(),
        }
    }

    /// Passes the next line, where that is known.
    pub fn pass(&mut self)
        ensures { (cert l : List ℕ) (ls : List (List ℕ)) → IsBefore cert (l ∷ ls) self.old →
            line_in self.old ≡ Some l → IsBefore cert ls self.new }
    {
        if let Some(size) = self.size {
            self.at = self.at.saturating_add(size).saturating_add(1);
            self.size = None;
            self.searched = 0;
        }
    }

    /// Where the bytes begin that are read next.
    pub fn place(&self) -> u64
        ensures { result ≡ self.now.behind }
    {
        self.behind
    }

    /// Takes the bytes that were read; none are the certificate's end.
    pub fn give(&mut self, piece: &[u8]) -> Result<(), AllocError>
        ensures { (cert : List ℕ) (ls : List (List ℕ)) → IsBefore cert ls self.old →
            IsPieceAt (drop self.old.behind cert) piece.now → result ≡ Ok (tt) →
            IsBefore cert ls self.new }
    {
        let passed = self.at.min(self.bytes.len());
        self.bytes.drain(..passed);
        self.at = 0;
        match self.bytes.extend_from_slice(piece) {
            Ok(()) => {}
            Err(error) => return Err(error),
        }
        self.behind = self.behind.saturating_add(piece.len() as u64);
        self.ended = piece.is_empty();
        self.size = None;
        Ok(())
    }

    /// Where the next line begins.
    pub fn mark(&self) -> Mark
        ensures { IsMark self.now result }
    {
        Mark {
            at: self.behind.saturating_sub(self.rest().len() as u64),
        }
    }

    /// Goes back to where it stood.
    pub fn rewind(&mut self, mark: Mark)
        ensures { self.new ≡ rewound mark }
    {
        self.bytes.clear();
        self.behind = mark.at;
        self.at = 0;
        self.searched = 0;
        self.size = None;
        self.ended = false;
    }
}
