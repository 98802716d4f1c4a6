// Rows of intervals, with a mark beside each.
ghost use Rattle.std.specs.Prelude.{◌≡◌, ℕ, ◌+◌, ◌*◌, ◌/◌, ◌<◌, ◌≤◌, length, IfOk, MatchOption, false, true, replicate, slice_set, slice_index_or};
ghost use Rattle.interval_model.specs.Interval.{nothing};
ghost use Rattle.ival.specs.Views.{interval_of};
ghost use Rattle.ival.specs.RowViews.{rows_of, marks_of, is_marked, IsLastBelow, IsFirstAbove};

use crate::ends::Ival;
use crate::row_parts::Rows;
use crate::word::{bits_below, bits_from, has_bit, highest_bit, lowest_bit, with_bit, without_bit};
use std::alloc::{AllocError, Global};

impl Rows {
    /// So many empty intervals, without a mark.
    pub fn new(alloc: Global, count: usize) -> Result<Rows, AllocError>
        ensures rows { IfOk result (λ r. rows_of r ≡ replicate count nothing) }
        ensures marks { IfOk result (λ r. marks_of r ≡ replicate count false) }
    {
        let intervals = vec![in alloc; Ival::Empty; count]?;
        let words = vec![in alloc; 0; count / 64 + 1]?;
        Ok(Rows { intervals, words })
    }

    /// How many intervals there are.
    pub fn len(&self) -> usize
        ensures { result ≡ length (rows_of self.now) }
    {
        self.intervals.len()
    }

    /// The interval in this place.
    pub fn get(&self, place: usize) -> Ival
        requires { place < length (rows_of self.now) }
        ensures { interval_of result ≡ slice_index_or (rows_of self.now) place nothing }
    {
        self.intervals[place]
    }

    /// Puts the interval into this place.
    pub fn set(&mut self, place: usize, interval: Ival)
        requires { place < length (rows_of self.old) }
        ensures rows { rows_of self.new ≡
            slice_set (rows_of self.old) place (interval_of interval) }
        ensures marks { marks_of self.new ≡ marks_of self.old }
    {
        self.intervals[place] = interval;
    }

    /// Marks this place.
    pub fn mark(&mut self, place: usize)
        requires { place < length (rows_of self.old) }
        ensures rows { rows_of self.new ≡ rows_of self.old }
        ensures marks { marks_of self.new ≡ slice_set (marks_of self.old) place true }
    {
        let at = place / 64;
        self.words[at] = with_bit(self.words[at], (place % 64) as u32);
    }

    /// Takes the mark of this place away.
    pub fn unmark(&mut self, place: usize)
        requires { place < length (rows_of self.old) }
        ensures rows { rows_of self.new ≡ rows_of self.old }
        ensures marks { marks_of self.new ≡ slice_set (marks_of self.old) place false }
    {
        let at = place / 64;
        self.words[at] = without_bit(self.words[at], (place % 64) as u32);
    }

    /// Whether this place is marked.
    pub fn marked(&self, place: usize) -> bool
        requires { place < length (rows_of self.now) }
        ensures { result ≡ is_marked (marks_of self.now) place }
    {
        has_bit(self.words[place / 64], (place % 64) as u32)
    }

    /// Takes all marks away.
    pub fn clear_marks(&mut self)
        ensures rows { rows_of self.new ≡ rows_of self.old }
        ensures marks { (k : ℕ) → is_marked (marks_of self.new) k ≡ false }
    {
        for word in self.words.iter_mut() {
            *word = 0;
        }
    }

    /// The greatest marked place below this one, if there is one.
    pub fn next_marked_below(&self, place: usize) -> Option<usize>
        requires { place ≤ length (rows_of self.now) }
        ensures { IsLastBelow (marks_of self.now) place result }
    {
        let last = place / 64;
        let word = bits_below(self.words[last], (place % 64) as u32);
        if word != 0 {
            return Some(last * 64 + highest_bit(word) as usize);
        }
        for at in (0..last).rev() {
            let word = self.words[at];
            if word != 0 {
                return Some(at * 64 + highest_bit(word) as usize);
            }
        }
        None
    }

    /// The least marked place above this one, if there is one.
    pub fn next_marked_above(&self, place: usize) -> Option<usize>
        requires { place < length (rows_of self.now) }
        ensures { IsFirstAbove (marks_of self.now) place result }
    {
        let next = place + 1;
        let first = next / 64;
        let word = bits_from(self.words[first], (next % 64) as u32);
        if word != 0 {
            return self.within(first, lowest_bit(word));
        }
        for at in first + 1..self.words.len() {
            let word = self.words[at];
            if word != 0 {
                return self.within(at, lowest_bit(word));
            }
        }
        None
    }

    // The place of this bit of this word, if there is such a place.
    fn within(&self, at: usize, bit: u32) -> Option<usize>
        requires bit { bit < 64 }
        requires at { at ≤ length (rows_of self.now) / 64 }
        ensures { MatchOption result (length (rows_of self.now) ≤ at * 64 + bit) (λ k.
            (k ≡ at * 64 + bit) × (k < length (rows_of self.now))) }
    {
        let len = self.intervals.len();
        let place = at * 64 + bit as usize;
        if place < len { Some(place) } else { None }
    }
}
