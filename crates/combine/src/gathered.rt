// The expansion of a combination, as far as a sweep has come.
ghost use Rattle.std.specs.Prelude.{◌≡◌, ◌+◌, ◌<◌, IfOk, [], vec_len};
ghost use Rattle.interval_model.specs.Space as model;
ghost use Rattle.ival.specs.Views.{interval_of};
ghost use Rattle.combine.specs.Combined.{IsMeasuredOver};
ghost use Rattle.combine.specs.Parts.{expansion_of, IsMeasured, expansion_with};
ghost use Rattle.combine.specs.Visits.{with_variable};

use crate::part::Part;
use crate::ranges::{difference, only, part_range};
use dyadic::Dy;
use ival::{Ival, Space};
use std::alloc::{AllocError, Global};

/// The parts of variables, from place `first` on, and the range of the rest. The parts are filled in from the end, since
/// the last that a sweep meets comes first.
#[derive(Drop)]
pub struct Gathered {
    pub parts: Vec<Part, Global>,
    pub first: usize,
    /// The range of all parts.
    pub sum: Ival,
    pub rest: Ival,
}

impl Gathered {
    /// No parts, with room for so many.
    pub fn new(alloc: Global, count: usize) -> Result<Gathered, AllocError>
        ensures room { IfOk result (λ g. vec_len g.parts ≡ count) }
    {
        let filler = Part {
            axis: 0,
            linear: Ival::Empty,
            square: None,
            own: Ival::Empty,
            apart: Ival::Empty,
            range: Ival::Empty,
            after: Ival::Empty,
        };
        let parts = vec![in alloc; filler; count]?;
        Ok(Gathered {
            parts,
            first: count,
            sum: Ival::Empty,
            rest: Ival::Empty,
        })
    }

    /// Takes all parts away, and begins with this range of the rest.
    pub fn begin(&mut self, rest: Ival)
        ensures expansion { expansion_of self.new ≡ expansion_with [] (interval_of rest) }
        ensures measured { (space centre : model.Space) → IsMeasured space centre self.new }
        ensures all { self.new.first ≡ vec_len self.new.parts }
        ensures room { vec_len self.new.parts ≡ vec_len self.old.parts }
    {
        self.first = self.parts.len();
        self.sum = only(Dy::ZERO);
        self.rest = rest;
    }

    /// Adds a variable's part before the others; there has to be room for it.
    pub fn push(
        &mut self,
        axis: u32,
        linear: Ival,
        square: Option<Ival>,
        space: &Space,
        centre: &Space,
    )
        requires room { 0 < self.old.first }
        requires measured { IsMeasuredOver space.now centre.now self.old }
        ensures expansion { expansion_of self.new ≡
            with_variable axis linear square (expansion_of self.old) }
        ensures measured { IsMeasuredOver space.now centre.now self.new }
        ensures first { self.new.first + 1 ≡ self.old.first }
        ensures room { vec_len self.new.parts ≡ vec_len self.old.parts }
    {
        let own = space.interval(axis);
        let apart = difference(own, centre.interval(axis));
        let range = part_range(linear, square, apart);
        self.first -= 1;
        self.parts[self.first] = Part {
            axis,
            linear,
            square,
            own,
            apart,
            range,
            after: self.sum,
        };
        self.sum = range.add(self.sum);
    }
}
