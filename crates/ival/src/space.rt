// Spaces: what is left to each axis.
use crate::domain::{Domain, Range};
use crate::ends::Ival;
use crate::part::{
    domain_interval, domain_within, is_range, kept, lower_part, middle_domain, upper_part,
};
use crate::side_length::with_axis;
use dyadic::Dy;
use std::alloc::{AllocError, Global};

/// A domain for each axis.
#[derive(Drop)]
pub struct Space {
    pub axes: Vec<Domain, Global>,
}

impl Space {
    ghost use Rattle.std.specs.Prelude.{◌≡◌, ◌≢◌, ℕ, true, false, ◌<◌, ◌≤◌, [], ◌∷◌, ◌++◌, length, map, IfOk, IsTrue, slice_set, slice_index_or};
    ghost use Rattle.interval_model.specs.Space.{axis_interval, changed, test_axis, lower_part, upper_part, keep, allows, holds_number, middle, space_within, widest};
    ghost use Rattle.dyadic.specs.Views.{dyadic_of};
    ghost use Rattle.ival.specs.SpaceViews.{domain_of, space_of, capacity_of, with_range};
    ghost use Rattle.ival.specs.Views.{interval_of};
    ghost use Rattle.ival.specs.BestViews.{axis_of};

    /// A space without axes, with room for so many.
    pub fn with_capacity(alloc: Global, count: usize) -> Result<Space, AllocError>
        ensures axes { IfOk result (λ s. space_of s ≡ []) }
        ensures room { IfOk result (λ s. capacity_of s ≡ count) }
    {
        let axes = Vec::with_capacity(alloc, count)?;
        Ok(Space { axes })
    }

    /// How many axes there are.
    pub fn len(&self) -> usize
        ensures { result ≡ length (space_of self.now) }
    {
        self.axes.len()
    }

    /// Adds an axis, for which there has to be room.
    pub fn push(&mut self, domain: Domain)
        requires { length (space_of self.old) < capacity_of self.old }
        ensures axes { space_of self.new ≡ space_of self.old ++ domain_of domain ∷ [] }
        ensures room { capacity_of self.old ≤ capacity_of self.new }
    {
        match self.axes.push(domain) {
            Ok(()) => {}
            Err(_) => unreachable!(),
        }
    }

    /// What is left to the axis.
    pub fn get(&self, axis: usize) -> Domain
        requires { axis < length (space_of self.now) }
        ensures { domain_of result ≡ slice_index_or (space_of self.now) axis (domain_of result) }
    {
        self.axes[axis]
    }

    /// Leaves this to the axis.
    pub fn set(&mut self, axis: usize, domain: Domain)
        requires { axis < length (space_of self.old) }
        ensures axes { space_of self.new ≡ slice_set (space_of self.old) axis (domain_of domain) }
        ensures room { capacity_of self.new ≡ capacity_of self.old }
    {
        self.axes[axis] = domain;
    }

    /// The numbers that are left to the axis: none to a Bool axis, and none where there is no such axis.
    pub fn interval(&self, axis: u32) -> Ival
        ensures { interval_of result ≡ axis_interval (space_of self.now) axis }
    {
        let axis = axis as usize;
        if axis < self.len() {
            domain_interval(self.get(axis))
        } else {
            Ival::Empty
        }
    }

    /// Leaves this range to the axis, and tells whether that is a change.
    pub fn set_real(&mut self, axis: usize, range: Range) -> bool
        requires { axis < length (space_of self.old) }
        ensures axes { space_of self.new ≡ with_range axis range (space_of self.old) }
        ensures same { result ≡ false → space_of self.new ≡ space_of self.old }
        ensures changed { result ≡ true → space_of self.new ≢ space_of self.old }
        ensures room { capacity_of self.new ≡ capacity_of self.old }
    {
        if is_range(self.get(axis), range) {
            return false;
        }
        self.set(axis, Domain::Real(range));
        true
    }

    /// Leaves to a Real axis its numbers up to `cut`, which has to be one of them.
    pub fn keep_low(&mut self, axis: usize, cut: Dy)
        requires { IsTrue (test_axis (holds_number (dyadic_of cut)) axis (space_of self.old)) }
        ensures axes { space_of self.new ≡
            changed (lower_part (dyadic_of cut)) axis (space_of self.old) }
        ensures room { capacity_of self.new ≡ capacity_of self.old }
    {
        let domain = self.get(axis);
        self.set(axis, lower_part(domain, cut));
    }

    /// Leaves to a Real axis its numbers from `cut` on, which has to be one of them.
    pub fn keep_high(&mut self, axis: usize, cut: Dy)
        requires { IsTrue (test_axis (holds_number (dyadic_of cut)) axis (space_of self.old)) }
        ensures axes { space_of self.new ≡
            changed (upper_part (dyadic_of cut)) axis (space_of self.old) }
        ensures room { capacity_of self.new ≡ capacity_of self.old }
    {
        let domain = self.get(axis);
        self.set(axis, upper_part(domain, cut));
    }

    /// Leaves to a Bool axis this value alone, which has to be left.
    pub fn keep_bool(&mut self, axis: usize, value: bool)
        requires { IsTrue (test_axis (λ d. allows d value) axis (space_of self.old)) }
        ensures axes { space_of self.new ≡ changed (keep value) axis (space_of self.old) }
        ensures room { capacity_of self.new ≡ capacity_of self.old }
    {
        let domain = self.get(axis);
        self.set(axis, kept(domain, value));
    }

    /// The same domains in memory of their own.
    pub fn try_clone(&self, alloc: Global) -> Result<Space, AllocError>
        ensures { IfOk result (λ s. space_of s ≡ space_of self.now) }
    {
        let axes = Vec::from_slice(alloc, &self.axes)?;
        Ok(Space { axes })
    }

    /// Whether each domain lies within that of the other space, which has as many axes.
    pub fn within(&self, outer: &Space) -> bool
        requires { length (space_of self.now) ≡ length (space_of outer.now) }
        ensures { result ≡ space_within (space_of self.now) (space_of outer.now) }
    {
        for axis in 0..self.len() {
            if !domain_within(self.get(axis), outer.get(axis)) {
                return false;
            }
        }
        true
    }

    /// Puts the middle of this space into another one, which has as many axes.
    pub fn middle(&self, into: &mut Space)
        requires { length (space_of self.now) ≡ length (space_of into.old) }
        ensures axes { space_of into.new ≡ middle (space_of self.now) }
        ensures room { capacity_of into.new ≡ capacity_of into.old }
    {
        for axis in 0..self.len() {
            into.set(axis, middle_domain(self.get(axis)));
        }
    }

    /// The first axis of greatest side among those whose middle lies strictly between their ends; none where there is no such axis.
    pub fn widest(&self) -> Option<usize>
        ensures { result ≡ axis_of (widest (space_of self.now)) }
    {
        let mut best = None;
        for axis in 0..self.len() {
            best = with_axis(best, axis, self.get(axis));
        }
        match best {
            None => None,
            Some(found) => Some(found.axis),
        }
    }
}
