// What is left to an axis.
ghost use Rattle.std.specs.Prelude.{◌≡◌, ◌↔◌, IsTrue, IsSome, IfSome};
ghost use Rattle.dyadic.specs.Fraction.{at_most};
ghost use Rattle.dyadic.specs.Rounding.{exact};
ghost use Rattle.dyadic.specs.Views.{dyadic_of};

use dyadic::{Dy, Ext, at_most};

/// The numbers from a lower to an upper one, which is not below it.
#[derive(Clone, Copy, PartialEq, Eq, Debug)]
pub struct Range {
    pub low: Dy,
    pub high: Dy,
    pub ghost upright: { IsTrue (at_most (exact (dyadic_of low)) (exact (dyadic_of high))) },
}

impl Range {
    /// From a number to another; none where the first is above the second.
    pub fn between(low: Dy, high: Dy) -> Option<Range>
        ensures some { IsSome result ↔
            IsTrue (at_most (exact (dyadic_of low)) (exact (dyadic_of high))) }
        ensures ends { IfSome result (λ r. (r.low ≡ low) × (r.high ≡ high)) }
    {
        if at_most(Ext::Fin(low), Ext::Fin(high)) {
            Some(Range { low, high })
        } else {
            None
        }
    }
}

/// Truth values, at least one.
#[derive(Clone, Copy, PartialEq, Eq, Debug)]
pub enum Truths {
    False,
    True,
    Either,
}

/// What is left to an axis: numbers to a Real one, truth values to a Bool one.
#[derive(Clone, Copy, PartialEq, Eq, Debug)]
pub enum Domain {
    Real(Range),
    Bool(Truths),
}
