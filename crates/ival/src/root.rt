// What a square leaves to its operand.
ghost use Rattle.std.specs.Prelude.{◌≡◌, IsTrue, pos, ◌≤ℤ◌};
ghost use Rattle.dyadic.specs.Rounding.{below_all, above_all, not_negative, root_down, root_up};
ghost use Rattle.interval_model.specs.Interval.{inverse_square, root_end};
ghost use Rattle.dyadic.specs.Views.{ext_of, units_of};
ghost use Rattle.ival.specs.Proper.{is_low, is_high};
ghost use Rattle.ival.specs.Views.{interval_of};

use crate::ends::Ival;
use crate::interval::met_ends;
use dyadic::{Dy, Ext, sqrt_down, sqrt_up};

// The number, or 0 where it is below 0.
fn clamped(number: Dy) -> Dy
    ensures plus { pos 0 ≤ℤ units_of result }
    ensures size { not_negative (units_of result) ≡ not_negative (units_of number) }
{
    if number.is_negative() {
        Dy::ZERO
    } else {
        number
    }
}

// The root of a lower end, rounded down: unbounded where the end is.
fn low_root(end: Ext) -> Ext
    ensures root { ext_of result ≡ root_end below_all root_down (ext_of end) }
    ensures low { IsTrue (is_low (ext_of result)) }
{
    match end {
        Ext::Fin(number) => sqrt_down(Ext::Fin(clamped(number))),
        Ext::NegInf => Ext::NegInf,
        Ext::PosInf => Ext::NegInf,
    }
}

// The root of an upper end, rounded up: unbounded where the end is.
fn high_root(end: Ext) -> Ext
    ensures root { ext_of result ≡ root_end above_all root_up (ext_of end) }
    ensures high { IsTrue (is_high (ext_of result)) }
{
    match end {
        Ext::Fin(number) => sqrt_up(Ext::Fin(clamped(number))),
        Ext::NegInf => Ext::PosInf,
        Ext::PosInf => Ext::PosInf,
    }
}

impl Ival {
    /// What a square that lies in this interval leaves to its operand, which lies in `own`.
    pub fn inv_sq(self, own: Ival) -> Ival
        ensures { interval_of result ≡ inverse_square (interval_of own) (interval_of self) }
    {
        match (self, own) {
            (Ival::Empty, _) => Ival::Empty,
            (Ival::Between(_), Ival::Empty) => Ival::Empty,
            (Ival::Between(square), Ival::Between(own)) => {
                let low = low_root(square.low);
                let high = high_root(square.high);
                met_ends(own, high.neg(), low.neg()).hull(met_ends(own, low, high))
            }
        }
    }
}
