// Intervals as a lower and an upper end.
ghost use Rattle.std.specs.Prelude.{IsTrue};
ghost use Rattle.dyadic.specs.Views.{ext_of};
ghost use Rattle.ival.specs.Proper.{are_ends};

use dyadic::Ext;

/// A lower and an upper end. The lower one is not above the upper one, and neither is the infinity of the other side.
#[derive(Clone, Copy, PartialEq, Eq, Debug)]
pub struct Ends {
    pub low: Ext,
    pub high: Ext,
    pub ghost proper: { IsTrue (are_ends (ext_of low) (ext_of high)) },
}

/// An interval: empty, or from a lower to an upper end.
#[derive(Clone, Copy, PartialEq, Eq, Debug)]
pub enum Ival {
    Empty,
    Between(Ends),
}
