// Ends of constants.
ghost use Rattle.std.specs.Prelude.{IsTrue};
ghost use Rattle.dyadic.specs.Views.{ext_of};
ghost use Rattle.root_rewriting.specs.Sides.{is_outward, side_of};

use crate::range::side::Side;
use dyadic::Ext;

/// An end of a constant, by its number. A lower one is not plus infinity, an upper one not minus infinity.
#[derive(Clone, Copy, Debug)]
pub(crate) struct EndBound {
    pub(crate) axis: usize,
    pub(crate) side: Side,
    pub(crate) end: Ext,
    pub(crate) ghost outward: { IsTrue (is_outward (side_of side) (ext_of end)) },
}
