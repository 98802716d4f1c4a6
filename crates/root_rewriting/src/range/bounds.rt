// The ends of a constant.
ghost use Rattle.std.specs.Prelude.{IsTrue};
ghost use Rattle.script_model.specs.Declared.{lower, upper};
ghost use Rattle.root_rewriting.specs.Sides.{is_outward_or_none};

use dyadic::Ext;

/// The greatest lower and the least upper end of a constant, where it has them.
#[derive(Clone, Copy, Debug)]
pub(crate) struct Bounds {
    pub(crate) low: Option<Ext>,
    pub(crate) high: Option<Ext>,
    pub(crate) ghost low_outward: { IsTrue (is_outward_or_none lower low) },
    pub(crate) ghost high_outward: { IsTrue (is_outward_or_none upper high) },
}
