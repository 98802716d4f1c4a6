// The range and the off-range of a kind, each as its two ends.
ghost use Rattle.std.specs.Prelude.{◌≡◌, ◌≤◌};
ghost use Rattle.dyadic.specs.Rounding.{two_to_minus};
ghost use Rattle.interval_model.specs.Interval.{between};
ghost use Rattle.dyadic.specs.Views.{ext_of};
ghost use Rattle.cover_model.specs.OffRange.{off_range};
ghost use Rattle.cover_model.specs.Rules.{is_one_sided};
ghost use Rattle.cover_model.specs.Space.{range};
ghost use Rattle.poly_graph.specs.Views.{kind_of};

use dyadic::{Ext, two_to_minus};
use poly_graph::Kind;

/// The ends of the kind's range, loosened by 2 to the power of minus `loosen`.
pub fn range_ends(kind: Kind, loosen: u32) -> (Ext, Ext)
    requires { loosen ≤ 120 }
    ensures { between (ext_of result.0) (ext_of result.1) ≡
        range (two_to_minus loosen) (kind_of kind) }
{
    let margin = two_to_minus(loosen);
    match kind {
        Kind::Le => (Ext::NegInf, Ext::Fin(margin)),
        Kind::Ge => (Ext::Fin(margin.neg()), Ext::PosInf),
        Kind::Eq => (Ext::Fin(margin.neg()), Ext::Fin(margin)),
    }
}

/// The ends of the kind's off-range, loosened by 2 to the power of minus `loosen`: where the term's value lies where
/// an atom of this kind fails.
pub fn off_range_ends(kind: Kind, loosen: u32) -> (Ext, Ext)
    requires { loosen ≤ 120 }
    ensures { between (ext_of result.0) (ext_of result.1) ≡
        off_range (two_to_minus loosen) (kind_of kind) }
{
    let margin = two_to_minus(loosen);
    match kind {
        Kind::Le => (Ext::Fin(margin), Ext::PosInf),
        Kind::Ge => (Ext::NegInf, Ext::Fin(margin.neg())),
        Kind::Eq => (Ext::NegInf, Ext::PosInf),
    }
}

/// Whether it is an inequality, so that its off-range is less than all values.
pub fn is_one_sided(kind: Kind) -> bool
    ensures { result ≡ is_one_sided (kind_of kind) }
{
    match kind {
        Kind::Le => true,
        Kind::Ge => true,
        Kind::Eq => false,
    }
}
