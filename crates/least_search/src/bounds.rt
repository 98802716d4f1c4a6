// The bounds of a goal.
ghost use Rattle.std.specs.Prelude.{◌≡◌, ◌≤◌, true, OnOk, option_map};
ghost use Rattle.dyadic.specs.Rounding.{ext_at_most};
ghost use Rattle.dyadic.specs.Views.{dyadic_of, ext_of};
ghost use Rattle.cert_model.specs.Least.{IsSettled};
ghost use Rattle.least_search.specs.Aims.{IsReady, IsSameAim};
ghost use Rattle.least_search.specs.Found.{AreBoundsOf, IsKeptFor, IsShownFor};

use crate::aim::Aim;
use crate::found::Lower;
use crate::limits::Phase;
use cover_data::Point;
use dyadic::{Dy, Ext, add_down, at_most, two_to_minus};
use std::alloc::{AllocError, Global};

/// The bounds so far, what is left of the budget, what the next search is for, the last limit, if there is one, at which a
/// probe decided nothing since the lower bound or a closing search changed something, the least budget of a probe, and the
/// version of the format in which the next search begins.
#[derive(Drop)]
pub(crate) struct Bounds {
    pub lower: Lower,
    pub point: Point,
    pub upper: Ext,
    pub budget: u32,
    pub phase: Phase,
    pub tried: Option<Dy>,
    pub patience: u32,
    pub version: u32,
}

/// Whether the bounds are as near as was asked.
pub(crate) fn is_settled(lower: Option<Dy>, upper: Ext, gap_bits: u32) -> bool
    requires { gap_bits ≤ 30 }
    ensures near { result ≡ true → IsSettled gap_bits (option_map dyadic_of lower) (ext_of upper) }
    ensures far { IsSettled gap_bits (option_map dyadic_of lower) (ext_of upper) → result ≡ true }
{
    match lower {
        Some(lower) => {
            let gap = Ext::Fin(two_to_minus(gap_bits));
            at_most(upper, add_down(Ext::Fin(lower), gap))
        }
        None => false,
    }
}

/// The point, where it is better.
#[tactic(auto, using(crate::proofs::Near::at_most_itself, crate::proofs::Near::at_most_otherwise))]
pub(crate) fn take_point(
    alloc: Global,
    aim: &mut Aim<'_>,
    bounds: &mut Bounds,
    point: &Point,
) -> Result<(), AllocError>
    requires ready { IsReady aim.old }
    requires bounds { AreBoundsOf aim.old bounds.old }
    requires shown { IsShownFor aim.old point.now }
    ensures ready { IsReady aim.new }
    ensures same { IsSameAim aim.old aim.new }
    ensures bounds { AreBoundsOf aim.old bounds.new }
    ensures better { ext_at_most (ext_of bounds.new.upper) (ext_of bounds.old.upper) ≡ true }
    ensures kept { OnOk result (IsKeptFor aim.old bounds.new point.now) }
    ensures budget { bounds.new.budget ≡ bounds.old.budget }
    ensures lower { bounds.new.lower ≡ bounds.old.lower }
{
    let upper = aim.upper(point.space());
    if at_most(bounds.upper, upper) {
        return Ok(());
    }
    bounds.point = point.try_clone(alloc)?;
    bounds.upper = upper;
    Ok(())
}
