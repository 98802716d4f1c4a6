// The space that a problem's cover begins with.
ghost use Rattle.std.specs.Prelude.{◌≡◌, false, map, All, IfOk, None};
ghost use Rattle.poly_graph.specs.Problem.{IsDeclared, is_crossed, first_crossed_from};
ghost use Rattle.cover_model.specs.Root.{root_domain, root_of_axes};
ghost use Rattle.poly_graph.specs.ProblemViews.{axis_of, declared_of};
ghost use Rattle.poly_graph.specs.declared.axis.Declared.TheVariants as declared;
ghost use Rattle.ival.specs.declared.domain.Domain.TheVariants as domain;
ghost use Rattle.ival.specs.SpaceViews.{domain_of, space_of};
ghost use Rattle.form_truth.specs.Roots.{IsRoot};

use dyadic::{Ext, Frac, down_frac, up_frac};
use ival::{Domain, Range, Space, Truths};
use poly_graph::{Axis, Declared, Problem};
use std::alloc::{AllocError, Global};

/// What a problem's cover begins with.
#[derive(Drop)]
pub enum Root {
    /// Nothing: the declared bounds of this axis cross, and of none before it.
    Empty(usize),
    /// The declared bounds, rounded outwards.
    Space(Space),
}

// The first axis whose bounds cross.
fn first_crossed(axes: &[Axis]) -> Option<usize>
    ensures { result ≡ first_crossed_from 0 (map axis_of axes.now) }
{
    for axis in 0..axes.len() {
        if axes[axis].declared.is_crossed() {
            return Some(axis);
        }
    }
    None
}

// The numbers from a bound, rounded down, to another one, rounded up.
fn rounded(low: Frac, high: Frac) -> Range
    requires bounds { IsDeclared (declared_of (declared.Real low high)) }
    requires upright { is_crossed (declared_of (declared.Real low high)) ≡ false }
    ensures { domain_of (domain.Real result) ≡ root_domain (declared_of (declared.Real low high)) }
{
    match (down_frac(low), up_frac(high)) {
        (Ext::Fin(low), Ext::Fin(high)) => Range { low, high },
        _ => unreachable!(),
    }
}

// What an axis has at first.
fn root_domain(declared: Declared) -> Domain
    requires bounds { IsDeclared (declared_of declared) }
    requires upright { is_crossed (declared_of declared) ≡ false }
    ensures { domain_of result ≡ root_domain (declared_of declared) }
{
    match declared {
        Declared::Real(low, high) => Domain::Real(rounded(low, high)),
        Declared::Bool => Domain::Bool(Truths::Either),
    }
}

// What each axis has at first.
fn root_domains(alloc: Global, axes: &[Axis]) -> Result<Space, AllocError>
    requires bounds { All (λ a. IsDeclared a.declared) (map axis_of axes.now) }
    requires upright { first_crossed_from 0 (map axis_of axes.now) ≡ None }
    ensures { IfOk result (λ s. space_of s ≡ root_of_axes (map axis_of axes.now)) }
{
    let mut space = Space::with_capacity(alloc, axes.len())?;
    for axis in 0..axes.len() {
        space.push(root_domain(axes[axis].declared));
    }
    Ok(space)
}

/// The space that the problem's cover begins with, or the first axis whose declared bounds cross.
pub fn root_space(alloc: Global, problem: &Problem) -> Result<Root, AllocError>
    ensures { IfOk result (IsRoot problem.now) }
{
    let axes = problem.axes();
    if let Some(axis) = first_crossed(axes) {
        return Ok(Root::Empty(axis));
    }
    let space = root_domains(alloc, axes)?;
    Ok(Root::Space(space))
}
