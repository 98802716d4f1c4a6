// What is told of the axes: a line for each, in the order of declaration.
ghost use Rattle.std.specs.Prelude.{◌≡◌, ◌++◌, ◌∷◌, OnOk, map};
ghost use Rattle.dyadic.specs.NumberText.{number_spelling};
ghost use Rattle.dyadic.specs.Views.{dyadic_of};
ghost use Rattle.poly_graph.specs.ProblemViews.{axis_of};
ghost use Rattle.ival.specs.SpaceViews.{domain_of, space_of};
ghost use Rattle.cert_model.specs.AnswerText.{axes_text, domain_text, name_text, text_line};
ghost use Rattle.check_run.specs.Shown.{shown_text};

use crate::name::append_name;
use dyadic::{Dy, write_dy};
use ival::{Domain, Range, Space, Truths};
use poly_graph::Axis;
use std::alloc::AllocError;

/// What is told of an axis.
#[derive(Clone, Copy, Debug, PartialEq, Eq)]
pub(crate) enum Shown {
    /// The one value of an axis of a point.
    Value,
    /// The ends of a Real axis, or the one value of a Bool axis.
    Ends,
}

/// Appends a line for each axis.
pub(crate) fn append_axes(
    text: &mut Vec<u8>,
    axes: &[Axis],
    space: &Space,
    shown: Shown,
) -> Result<(), AllocError>
    ensures { OnOk result (text.new.items ≡ text.old.items
        ++ axes_text (shown_text shown) (map axis_of axes.now) (space_of space.now)) }
{
    for (axis, domain) in axes.iter().zip(&space.axes) {
        append_axis(text, axis, *domain, shown)?;
    }
    Ok(())
}

fn append_axis(
    text: &mut Vec<u8>,
    axis: &Axis,
    domain: Domain,
    shown: Shown,
) -> Result<(), AllocError>
    ensures { OnOk result (text.new.items ≡ text.old.items
        ++ text_line (name_text axis.now.name.items ++ 32 ∷ shown_text shown (domain_of domain))) }
{
    append_name(text, &axis.name)?;
    text.extend_from_slice(b" ")?;
    append_domain(text, domain, shown)?;
    text.extend_from_slice(b"\n")
}

fn append_domain(text: &mut Vec<u8>, domain: Domain, shown: Shown) -> Result<(), AllocError>
    ensures { OnOk result (text.new.items ≡ text.old.items ++ shown_text shown (domain_of domain)) }
{
    match (domain, shown) {
        (Domain::Real(range), Shown::Value) => append_number(text, range.low),
        (Domain::Real(range), Shown::Ends) => append_ends(text, range),
        (Domain::Bool(Truths::False), _) => text.extend_from_slice(b"false"),
        (Domain::Bool(Truths::True | Truths::Either), _) => text.extend_from_slice(b"true"),
    }
}

fn append_ends(text: &mut Vec<u8>, range: Range) -> Result<(), AllocError>
    ensures { OnOk result (text.new.items ≡ text.old.items
        ++ (number_spelling (dyadic_of range.low) ++ 32 ∷ number_spelling (dyadic_of range.high))) }
{
    append_number(text, range.low)?;
    text.extend_from_slice(b" ")?;
    append_number(text, range.high)
}

/// Appends the spelling of a number.
pub(crate) fn append_number(text: &mut Vec<u8>, number: Dy) -> Result<(), AllocError>
    ensures { OnOk result (text.new.items ≡ text.old.items ++ number_spelling (dyadic_of number)) }
{
    let mut buffer = [0; 64];
    let end = write_dy(&number, &mut buffer);
    text.extend_from_slice(&buffer[..end])
}
