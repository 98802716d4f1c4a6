// The two Real axes of a picture, and where numbers lie on them.
ghost use Rattle.std.specs.Prelude.{◌≤◌};

use crate::fault::Fault;
use dyadic::{Dy, Ext, Frac, at_most, mid};
use ival::{Domain, Range, Space};
use poly_graph::{Declared, Problem};
use std::alloc::{AllocError, Global};

/// The units of each side of the declared box, a power of two: a side is halved until a unit is left.
pub const UNITS: u32 = 8192;

/// A Real axis: its name, its number among all axes, its declared ends, and the numbers that are left at the root.
#[derive(Clone, Copy)]
pub struct Side<'a> {
    pub name: &'a [u8],
    pub axis: usize,
    pub from: Frac,
    pub to: Frac,
    pub range: Range,
}

/// Where a side begins, and how many units it takes, at least one.
#[derive(Clone, Copy, Debug, PartialEq, Eq)]
pub struct Span {
    pub from: u32,
    pub size: u32,
}

/// The axis from left to right, and the axis from below upwards.
#[derive(Clone, Copy)]
pub struct Frame<'a> {
    pub across: Side<'a>,
    pub upward: Side<'a>,
}

/// Which axes are drawn: all Real ones, which have to be two, or those of two names.
#[derive(Clone, Copy)]
pub enum Axes<'a> {
    All,
    Named(&'a [u8], &'a [u8]),
}

impl<'a> Side<'a> {
    /// The unit in which the number lies: 0 for what is below the axis, and `UNITS` for its end and what is above.
    pub fn unit(&self, number: Dy) -> u32
        ensures { result ≤ 8192 }
    {
        let number = Ext::Fin(number);
        if at_most(Ext::Fin(self.range.high), number) {
            return UNITS;
        }
        let (mut low, mut high) = (self.range.low, self.range.high);
        let mut unit = 0;
        let mut part = UNITS / 2;
        while part > 0 {
            let middle = mid(low, high);
            if at_most(Ext::Fin(middle), number) {
                unit += part;
                low = middle;
            } else {
                high = middle;
            }
            part /= 2;
        }
        unit
    }

    /// The units of what the space leaves to the axis.
    pub fn span(&self, space: &Space) -> Span
        ensures { result.from ≤ 8192 }
    {
        let range = match space.axes.get(self.axis) {
            Some(Domain::Real(range)) => *range,
            _ => self.range,
        };
        let from = self.unit(range.low);
        let size = self.unit(range.high).saturating_sub(from).max(1);
        Span { from, size }
    }
}

// A name as it is printed: one that stands for a root or a quotient without the bar at its head.
fn shown(name: &[u8]) -> &[u8] {
    match name {
        [b'|', rest @ ..] => rest,
        _ => name,
    }
}

// The Real axes of the problem, whose cover begins with this space.
fn sides_of<'a>(
    alloc: Global,
    problem: &'a Problem,
    root: &Space,
) -> Result<Vec<Side<'a>>, AllocError> {
    let mut sides = Vec::new(alloc);
    for (axis, declared) in problem.axes().iter().enumerate() {
        if let (Declared::Real(from, to), Some(Domain::Real(range))) = (
            declared.declared,
            root.axes.get(axis),
        ) {
            sides.push(Side {
                name: shown(declared.name.as_slice()),
                axis,
                from,
                to,
                range: *range,
            })?;
        }
    }
    Ok(sides)
}

// The axis of this name.
fn side_named<'a>(sides: &[Side<'a>], name: &[u8]) -> Result<Side<'a>, Fault> {
    for side in sides {
        if side.name == name {
            return Ok(*side);
        }
    }
    Err(Fault::NoAxis)
}

/// The frame of these axes of the problem, whose cover begins with this space.
pub fn frame_of<'a>(
    alloc: Global,
    problem: &'a Problem,
    root: &Space,
    axes: Axes<'_>,
) -> Result<Frame<'a>, Fault> {
    let sides = sides_of(alloc, problem, root)?;
    match (axes, sides.as_slice()) {
        (Axes::Named(across, upward), sides) => Ok(Frame {
            across: side_named(sides, across)?,
            upward: side_named(sides, upward)?,
        }),
        (Axes::All, [across, upward]) => Ok(Frame {
            across: *across,
            upward: *upward,
        }),
        _ => Err(Fault::Axes),
    }
}
