// What a line is to a cover of least values.
ghost use Rattle.cert_read.specs.Views.{line_of};
ghost use Rattle.cert_least.specs.Said.{IsSaid};

use cert_read::Line;
use cover_line::{Rule, Staying};

/// A line of the cover or behind it.
#[derive(Clone, Copy)]
pub enum CoverLine {
    /// `over`.
    Over,
    /// A rule that leaves its own state: stuck at this atom, or open.
    Leaf(Option<u32>),
    /// `point`.
    Point,
    Other,
}

/// What the line says there.
pub fn said(line: &Line) -> CoverLine
    ensures { IsSaid result (line_of line.now) }
{
    match line {
        Line::Over => CoverLine::Over,
        Line::Rule(Rule::Stay(Staying::Open)) => CoverLine::Leaf(None),
        Line::Rule(Rule::Stay(Staying::Stuck(atom))) => CoverLine::Leaf(Some(*atom)),
        Line::Point => CoverLine::Point,
        _ => CoverLine::Other,
    }
}
