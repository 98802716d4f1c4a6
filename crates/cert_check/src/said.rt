// What a line is to a place where lines of trees may stand.
ghost use Rattle.cert_read.specs.Views.{line_of};
ghost use Rattle.cert_check.specs.Steps.{IsSaid};

use cert_read::Line;
use cover_line::Rule;

/// A line between trees and in them.
#[derive(Clone, Copy)]
pub enum TreeLine<'a> {
    Lemma(u32),
    Tree,
    End,
    Crossing(u32),
    Rule(&'a Rule),
    Over,
    Other,
}

/// What the line says there.
pub fn said<'a>(line: &'a Line) -> TreeLine<'a>
    ensures { IsSaid result (line_of line.now) }
{
    match line {
        Line::Lemma(i) => TreeLine::Lemma(*i),
        Line::Tree => TreeLine::Tree,
        Line::End => TreeLine::End,
        Line::Empty(axis) => TreeLine::Crossing(*axis),
        Line::Rule(rule) => TreeLine::Rule(rule),
        Line::Over => TreeLine::Over,
        Line::Version(_) => TreeLine::Other,
        Line::Margin(_) => TreeLine::Other,
        Line::Delta(_) => TreeLine::Other,
        Line::Bound(_) => TreeLine::Other,
        Line::Lower(_) => TreeLine::Other,
        Line::Goal(_) => TreeLine::Other,
        Line::Checks(_) => TreeLine::Other,
        Line::Cover(_) => TreeLine::Other,
        Line::Keep(_) => TreeLine::Other,
        Line::Point => TreeLine::Other,
        Line::RealInterval(_, _) => TreeLine::Other,
        Line::RealValue(_) => TreeLine::Other,
        Line::Bool(_) => TreeLine::Other,
        Line::Yes(_) => TreeLine::Other,
        Line::No(_) => TreeLine::Other,
    }
}
