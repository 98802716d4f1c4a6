// What comes of a line.
ghost use Rattle.std.specs.Prelude.{◌<◌, ◌-◌, ◌^◌, IfOk};
ghost use Rattle.cert_read.specs.Views.{line_of};
ghost use Rattle.cert_check.specs.Serving.{Serves};
ghost use Rattle.cert_check.specs.Dues.{due_of, IsNextAt, IsSound};
ghost use Rattle.cert_check.specs.Stays.{stays_in};

use crate::due::Due;
use crate::header::{bound_line, delta_line, kind_line, margin_line, version_line};
use crate::lemma::{axis_line, next_line, no_line};
use crate::point::point_line;
use crate::refusal::Refusal;
use crate::tools::Tools;
use crate::tree::{end_line, lemma_line, root_line, tree_line};
use cert_read::Line;
use poly_graph::Problem;
use std::alloc::Global;

/// What is due after the line, or its fault.
pub fn next(
    alloc: Global,
    problem: &Problem,
    bound: Option<u32>,
    tools: &mut Tools,
    due: Due,
    line: &Line,
) -> Result<Due, Refusal>
    requires serves { Serves problem.now tools.old }
    requires sound { IsSound problem.now due }
    requires room { stays_in due < 2 ^ 64 - 1 }
    ensures comes { IsNextAt problem.now bound (due_of problem.now due) (line_of line.now) result }
    ensures sound { IfOk result (IsSound problem.now) }
    ensures serves { Serves problem.now tools.new }
{
    match due {
        Due::Version => version_line(line),
        Due::Margin(version) => margin_line(version, line),
        Due::Delta(version, margin) => delta_line(version, margin, line),
        Due::Bound(s) => bound_line(s, bound, line),
        Due::Kind(s) => kind_line(alloc, problem, s, line),
        Due::Next(cover) => next_line(alloc, problem, cover, line),
        Due::Axis(cover, space) => axis_line(alloc, problem, cover, space, line),
        Due::No(cover, space, yes) => no_line(alloc, problem, cover, space, yes, line),
        Due::Lemma(cover, lemma, tree) => {
            lemma_line(alloc, problem, tools, cover, lemma, tree, line)
        }
        Due::Root(cover) => root_line(alloc, problem, tools, cover, line),
        Due::Tree(cover, tree, stayed) => {
            tree_line(alloc, problem, tools, cover, tree, stayed, line)
        }
        Due::Coordinate(s, space) => point_line(problem, tools, s, space, line),
        Due::End(cover, stayed) => end_line(cover, stayed, line),
        Due::Nothing(_, _) => Err(Refusal::Extra),
    }
}
