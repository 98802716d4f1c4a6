// The lines of points.
ghost use Rattle.std.specs.Prelude.{◌≡◌, ◌≤◌, IfOk, length};
ghost use Rattle.cert_read.specs.CertLine.{bool_value as BoolLine};
ghost use Rattle.cert_read.specs.Views.{bool_word_of, line_of};
ghost use Rattle.cert_model.specs.Due.{are_near, coordinate_of, coordinates, is_near};
ghost use Rattle.poly_graph.specs.Problem.{any_bool as AnyBool};
ghost use Rattle.poly_graph.specs.ProblemViews.{declared_of};
ghost use Rattle.ival.specs.SpaceViews.{domain_of, space_of};
ghost use Rattle.cert_check.specs.declared.due.Due.TheVariants.{Coordinate as CoordinateDue};
ghost use Rattle.cert_check.specs.States.{delta_in};
ghost use Rattle.cert_check.specs.Serving.{Serves};
ghost use Rattle.cert_check.specs.Axis.{IsCoordinate};
ghost use Rattle.cert_check.specs.Dues.{end_of_point, IsNext, IsNextOf, IsSound};

use crate::due::{Due, Value};
use crate::loosenings::Loosenings;
use crate::refusal::Refusal;
use crate::tools::Tools;
use cert_read::{BoolSet, Line};
use dyadic::near;
use ival::{Domain, Range, Space, Truths};
use poly_graph::{Declared, Problem};

// The truth value of a Bool axis of a point.
fn truth(values: BoolSet) -> Result<Domain, Refusal>
    ensures { IsCoordinate AnyBool (BoolLine (bool_word_of values)) result }
{
    match values {
        BoolSet::Both => Err(Refusal::BadLine),
        BoolSet::False => Ok(Domain::Bool(Truths::False)),
        BoolSet::True => Ok(Domain::Bool(Truths::True)),
    }
}

// The value of a point's axis.
fn value(declared: Declared, line: &Line) -> Result<Domain, Refusal>
    ensures { IsCoordinate (declared_of declared) (line_of line.now) result }
{
    match declared {
        Declared::Real(_, _) => match line {
            Line::RealValue(value) => Ok(Domain::Real(Range {
                low: *value,
                high: *value,
            })),
            _ => Err(Refusal::Missing),
        },
        Declared::Bool => match line {
            Line::Bool(values) => truth(*values),
            _ => Err(Refusal::Missing),
        },
    }
}

// Whether the value of an axis lies within delta of what is declared.
fn is_near(s: Loosenings, declared: Declared, domain: Domain) -> bool
    ensures { result
        ≡ is_near (delta_in s) (declared_of declared) (coordinate_of (domain_of domain)) }
{
    match declared {
        Declared::Real(low, high) => match domain {
            Domain::Real(range) => near(range.low, s.delta, low, high),
            Domain::Bool(_) => false,
        },
        Declared::Bool => match domain {
            Domain::Bool(_) => true,
            Domain::Real(_) => false,
        },
    }
}

// Whether each Real coordinate lies within delta of the declared bounds.
#[tactic(auto, using(crate::proofs::Near::near_fails, crate::proofs::Near::near_next, crate::proofs::Near::near_done))]
fn are_near(problem: &Problem, s: Loosenings, space: &Space) -> bool
    requires { length (space_of space.now) ≡ length problem.now.axes }
    ensures { result ≡ are_near (delta_in s) problem.now.axes (coordinates (space_of space.now)) }
{
    let axes = problem.axes();
    for axis in 0..axes.len() {
        if !is_near(s, axes[axis].declared, space.get(axis)) {
            return false;
        }
    }
    true
}

// `end` of a point.
fn point_end(
    problem: &Problem,
    tools: &mut Tools,
    s: Loosenings,
    space: Space,
    line: &Line,
) -> Result<Due, Refusal>
    requires serves { Serves problem.now tools.old }
    requires whole { length (space_of space) ≡ length problem.now.axes }
    ensures comes { IsNextOf problem.now (end_of_point s space) (line_of line.now) result }
    ensures sound { IfOk result (IsSound problem.now) }
    ensures serves { Serves problem.now tools.new }
{
    match line {
        Line::End => {
            if tools.sure(problem, s.delta, &space) && are_near(problem, s, &space) {
                Ok(Due::Nothing(s, Value::Point(space)))
            } else {
                Err(Refusal::NotShown)
            }
        }
        _ => Err(Refusal::Missing),
    }
}

/// The value of a point's next axis, or `end`.
pub fn point_line(
    problem: &Problem,
    tools: &mut Tools,
    s: Loosenings,
    space: Space,
    line: &Line,
) -> Result<Due, Refusal>
    requires serves { Serves problem.now tools.old }
    requires sound { IsSound problem.now (CoordinateDue s space) }
    ensures comes { IsNext problem.now (CoordinateDue s space) (line_of line.now) result }
    ensures sound { IfOk result (IsSound problem.now) }
    ensures serves { Serves problem.now tools.new }
{
    let axes = problem.axes();
    let axis = space.len();
    if axis >= axes.len() {
        return point_end(problem, tools, s, space, line);
    }
    match value(axes[axis].declared, line) {
        Err(refusal) => Err(refusal),
        Ok(domain) => {
            let mut space = space;
            space.push(domain);
            Ok(Due::Coordinate(s, space))
        }
    }
}
