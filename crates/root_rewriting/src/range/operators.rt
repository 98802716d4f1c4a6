// The ranges of operators at arguments.
ghost use Rattle.std.specs.Prelude.{◌≡◌, map, Some};
ghost use Rattle.interval_model.specs.Interval.{everything};
ghost use Rattle.ival.specs.Views.{interval_of};
ghost use Rattle.script_model.specs.Meaning.{first_and_rest};
ghost use Rattle.script_roots.specs.Ranges.{minus_range, operator_range};
ghost use Rattle.sort_check.specs.Views.{operator_of};
ghost use Rattle.root_rewriting.specs.Operators.{step_range};

use crate::range::quotients::quotient_range;
use ival::Ival;
use sort_check::Operator;

/// What arithmetic does with two arguments.
#[derive(Clone, Copy, Debug)]
enum Step {
    Sum,
    Difference,
    Product,
    Quotient,
}

// The range of a step from two ranges.
fn step_range(step: Step, first: Ival, second: Ival) -> Ival
    ensures { interval_of result ≡ step_range step (interval_of first) (interval_of second) }
{
    match step {
        Step::Sum => first.add(second),
        Step::Difference => first.add(second.neg()),
        Step::Product => first.mul(second),
        Step::Quotient => quotient_range(first, second),
    }
}

// The range of steps from left to right; everything where there is no argument.
fn steps_range(step: Step, ranges: &[Ival]) -> Ival
    ensures { interval_of result ≡
        first_and_rest (step_range step) everything (map interval_of ranges.now) }
{
    let Some((first, rest)) = ranges.split_first() else {
        return Ival::everything();
    };
    let mut all = *first;
    for range in rest {
        all = step_range(step, all, *range);
    }
    all
}

// The range of a difference, or of an opposite where there is one argument; everything where there is none.
fn minus_range(ranges: &[Ival]) -> Ival
    ensures { interval_of result ≡ minus_range (map interval_of ranges.now) }
{
    match ranges {
        [only] => only.neg(),
        _ => steps_range(Step::Difference, ranges),
    }
}

/// In what the value of an operator at arguments lies that lie in these.
pub(crate) fn operator_range(operator: Operator, ranges: &[Ival]) -> Ival
    ensures { interval_of result ≡
        operator_range (Some (operator_of operator)) (map interval_of ranges.now) }
{
    match operator {
        Operator::Plus => steps_range(Step::Sum, ranges),
        Operator::Minus => minus_range(ranges),
        Operator::Times => steps_range(Step::Product, ranges),
        Operator::Divide => steps_range(Step::Quotient, ranges),
        _ => Ival::everything(),
    }
}
