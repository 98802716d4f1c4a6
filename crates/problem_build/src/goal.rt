// What is made of a goal: it stands among the assertions as `(or (<= t 0) true)`, where t is its term.
ghost use Rattle.std.specs.Prelude.{◌≡◌, OnOk, []};
ghost use Rattle.script_model.specs.Sexp as sexp;
ghost use Rattle.script_model.specs.Declared.{bounding};
ghost use Rattle.script_forms.specs.Work.{as_work};
ghost use Rattle.smt_sexp.specs.Views.{place_of};
ghost use Rattle.problem_build.specs.Goal.{at_most_zero, goal_meaning, the_truth, the_zero};
ghost use Rattle.problem_build.specs.Names.{TopFits, bounding_at, work_at};
ghost use Rattle.problem_build.specs.Standing.{Asserts};
ghost use Rattle.problem_build.specs.Walking.{IsWorkValue};

use crate::top::TopTable;
use crate::walk::expression;
use script_fault::Place;
use smt_sexp::Sexps;
use sort_check::Operator;
use std::alloc::Global;
use term_build::Stop;
use value_build::{Maker, Value};

// The literal 0.
fn zero(maker: &mut Maker) -> Result<Value, Stop>
    ensures walks { (at : sexp.Place) → IsWorkValue maker.old maker.new
        (the_zero as_work at) (the_zero bounding at) result }
    ensures sorts { maker.new.made.sorts ≡ maker.old.made.sorts }
{
    maker.reach()?;
    maker.literal(b"0", b"")
}

// The symbol `true`.
fn truth(alloc: Global, maker: &mut Maker, place: Place) -> Result<Value, Stop>
    ensures walks { IsWorkValue maker.old maker.new
        (the_truth as_work (place_of place)) (the_truth bounding (place_of place)) result }
    ensures sorts { maker.new.made.sorts ≡ maker.old.made.sorts }
{
    maker.reach()?;
    maker.operate(alloc, place, Operator::True, &[])
}

// That the term is at most 0.
fn compared<'p, 'a>(
    alloc: Global,
    sexps: &'a Sexps,
    top: &TopTable<'p, 'a>,
    maker: &mut Maker,
    place: Place,
    body: usize,
) -> Result<Value, Stop>
    requires { TopFits maker.old.made.sorts top.now }
    ensures walks { IsWorkValue maker.old maker.new
        (at_most_zero as_work (place_of place) (work_at sexps.now top.now body))
        (at_most_zero bounding (place_of place) (bounding_at sexps.now top.now body)) result }
    ensures sorts { maker.new.made.sorts ≡ maker.old.made.sorts }
{
    maker.reach()?;
    let term = expression(alloc, sexps, top, maker, body)?;
    let zero = zero(maker)?;
    maker.operate(alloc, place, Operator::AtMost, &[term, zero])
}

// The whole disjunction.
fn disjunction<'p, 'a>(
    alloc: Global,
    sexps: &'a Sexps,
    top: &TopTable<'p, 'a>,
    maker: &mut Maker,
    place: Place,
    body: usize,
) -> Result<Value, Stop>
    requires { TopFits maker.old.made.sorts top.now }
    ensures walks { IsWorkValue maker.old maker.new
        (goal_meaning as_work (place_of place) (work_at sexps.now top.now body))
        (goal_meaning bounding (place_of place) (bounding_at sexps.now top.now body)) result }
    ensures sorts { maker.new.made.sorts ≡ maker.old.made.sorts }
{
    maker.reach()?;
    let compared = compared(alloc, sexps, top, maker, place, body)?;
    let truth = truth(alloc, maker, place)?;
    maker.operate(alloc, place, Operator::Or, &[compared, truth])
}

/// A goal at this place, with the place of its term: the node of the form that it stands for, and the list of its bounds.
pub(crate) fn goal_claim<'p, 'a>(
    alloc: Global,
    sexps: &'a Sexps,
    top: &TopTable<'p, 'a>,
    maker: &mut Maker,
    place: Place,
    body: usize,
) -> Result<(u32, u32), Stop>
    requires { TopFits maker.old.made.sorts top.now }
    ensures asserts { Asserts maker.old maker.new
        (goal_meaning as_work (place_of place) (work_at sexps.now top.now body))
        (goal_meaning bounding (place_of place) (bounding_at sexps.now top.now body)) result }
    ensures sorts { maker.new.made.sorts ≡ maker.old.made.sorts }
    ensures empty { OnOk result (maker.new.drawn ≡ []) }
{
    let value = disjunction(alloc, sexps, top, maker, place, body)?;
    maker.claim(alloc, value)
}
