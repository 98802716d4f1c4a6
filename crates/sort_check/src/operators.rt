// The operators of Core and Reals, and their sorts (SMT-LIB 2.6, theories Core and Reals).
ghost use Rattle.std.specs.Prelude.{◌≡◌, option_map};
ghost use Rattle.script_model.specs.Reading.{choice, found, operators};
ghost use Rattle.sort_check.specs.Calls.{sort_of_operator};
ghost use Rattle.sort_check.specs.Sorts.{all_of, is_bool, is_real, operator_sort};
ghost use Rattle.sort_check.specs.Views.{IsSortAnswer, operator_of, later_operators, sorts_seen};
ghost use Rattle.smt_sexp.specs.Views.{place_of};

use crate::stop::{Fault, Stop, if_takes};
use script_fault::Place;
use smt_script::Sort;

/// A symbol of the theories.
#[derive(Clone, Copy, Debug)]
pub enum Operator {
    True,
    False,
    Not,
    And,
    Or,
    Implies,
    Xor,
    Equal,
    Distinct,
    Choice,
    Minus,
    Plus,
    Times,
    Divide,
    AtMost,
    Below,
    AtLeast,
    Above,
}

/// The operator of this name.
pub fn operator_named(name: &[u8]) -> Option<Operator>
    ensures { option_map operator_of result ≡ found name.now operators }
{
    if name == b"true".as_slice() {
        return Some(Operator::True);
    }
    if name == b"false".as_slice() {
        return Some(Operator::False);
    }
    if name == b"not".as_slice() {
        return Some(Operator::Not);
    }
    if name == b"and".as_slice() {
        return Some(Operator::And);
    }
    if name == b"or".as_slice() {
        return Some(Operator::Or);
    }
    if name == b"=>".as_slice() {
        return Some(Operator::Implies);
    }
    if name == b"xor".as_slice() {
        return Some(Operator::Xor);
    }
    if name == b"=".as_slice() {
        return Some(Operator::Equal);
    }
    if name == b"distinct".as_slice() {
        return Some(Operator::Distinct);
    }
    if name == b"ite".as_slice() {
        return Some(Operator::Choice);
    }
    operator_of_reals(name)
}

// The same of those of Reals.
fn operator_of_reals(name: &[u8]) -> Option<Operator>
    ensures { option_map operator_of result ≡ found name.now later_operators }
{
    if name == b"-".as_slice() {
        return Some(Operator::Minus);
    }
    if name == b"+".as_slice() {
        return Some(Operator::Plus);
    }
    if name == b"*".as_slice() {
        return Some(Operator::Times);
    }
    if name == b"/".as_slice() {
        return Some(Operator::Divide);
    }
    if name == b"<=".as_slice() {
        return Some(Operator::AtMost);
    }
    if name == b"<".as_slice() {
        return Some(Operator::Below);
    }
    if name == b">=".as_slice() {
        return Some(Operator::AtLeast);
    }
    if name == b">".as_slice() {
        return Some(Operator::Above);
    }
    None
}

// Whether all are Bool.
fn all_bool(sorts: &[Sort]) -> bool
    ensures { result ≡ all_of is_bool (sorts_seen sorts.now) }
{
    let mut rest = sorts;
    while let [first, later @ ..] = rest {
        if let Sort::Real = *first {
            return false;
        }
        rest = later;
    }
    true
}

// Whether all are Real.
fn all_real(sorts: &[Sort]) -> bool
    ensures { result ≡ all_of is_real (sorts_seen sorts.now) }
{
    let mut rest = sorts;
    while let [first, later @ ..] = rest {
        if let Sort::Bool = *first {
            return false;
        }
        rest = later;
    }
    true
}

/// The sort of an operator at arguments of these sorts.
pub(crate) fn operator_sort<'a>(
    place: Place,
    operator: Operator,
    sorts: &[Sort],
) -> Result<Sort, Stop<'a>>
    ensures { IsSortAnswer result (sort_of_operator place operator sorts.now) }
{
    let bools = all_bool(sorts);
    let reals = all_real(sorts);
    let count = sorts.len();
    match operator {
        Operator::True => if_takes(place, count == 0, Sort::Bool),
        Operator::False => if_takes(place, count == 0, Sort::Bool),
        Operator::Not => if_takes(place, bools && count == 1, Sort::Bool),
        Operator::And => if_takes(place, bools && count >= 1, Sort::Bool),
        Operator::Or => if_takes(place, bools && count >= 1, Sort::Bool),
        Operator::Implies => if_takes(place, bools && count >= 2, Sort::Bool),
        Operator::Xor => if_takes(place, bools && count >= 2, Sort::Bool),
        Operator::Equal => if_takes(place, (bools || reals) && count >= 2, Sort::Bool),
        Operator::Distinct => if_takes(place, (bools || reals) && count >= 2, Sort::Bool),
        Operator::Choice => choice_sort(place, sorts),
        Operator::Minus => if_takes(place, reals && count >= 1, Sort::Real),
        Operator::Plus => if_takes(place, reals && count >= 1, Sort::Real),
        Operator::Times => if_takes(place, reals && count >= 1, Sort::Real),
        Operator::Divide => if_takes(place, reals && count >= 2, Sort::Real),
        Operator::AtMost => if_takes(place, reals && count >= 2, Sort::Bool),
        Operator::Below => if_takes(place, reals && count >= 2, Sort::Bool),
        Operator::AtLeast => if_takes(place, reals && count >= 2, Sort::Bool),
        Operator::Above => if_takes(place, reals && count >= 2, Sort::Bool),
    }
}

// The same of `ite`, whose arms have one sort.
fn choice_sort<'a>(place: Place, sorts: &[Sort]) -> Result<Sort, Stop<'a>>
    ensures { IsSortAnswer result (operator_sort (place_of place) choice (sorts_seen sorts.now)) }
{
    match sorts {
        [Sort::Bool, Sort::Real, Sort::Real] => Ok(Sort::Real),
        [Sort::Bool, Sort::Bool, Sort::Bool] => Ok(Sort::Bool),
        _ => Err(Stop::Fault(place, Fault::SortMismatch)),
    }
}
