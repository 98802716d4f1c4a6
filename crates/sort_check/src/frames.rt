// What waits while the sort of a part of an expression is found, and how it goes on with that sort.
ghost use Rattle.std.specs.Prelude.{◌≡◌, List};
ghost use Rattle.script_model.specs.Reading.{Names};
ghost use Rattle.sort_check.specs.Room.{Falls, call_room, frame_room, let_room};
ghost use Rattle.sort_check.specs.Sorts.{Sorted, of_sort};
ghost use Rattle.sort_check.specs.Views.{IsSortAnswer, head_sort, sorts_seen};
ghost use Rattle.sort_check.specs.Walking.{Calls, Lets, Turns, Waits, returned};
ghost use Rattle.smt_script.specs.Views.{sort_of};
ghost use Rattle.smt_sexp.specs.Views.{place_of};

use crate::forms::{behind, binding};
use crate::locals::{Level, Locals};
use crate::names::{Head, Known, fits, is_one_real, is_taken};
use crate::operators::operator_sort;
use crate::stop::{Fault, Stop, if_takes};
use script_fault::{Name, Place};
use smt_script::{Parameter, Sort};
use smt_sexp::Sexps;
use std::alloc::Global;
use std::rc::Rc;

/// A call, whose first arguments have these sorts.
#[derive(Drop)]
pub(crate) struct Call<'p, 'a> {
    pub(crate) place: Place,
    pub(crate) head: Head<'p, 'a>,
    /// The names that are bound around it.
    pub(crate) locals: Rc<Locals<'a>>,
    pub(crate) sorts: Vec<Sort>,
    /// The place of the next argument.
    pub(crate) next: usize,
}

/// A `let`, whose first names are bound.
#[derive(Drop)]
pub(crate) struct Let<'a> {
    /// The names that are bound around it.
    pub(crate) locals: Rc<Locals<'a>>,
    pub(crate) bound: Level<'a>,
    /// The place of the next binding.
    pub(crate) next: usize,
    pub(crate) body: usize,
}

/// What waits for a sort: a call for that of an argument, a `let` for that of this name, which stands at this place.
#[derive(Drop)]
pub(crate) enum Frame<'p, 'a> {
    Call(Call<'p, 'a>),
    Let(Let<'a>, Place, &'a Name),
}

/// What is done next.
#[derive(Drop)]
pub(crate) enum Next<'p, 'a> {
    /// A sort goes back to what waits for it.
    Back(Sort),
    /// The expression at a place is entered, around which these names are bound.
    Enter(Rc<Locals<'a>>, usize),
    /// The same, and this waits for its sort.
    Wait(Frame<'p, 'a>, Rc<Locals<'a>>, usize),
}

/// A sort that is found goes back.
pub(crate) fn back<'p, 'a>(found: Result<Sort, Stop<'a>>) -> Result<Next<'p, 'a>, Stop<'a>>
    ensures { result ≡ returned found.entry }
{
    match found {
        Ok(sort) => Ok(Next::Back(sort)),
        Err(stop) => Err(stop),
    }
}

// The sort of a call at arguments of these sorts.
fn called<'p, 'a>(place: Place, head: Head<'p, 'a>, sorts: &[Sort]) -> Result<Sort, Stop<'a>>
    ensures { IsSortAnswer result (head_sort (place_of place) head.entry (sorts_seen sorts.now)) }
{
    match head {
        Head::Operator(operator) => operator_sort(place, operator, sorts),
        Head::Known(Known::Value(_)) => Err(Stop::Fault(place, Fault::SortMismatch)),
        Head::Known(Known::Function(parameters, sort)) => {
            if_takes(place, fits(parameters, sorts), sort)
        }
        Head::Known(Known::Root) => if_takes(place, is_one_real(sorts), Sort::Real),
    }
}

/// A call goes on with its next argument, or behind the last.
pub(crate) fn call_on<'p, 'a>(
    sexps: &'a Sexps,
    mut call: Call<'p, 'a>,
) -> Result<Next<'p, 'a>, Stop<'a>>
    ensures walks { (names : Names Sorted) (t : Sorted) →
        Calls sexps.now names call.entry t → Turns sexps.now names t result }
    ensures falls { Falls sexps.now (call_room sexps.now call.entry) result }
{
    let at = call.next;
    match behind(sexps, at) {
        Some(after) => {
            let locals = call.locals.clone()?;
            call.next = after;
            Ok(Next::Wait(Frame::Call(call), locals, at))
        }
        None => back(called(call.place, call.head, call.sorts.as_slice())),
    }
}

/// A `let` goes on with its next binding, or with its body.
pub(crate) fn let_on<'p, 'a>(
    alloc: Global,
    sexps: &'a Sexps,
    mut bindings: Let<'a>,
) -> Result<Next<'p, 'a>, Stop<'a>>
    ensures walks { (names : Names Sorted) (t : Sorted) →
        Lets sexps.now names bindings.entry t → Turns sexps.now names t result }
    ensures falls { Falls sexps.now (let_room sexps.now bindings.entry) result }
{
    match binding(sexps, bindings.next) {
        Some((place, name, at, after)) => {
            if is_taken(&bindings.bound, name) {
                return Err(Stop::Fault(place, Fault::Redeclared(name)));
            }
            let locals = bindings.locals.clone()?;
            bindings.next = after;
            Ok(Next::Wait(Frame::Let(bindings, place, name), locals, at))
        }
        None => {
            let Let {
                locals,
                bound,
                body,
                ..
            } = bindings;
            let inner = locals.behind(alloc, bound)?;
            let shared = Rc::new(alloc, inner)?;
            Ok(Next::Enter(shared, body))
        }
    }
}

/// What waits goes on with a sort.
pub(crate) fn resume<'p, 'a>(
    alloc: Global,
    sexps: &'a Sexps,
    frame: Frame<'p, 'a>,
    sort: Sort,
) -> Result<Next<'p, 'a>, Stop<'a>>
    ensures walks { (names : Names Sorted) (t : Sorted) →
        Waits sexps.now names frame.entry (of_sort (sort_of sort)) t → Turns sexps.now names t result }
    ensures falls { Falls sexps.now (frame_room sexps.now frame.entry) result }
{
    match frame {
        Frame::Call(mut call) => {
            call.sorts.push(sort)?;
            call_on(sexps, call)
        }
        Frame::Let(mut bindings, place, name) => {
            bindings.bound.push(Parameter { place, name, sort })?;
            let_on(alloc, sexps, bindings)
        }
    }
}
