// The sorts of expressions: the head first, then the arguments from left to right, then the expression itself. What waits
// for the sorts of parts stands on a stack on the heap, so that expressions may nest as deep as there is memory.
ghost use Rattle.std.specs.Prelude.{◌≡◌, ◌*◌, [], Err};
ghost use Rattle.script_model.specs.Reading.{Names};
ghost use Rattle.smt_sexp.specs.Views.{place_of};
ghost use Rattle.sort_check.specs.Calls.{ListsSorts, SaysSort, sort_of_call, sort_of_expression, sort_of_group, sort_of_leaf, sort_of_let, sort_of_name, sorts_of_arguments};
ghost use Rattle.sort_check.specs.Room.{Falls, room_from};
ghost use Rattle.sort_check.specs.Sorts.{Sorted};
ghost use Rattle.sort_check.specs.Views.{IsSortAnswer, around, bare_sort};
ghost use Rattle.sort_check.specs.Walking.{Turns, TurnsIn};

use crate::forms::{behind, ends, let_form};
use crate::frames::{Call, Frame, Let, Next, back, call_on, let_on, resume};
use crate::locals::{Level, Locals};
use crate::names::{Head, Known, fits, head_of};
use crate::operators::operator_sort;
use crate::stop::{Fault, Stop, if_takes, unknown};
use script_fault::{Name, Place};
use smt_script::Sort;
use smt_sexp::{Leaf, Reserved, Seen, Sexps};
use std::alloc::Global;
use std::collections::HashMap;
use std::rc::Rc;

/// The sort of the expression at a place, where `let` and parameters bind the locals.
pub(crate) fn expression<'p, 'a>(
    alloc: Global,
    sexps: &'a Sexps,
    top: &HashMap<&'a [u8], Known<'p, 'a>>,
    locals: Locals<'a>,
    at: usize,
) -> Result<Sort, Stop<'a>>
    ensures { SaysSort top.now locals.entry (sort_of_expression sexps.now at) result }
{
    let shared = Rc::new(alloc, locals)?;
    let mut stack: Vec<Frame<'p, 'a>> = Vec::new(alloc);
    let mut next = Next::Enter(shared, at);
    'turns: loop {
        next = match next {
            Next::Enter(locals, at) => enter(alloc, sexps, top, locals, at)?,
            Next::Wait(frame, locals, at) => {
                stack.push(frame)?;
                enter(alloc, sexps, top, locals, at)?
            }
            Next::Back(sort) => match stack.pop() {
                Some(frame) => resume(alloc, sexps, frame, sort)?,
                None => return Ok(sort),
            },
        };
    }
}

/// The sorts of the expressions from a place on, around which nothing is bound.
pub(crate) fn terms<'p, 'a>(
    alloc: Global,
    sexps: &'a Sexps,
    top: &HashMap<&'a [u8], Known<'p, 'a>>,
    start: usize,
) -> Result<Vec<Sort>, Stop<'a>>
    ensures { ListsSorts top.now [] (sorts_of_arguments sexps.now start) result }
{
    let mut sorts = Vec::new(alloc);
    let mut at = start;
    while let Some(after) = behind(sexps, at) {
        let sort = expression(alloc, sexps, top, Locals::new(alloc), at)?;
        sorts.push(sort)?;
        at = after;
    }
    Ok(sorts)
}

// The expression at a place is entered.
fn enter<'p, 'a>(
    alloc: Global,
    sexps: &'a Sexps,
    top: &HashMap<&'a [u8], Known<'p, 'a>>,
    locals: Rc<Locals<'a>>,
    at: usize,
) -> Result<Next<'p, 'a>, Stop<'a>>
    ensures walks { TurnsIn sexps.now top.now locals.entry.value (sort_of_expression sexps.now at) result }
    ensures falls { Falls sexps.now (room_from sexps.now at) result }
{
    match sexps.look(at) {
        Seen::End => back(mismatch(Place { line: 0, column: 0 })),
        Seen::Leaf(place, leaf, _) => back(leaf_sort(top, &locals, place, leaf)),
        Seen::Group(place, inside, _) => group(alloc, sexps, top, locals, place, inside),
    }
}

// A group from its first place on.
fn group<'p, 'a>(
    alloc: Global,
    sexps: &'a Sexps,
    top: &HashMap<&'a [u8], Known<'p, 'a>>,
    locals: Rc<Locals<'a>>,
    place: Place,
    inside: usize,
) -> Result<Next<'p, 'a>, Stop<'a>>
    ensures walks { TurnsIn sexps.now top.now locals.entry.value
        (sort_of_group sexps.now place inside) result }
    ensures falls { Falls sexps.now (room_from sexps.now inside) result }
{
    match sexps.look(inside) {
        Seen::Leaf(_, Leaf::Symbol(name), args) => {
            applied(alloc, sexps, top, locals, place, name, args)
        }
        Seen::Leaf(_, Leaf::Reserved(Reserved::Let), at) => let_sort(
            alloc, sexps, locals, place, at,
        ),
        Seen::Leaf(_, Leaf::Reserved(Reserved::Bang), at) => {
            if ends(sexps, at) {
                back(mismatch(place))
            } else {
                Ok(Next::Enter(locals, at))
            }
        }
        Seen::Leaf(_, Leaf::Reserved(_), _) => Err(Stop::Fault(place, Fault::LeftOut)),
        _ => back(mismatch(place)),
    }
}

// A name at its arguments.
fn applied<'p, 'a>(
    alloc: Global,
    sexps: &'a Sexps,
    top: &HashMap<&'a [u8], Known<'p, 'a>>,
    locals: Rc<Locals<'a>>,
    place: Place,
    name: &'a Name,
    args: usize,
) -> Result<Next<'p, 'a>, Stop<'a>>
    ensures walks { TurnsIn sexps.now top.now locals.entry.value
        (sort_of_call sexps.now place name.now args) result }
    ensures falls { Falls sexps.now (2 * room_from sexps.now args) result }
{
    let Some(head) = head_of(top, &locals, name) else {
        return back(unknown(place, name));
    };
    if ends(sexps, args) {
        return back(mismatch(place));
    }
    let call = Call {
        place,
        head,
        locals,
        sorts: Vec::new(alloc),
        next: args,
    };
    call_on(sexps, call)
}

// A `let`, from what stands behind its word.
fn let_sort<'p, 'a>(
    alloc: Global,
    sexps: &'a Sexps,
    locals: Rc<Locals<'a>>,
    place: Place,
    at: usize,
) -> Result<Next<'p, 'a>, Stop<'a>>
    ensures walks { (names : Names Sorted) → Turns sexps.now names
        (sort_of_let sexps.now place at (around locals.entry.value names)) result }
    ensures falls { Falls sexps.now (room_from sexps.now at) result }
{
    let Some((inside, body)) = let_form(sexps, at) else {
        return back(mismatch(place));
    };
    let bindings = Let {
        locals,
        bound: Level::new(alloc),
        next: inside,
        body,
    };
    let_on(alloc, sexps, bindings)
}

// An expression without a form.
fn mismatch<'a>(place: Place) -> Result<Sort, Stop<'a>>
    ensures { result ≡ Err (Stop.Fault place Fault.SortMismatch) }
{
    Err(Stop::Fault(place, Fault::SortMismatch))
}

// The sort of a leaf.
fn leaf_sort<'p, 'a>(
    top: &HashMap<&'a [u8], Known<'p, 'a>>,
    locals: &Locals<'a>,
    place: Place,
    leaf: &'a Leaf,
) -> Result<Sort, Stop<'a>>
    ensures { SaysSort top.now locals.now (sort_of_leaf place leaf.now) result }
{
    match leaf {
        Leaf::Numeral(_) => Ok(Sort::Real),
        Leaf::Decimal(_, _) => Ok(Sort::Real),
        Leaf::Symbol(name) => alone(top, locals, place, name),
        Leaf::Reserved(_) => mismatch(place),
        Leaf::String(_) => mismatch(place),
        Leaf::Keyword(_) => mismatch(place),
    }
}

// The sort of a name alone.
fn alone<'p, 'a>(
    top: &HashMap<&'a [u8], Known<'p, 'a>>,
    locals: &Locals<'a>,
    place: Place,
    name: &'a Name,
) -> Result<Sort, Stop<'a>>
    ensures { SaysSort top.now locals.now (sort_of_name place name.now) result }
{
    let Some(head) = head_of(top, locals, name) else {
        return unknown(place, name);
    };
    bare(place, head)
}

// The sort of what a name alone stands for.
fn bare<'p, 'a>(place: Place, head: Head<'p, 'a>) -> Result<Sort, Stop<'a>>
    ensures { IsSortAnswer result (bare_sort (place_of place) head.entry) }
{
    match head {
        Head::Operator(operator) => operator_sort(place, operator, &[]),
        Head::Known(Known::Value(sort)) => Ok(sort),
        Head::Known(Known::Function(parameters, sort)) => {
            if_takes(place, fits(parameters, &[]), sort)
        }
        Head::Known(Known::Root) => mismatch(place),
    }
}
