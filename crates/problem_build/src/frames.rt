// What waits while a part of an expression is walked over, and how it goes on with the part's value.
ghost use Rattle.std.specs.Prelude.{◌≡◌, IfOk, List, map};
ghost use Rattle.script_model.specs.Declared.{Bounding};
ghost use Rattle.script_forms.specs.Terms.{Unfolded};
ghost use Rattle.script_forms.specs.Work.{Work, outcome_of};
ghost use Rattle.smt_sexp.specs.Views.{place_of};
ghost use Rattle.smt_sexp.specs.declared.sexps.Sexps as arena;
ghost use Rattle.value_build.specs.Making.{Making};
ghost use Rattle.value_build.specs.Values.{AreKnown, AreValues, IsKnown, IsValue};
ghost use Rattle.problem_build.specs.Walking.{Calls, IsIll, IsScope, KnowsValues, Lets, Turns, Waits, call_bounds, call_work, returned};
ghost use Rattle.problem_build.specs.declared.top.Top.{Top};

use crate::locals::{Level, Local, Locals, bound_locals};
use crate::names::Head;
use script_fault::{Name, Place};
use smt_sexp::Sexps;
use sort_check::{behind, binding};
use std::alloc::{AllocError, Global};
use std::rc::Rc;
use term_build::{Fault, Stop};
use value_build::{Maker, Value};

/// The names that are seen: so many of the top, and before them those that `let` and parameters bind.
#[derive(Drop)]
pub(crate) struct Scope<'a> {
    pub(crate) visible: usize,
    pub(crate) locals: Rc<Locals<'a>>,
}

impl<'a> Scope<'a> {
    /// So many names of the top, and these before them.
    pub(crate) fn new(alloc: Global, visible: usize, locals: Locals<'a>) -> Result<Self, AllocError>
        ensures { IfOk result (λ scope. IsScope scope visible locals.entry) }
    {
        let locals = Rc::new(alloc, locals)?;
        Ok(Scope { visible, locals })
    }

    /// The same names once more.
    pub(crate) fn again(&self) -> Result<Self, AllocError>
        ensures { IfOk result (λ scope.
            IsScope scope self.now.visible self.now.locals.value) }
    {
        let locals = self.locals.clone()?;
        Ok(Scope {
            visible: self.visible,
            locals,
        })
    }
}

/// A call, whose first arguments have values.
#[derive(Drop)]
pub(crate) struct Call<'p, 'a> {
    pub(crate) place: Place,
    pub(crate) head: Head<'p, 'a>,
    /// Where its arguments are read.
    pub(crate) scope: Scope<'a>,
    pub(crate) values: Vec<Value>,
    /// The place of the next argument.
    pub(crate) next: usize,
}

/// A `let`, whose first names are bound.
#[derive(Drop)]
pub(crate) struct Let<'a> {
    /// Where its bindings are read.
    pub(crate) scope: Scope<'a>,
    pub(crate) bound: Level<'a>,
    /// The place of the next binding.
    pub(crate) next: usize,
    pub(crate) body: usize,
}

/// What waits for a value: a call for that of an argument, a `let` for that of this name.
#[derive(Drop)]
pub(crate) enum Frame<'p, 'a> {
    Call(Call<'p, 'a>),
    Let(Let<'a>, &'a Name),
}

/// What is done next.
#[derive(Drop)]
pub(crate) enum Next<'p, 'a> {
    /// A value goes back to what waits for it.
    Back(Value),
    /// The expression at a place is entered.
    Enter(Scope<'a>, usize),
    /// The expression at a place is entered, and this waits for its value.
    Wait(Frame<'p, 'a>, Scope<'a>, usize),
}

/// An expression without a sort.
pub(crate) fn ill_formed<'p, 'a>(place: Place) -> Result<Next<'p, 'a>, Stop>
    ensures { IsIll place result }
{
    Err(Stop::Fault(place, Fault::IllFormed))
}

/// A value goes back.
pub(crate) fn back<'p, 'a>(made: Result<Value, Stop>) -> Result<Next<'p, 'a>, Stop>
    ensures { result ≡ returned made }
{
    match made {
        Ok(value) => Ok(Next::Back(value)),
        Err(stop) => Err(stop),
    }
}

// A call goes on with the values of all its arguments.
fn called<'p, 'a>(
    alloc: Global,
    maker: &mut Maker,
    place: Place,
    head: Head<'p, 'a>,
    values: &[Value],
) -> Result<Next<'p, 'a>, Stop>
    requires { AreKnown maker.old values.now }
    ensures walks { (s : arena.Sexps) (top : List Top) (ws : List Work) (bs : List Bounding) →
        AreValues maker.old (map outcome_of ws) bs values.now →
        Turns maker.old maker.new s top
        (call_work s top (place_of place) head.entry ws) (call_bounds s top head.entry bs) result }
    ensures sorts { maker.new.made.sorts ≡ maker.old.made.sorts }
{
    match head {
        Head::Operator(operator) => back(maker.operate(alloc, place, operator, values)),
        Head::Function(visible, parameters, body) => {
            let bound = bound_locals(alloc, parameters, values)?;
            let none = Locals::new(alloc);
            let locals = none.behind(alloc, bound)?;
            let scope = Scope::new(alloc, visible, locals)?;
            Ok(Next::Enter(scope, body))
        }
        _ => ill_formed(place),
    }
}

/// A call goes on with its next argument, or behind the last.
pub(crate) fn call_on<'p, 'a>(
    alloc: Global,
    sexps: &'a Sexps,
    maker: &mut Maker,
    mut call: Call<'p, 'a>,
) -> Result<Next<'p, 'a>, Stop>
    requires { AreKnown maker.old call.values.items }
    ensures walks { (top : List Top) (w : Work) (b : Bounding) →
        Calls maker.old sexps.now top call.entry w b →
        Turns maker.old maker.new sexps.now top w b result }
    ensures sorts { maker.new.made.sorts ≡ maker.old.made.sorts }
{
    let at = call.next;
    match behind(sexps, at) {
        Some(after) => {
            let scope = call.scope.again()?;
            call.next = after;
            Ok(Next::Wait(Frame::Call(call), scope, at))
        }
        None => called(alloc, maker, call.place, call.head, call.values.as_slice()),
    }
}

/// A `let` goes on with its next binding, or with its body.
pub(crate) fn let_on<'p, 'a>(
    alloc: Global,
    sexps: &'a Sexps,
    mut bindings: Let<'a>,
) -> Result<Next<'p, 'a>, Stop>
    ensures { (m : Making) (top : List Top) (w : Work) (b : Bounding) →
        Lets m sexps.now top bindings.entry w b → Turns m m sexps.now top w b result }
{
    match binding(sexps, bindings.next) {
        Some((_, name, at, after)) => {
            let scope = bindings.scope.again()?;
            bindings.next = after;
            Ok(Next::Wait(Frame::Let(bindings, name), scope, at))
        }
        None => {
            let Let {
                scope,
                bound,
                body,
                ..
            } = bindings;
            let locals = scope.locals.behind(alloc, bound)?;
            let inner = Scope::new(alloc, scope.visible, locals)?;
            Ok(Next::Enter(inner, body))
        }
    }
}

/// What waits goes on with a value.
pub(crate) fn resume<'p, 'a>(
    alloc: Global,
    sexps: &'a Sexps,
    maker: &mut Maker,
    frame: Frame<'p, 'a>,
    value: Value,
) -> Result<Next<'p, 'a>, Stop>
    requires known { IsKnown maker.old value }
    requires others { KnowsValues maker.old frame }
    ensures walks { (top : List Top) (u : Unfolded) (d : Bounding) (w : Work) (b : Bounding) →
        Waits maker.old sexps.now top frame.entry u d w b → IsValue maker.old u d value →
        Turns maker.old maker.new sexps.now top w b result }
    ensures sorts { maker.new.made.sorts ≡ maker.old.made.sorts }
{
    match frame {
        Frame::Call(mut call) => {
            call.values.push(value)?;
            call_on(alloc, sexps, maker, call)
        }
        Frame::Let(mut bindings, name) => {
            bindings.bound.push(Local { name, value })?;
            let_on(alloc, sexps, bindings)
        }
    }
}
