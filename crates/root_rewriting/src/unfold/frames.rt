// What waits while a part of an expression is walked over, and how it goes on with the part's tree.
ghost use Rattle.std.specs.Prelude.{◌≡◌, ◌<◌, IfOk, List, Some, length, slice_get};
ghost use Rattle.script_roots.specs.Tree as model;
ghost use Rattle.script_roots.specs.Tree.{Tree, sqrt_tree};
ghost use Rattle.smt_sexp.specs.declared.sexps.Sexps as arena;
ghost use Rattle.root_rewriting.specs.declared.unfold.top.Top.{Top};
ghost use Rattle.smt_sexp.specs.Views.{place_of};
ghost use Rattle.root_rewriting.specs.Ahead.{GoesOn, call_ahead, frame_ahead, head_body, let_ahead, local_bodies};
ghost use Rattle.root_rewriting.specs.Nodes.{AreBelow, parts_at, trees_in};
ghost use Rattle.root_rewriting.specs.Walking.{AreTrees, Calls, IsScope, KnowsNodes, Lets, Makes, Turns, Waits, call_tree, returned};

use crate::unfold::locals::{Level, Local, Locals, bound_locals};
use crate::unfold::names::Head;
use crate::unfold::operate::operate;
use crate::unfold::top::TopTable;
use crate::unfold::trees::Trees;
use script_fault::{Name, Place};
use smt_sexp::Sexps;
use sort_check::{behind, binding};
use std::alloc::{AllocError, Global};
use std::rc::Rc;

/// Where expressions are read: a script's expressions, and the names of the top before a command.
#[derive(Clone, Copy)]
pub(crate) struct Source<'t, 'p, 'a> {
    pub(crate) alloc: Global,
    pub(crate) sexps: &'a Sexps,
    pub(crate) top: &'t TopTable<'p, 'a>,
}

/// The names that are seen: so many of the top, and before them those that `let` and parameters bind.
#[derive(Drop)]
pub(crate) struct Scope<'a> {
    pub(crate) visible: usize,
    pub(crate) locals: Rc<Locals<'a>>,
}

impl<'a> Scope<'a> {
    /// So many names of the top, and these before them.
    pub(crate) fn new(alloc: Global, visible: usize, locals: Locals<'a>) -> Result<Self, AllocError>
        ensures { IfOk result (λ scope. IsScope scope visible locals.entry) }
    {
        let locals = Rc::new(alloc, locals)?;
        Ok(Scope { visible, locals })
    }

    /// The same names once more.
    pub(crate) fn again(&self) -> Result<Self, AllocError>
        ensures { IfOk result (λ scope.
            IsScope scope self.now.visible self.now.locals.value) }
    {
        let locals = self.locals.clone()?;
        Ok(Scope {
            visible: self.visible,
            locals,
        })
    }
}

/// A call, whose first arguments have trees.
#[derive(Drop)]
pub(crate) struct Call<'p, 'a> {
    pub(crate) place: Place,
    pub(crate) name: &'a Name,
    pub(crate) head: Head<'p, 'a>,
    /// Where its arguments are read.
    pub(crate) scope: Scope<'a>,
    pub(crate) parts: Vec<usize>,
    /// The place of the next argument.
    pub(crate) next: usize,
}

/// A `let`, whose first names are bound.
#[derive(Drop)]
pub(crate) struct Let<'a> {
    /// Where its bindings are read.
    pub(crate) scope: Scope<'a>,
    pub(crate) bound: Level<'a>,
    /// The place of the next binding.
    pub(crate) next: usize,
    pub(crate) body: usize,
}

/// What waits for a tree: a call for that of an argument, a `let` for that of this name.
#[derive(Drop)]
pub(crate) enum Frame<'p, 'a> {
    Call(Call<'p, 'a>),
    Let(Let<'a>, &'a Name),
}

/// What is done next.
#[derive(Drop)]
pub(crate) enum Next<'p, 'a> {
    /// A tree goes back to what waits for it.
    Back(usize),
    /// The expression at a place is entered.
    Enter(Scope<'a>, usize),
    /// The expression at a place is entered, and this waits for its tree.
    Wait(Frame<'p, 'a>, Scope<'a>, usize),
}

/// A tree that is made goes back.
pub(crate) fn back<'p, 'a>(made: Result<usize, AllocError>) -> Result<Next<'p, 'a>, AllocError>
    ensures { result ≡ returned made }
{
    match made {
        Ok(at) => Ok(Next::Back(at)),
        Err(error) => Err(error),
    }
}

/// What has no form goes back.
pub(crate) fn formless<'p, 'a>(
    trees: &mut Trees<'a>,
    place: Place,
) -> Result<Next<'p, 'a>, AllocError>
    ensures walks { (s : arena.Sexps) (top : List Top) → Turns (trees_in trees.old)
        (trees_in trees.new) s top (model.formless (place_of place)) result }
    ensures counts { (s : arena.Sexps) (top : List Top) → GoesOn s top 0 result }
{
    back(trees.formless(place))
}

// A square root of the only argument.
fn rooted<'a>(trees: &mut Trees<'a>, place: Place, parts: &[usize]) -> Result<usize, AllocError>
    requires { AreBelow (length trees.old) parts.now }
    ensures { Makes (trees_in trees.old) (trees_in trees.new)
        (sqrt_tree (place_of place) (parts_at (trees_in trees.old) parts.now)) result }
{
    match parts {
        [] => trees.formless(place),
        [part] => trees.root(place, *part),
        [_, _, ..] => trees.formless(place),
    }
}

// A call goes on with the trees of all its arguments.
fn called<'p, 'a>(
    source: &Source<'_, 'p, 'a>,
    trees: &mut Trees<'a>,
    call: Call<'p, 'a>,
) -> Result<Next<'p, 'a>, AllocError>
    requires { AreBelow (length trees.old) call.parts.items }
    ensures walks { (ts : List Tree) → AreTrees (trees_in trees.old) ts call.entry.parts.items →
        Turns (trees_in trees.old) (trees_in trees.new) source.now.sexps.now source.now.top.now
        (call_tree source.now.sexps.now source.now.top.now call.entry ts) result }
    ensures counts { GoesOn source.now.sexps.now source.now.top.now
        (head_body source.now.sexps.now source.now.top.now call.entry.head
        (length call.entry.parts.items)) result }
{
    let alloc = source.alloc;
    match call.head {
        Head::Operator(operator) => back(operate(
            alloc, trees, call.place, call.name, operator, call.parts,
        )),
        Head::Sqrt => back(rooted(trees, call.place, call.parts.as_slice())),
        Head::Function(visible, parameters, body) => {
            let bound = bound_locals(alloc, parameters, call.parts.as_slice())?;
            let none = Locals::new(alloc);
            let locals = none.behind(alloc, bound)?;
            let scope = Scope::new(alloc, visible, locals)?;
            Ok(Next::Enter(scope, body))
        }
        Head::Local(_) => formless(trees, call.place),
        Head::Constant(_, _) => formless(trees, call.place),
    }
}

/// A call goes on with its next argument, or behind the last.
pub(crate) fn call_on<'p, 'a>(
    source: &Source<'_, 'p, 'a>,
    trees: &mut Trees<'a>,
    mut call: Call<'p, 'a>,
) -> Result<Next<'p, 'a>, AllocError>
    requires { AreBelow (length trees.old) call.parts.items }
    ensures walks { (t : Tree) →
        Calls (trees_in trees.old) source.now.sexps.now source.now.top.now call.entry t →
        Turns (trees_in trees.old) (trees_in trees.new)
        source.now.sexps.now source.now.top.now t result }
    ensures counts { GoesOn source.now.sexps.now source.now.top.now
        (call_ahead source.now.sexps.now source.now.top.now call.entry
        (length call.entry.parts.items)) result }
{
    let at = call.next;
    match behind(source.sexps, at) {
        Some(after) => {
            let scope = call.scope.again()?;
            call.next = after;
            Ok(Next::Wait(Frame::Call(call), scope, at))
        }
        None => called(source, trees, call),
    }
}

/// A `let` goes on with its next binding, or with its body.
pub(crate) fn let_on<'p, 'a>(
    source: &Source<'_, 'p, 'a>,
    mut bindings: Let<'a>,
) -> Result<Next<'p, 'a>, AllocError>
    ensures walks { (m : List Tree) (t : Tree) →
        Lets m source.now.sexps.now source.now.top.now bindings.entry t →
        Turns m m source.now.sexps.now source.now.top.now t result }
    ensures counts { GoesOn source.now.sexps.now source.now.top.now
        (let_ahead source.now.sexps.now source.now.top.now bindings.entry
        (local_bodies bindings.entry.bound)) result }
{
    match binding(source.sexps, bindings.next) {
        Some((_, name, at, after)) => {
            let scope = bindings.scope.again()?;
            bindings.next = after;
            Ok(Next::Wait(Frame::Let(bindings, name), scope, at))
        }
        None => {
            let Let {
                scope,
                bound,
                body,
                ..
            } = bindings;
            let locals = scope.locals.behind(source.alloc, bound)?;
            let inner = Scope::new(source.alloc, scope.visible, locals)?;
            Ok(Next::Enter(inner, body))
        }
    }
}

/// What waits goes on with a tree.
pub(crate) fn resume<'p, 'a>(
    source: &Source<'_, 'p, 'a>,
    trees: &mut Trees<'a>,
    frame: Frame<'p, 'a>,
    node: usize,
) -> Result<Next<'p, 'a>, AllocError>
    requires there { node < length trees.old }
    requires others { KnowsNodes trees.old frame }
    ensures walks { (u t : Tree) →
        Waits (trees_in trees.old) source.now.sexps.now source.now.top.now frame.entry u t →
        slice_get (trees_in trees.old) node ≡ Some u →
        Turns (trees_in trees.old) (trees_in trees.new)
        source.now.sexps.now source.now.top.now t result }
    ensures counts { GoesOn source.now.sexps.now source.now.top.now
        (frame_ahead source.now.sexps.now source.now.top.now frame.entry) result }
{
    match frame {
        Frame::Call(mut call) => {
            call.parts.push(node)?;
            call_on(source, trees, call)
        }
        Frame::Let(mut bindings, name) => {
            bindings.bound.push(Local { name, node })?;
            let_on(source, bindings)
        }
    }
}
