// What is done where an expression is entered, by its form.
ghost use Rattle.std.specs.Prelude.{◌≡◌, List};
ghost use Rattle.script_model.specs.Sexp as sexp;
ghost use Rattle.script_model.specs.Reading.{application, found, group_meaning, literal_value, meaning, meanings, name_meaning, operators};
ghost use Rattle.script_model.specs.Declared.{bounding};
ghost use Rattle.script_forms.specs.Work.{as_work};
ghost use Rattle.smt_sexp.specs.Arena.{expression_at, rest_of};
ghost use Rattle.smt_sexp.specs.Views.{place_of};
ghost use Rattle.smt_sexp.specs.declared.sexps.Sexps as arena;
ghost use Rattle.problem_build.specs.Names.{TopFits};
ghost use Rattle.problem_build.specs.LetParts.{as_let, let_of};
ghost use Rattle.problem_build.specs.Walking.{Reaches, ReachesMeaning};
ghost use Rattle.problem_build.specs.declared.top.Top.{Top};

use crate::frames::{Call, Let, Next, Scope, back, call_on, ill_formed, let_on};
use crate::lets::let_parts;
use crate::locals::{Level, Locals};
use crate::names::{Head, head_of};
use crate::top::TopTable;
use script_fault::{Name, Place};
use smt_sexp::{Leaf, Reserved, Seen, Sexps};
use sort_check::ends;
use std::alloc::Global;
use term_build::Stop;
use value_build::Maker;

// A literal, whose digits stand before its point and behind it.
fn literal<'p, 'a>(maker: &mut Maker, digits: &[u8], decimals: &[u8]) -> Result<Next<'p, 'a>, Stop>
    ensures walks { (s : arena.Sexps) (top : List Top) (at : sexp.Place) →
        let q = literal_value digits.now decimals.now in
        Reaches maker.old maker.new s top (as_work.literal at q) (bounding.literal at q) result }
    ensures sorts { maker.new.made.sorts ≡ maker.old.made.sorts }
{
    maker.reach()?;
    back(maker.literal(digits, decimals))
}

/// The expression at a place is entered.
pub(crate) fn enter<'p, 'a>(
    alloc: Global,
    sexps: &'a Sexps,
    top: &TopTable<'p, 'a>,
    maker: &mut Maker,
    scope: Scope<'a>,
    at: usize,
) -> Result<Next<'p, 'a>, Stop>
    requires { TopFits maker.old.made.sorts top.now }
    ensures walks { ReachesMeaning maker.old maker.new sexps.now top.now scope.entry
        (λ V M names. meaning M names (expression_at sexps.now at)) result }
    ensures sorts { maker.new.made.sorts ≡ maker.old.made.sorts }
{
    match sexps.look(at) {
        Seen::End => ill_formed(Place { line: 0, column: 0 }),
        Seen::Leaf(place, Leaf::Symbol(name), _) => { alone(alloc, top, maker, scope, place, name) }
        Seen::Leaf(_, Leaf::Numeral(digits), _) => literal(maker, digits.as_slice(), &[]),
        Seen::Leaf(_, Leaf::Decimal(digits, decimals), _) => {
            literal(maker, digits.as_slice(), decimals.as_slice())
        }
        Seen::Leaf(place, _, _) => ill_formed(place),
        Seen::Group(place, inside, _) => group(alloc, sexps, top, maker, scope, place, inside),
    }
}

// A group, from its first place on.
fn group<'p, 'a>(
    alloc: Global,
    sexps: &'a Sexps,
    top: &TopTable<'p, 'a>,
    maker: &mut Maker,
    scope: Scope<'a>,
    place: Place,
    inside: usize,
) -> Result<Next<'p, 'a>, Stop>
    ensures walks { ReachesMeaning maker.old maker.new sexps.now top.now scope.entry
        (λ V M names. group_meaning M names (place_of place) (rest_of sexps.now inside)) result }
    ensures sorts { maker.new.made.sorts ≡ maker.old.made.sorts }
{
    match sexps.look(inside) {
        Seen::Leaf(_, Leaf::Symbol(name), args) => {
            applied(alloc, sexps, top, maker, scope, place, name, args)
        }
        Seen::Leaf(_, Leaf::Reserved(Reserved::Let), at) => {
            let_value(alloc, sexps, maker, scope, place, at)
        }
        Seen::Leaf(_, Leaf::Reserved(Reserved::Bang), at) => {
            if ends(sexps, at) {
                ill_formed(place)
            } else {
                annotated(maker, scope, at)
            }
        }
        _ => ill_formed(place),
    }
}

// An annotated expression.
fn annotated<'p, 'a>(maker: &mut Maker, scope: Scope<'a>, at: usize) -> Result<Next<'p, 'a>, Stop>
    ensures walks { (s : arena.Sexps) (top : List Top) (place : sexp.Place) →
        ReachesMeaning maker.old maker.new s top scope.entry
        (λ V M names. M.annotated place (meaning M names (expression_at s at))) result }
    ensures sorts { maker.new.made.sorts ≡ maker.old.made.sorts }
{
    maker.reach()?;
    Ok(Next::Enter(scope, at))
}

// A name at its arguments.
fn applied<'p, 'a>(
    alloc: Global,
    sexps: &'a Sexps,
    top: &TopTable<'p, 'a>,
    maker: &mut Maker,
    scope: Scope<'a>,
    place: Place,
    name: &'a Name,
    args: usize,
) -> Result<Next<'p, 'a>, Stop>
    ensures walks { ReachesMeaning maker.old maker.new sexps.now top.now scope.entry
        (λ V M names. application M names (place_of place) name.now (found name.now operators)
        (meanings M names (rest_of sexps.now args))) result }
    ensures sorts { maker.new.made.sorts ≡ maker.old.made.sorts }
{
    let Some(head) = head_of(top, scope.visible, &scope.locals, name) else {
        return ill_formed(place);
    };
    if ends(sexps, args) {
        return ill_formed(place);
    }
    maker.reach()?;
    let call = Call {
        place,
        head,
        scope,
        values: Vec::new(alloc),
        next: args,
    };
    call_on(alloc, sexps, maker, call)
}

// A `let`, from what stands behind its word.
fn let_value<'p, 'a>(
    alloc: Global,
    sexps: &'a Sexps,
    maker: &mut Maker,
    scope: Scope<'a>,
    place: Place,
    at: usize,
) -> Result<Next<'p, 'a>, Stop>
    ensures walks { (top : List Top) → ReachesMeaning maker.old maker.new sexps.now top scope.entry
        (λ V M names. let_of M names (place_of place) (as_let (rest_of sexps.now at))) result }
    ensures sorts { maker.new.made.sorts ≡ maker.old.made.sorts }
{
    let Some((inside, body)) = let_parts(sexps, at) else {
        return ill_formed(place);
    };
    maker.reach()?;
    let bindings = Let {
        scope,
        bound: Level::new(alloc),
        next: inside,
        body,
    };
    let_on(alloc, sexps, bindings)
}

// A name alone.
fn alone<'p, 'a>(
    alloc: Global,
    top: &TopTable<'p, 'a>,
    maker: &mut Maker,
    scope: Scope<'a>,
    place: Place,
    name: &'a Name,
) -> Result<Next<'p, 'a>, Stop>
    requires { TopFits maker.old.made.sorts top.now }
    ensures walks { (s : arena.Sexps) → ReachesMeaning maker.old maker.new s top.now scope.entry
        (λ V M names.
        name_meaning M names (place_of place) name.now (found name.now operators)) result }
    ensures sorts { maker.new.made.sorts ≡ maker.old.made.sorts }
{
    let Some(head) = head_of(top, scope.visible, &scope.locals, name) else {
        return ill_formed(place);
    };
    maker.reach()?;
    match head {
        Head::Operator(operator) => back(maker.operate(alloc, place, operator, &[])),
        Head::Local(value) => Ok(Next::Back(value)),
        Head::Constant(_, axis, _) => back(maker.constant(alloc, axis)),
        Head::Function(visible, _, body) => {
            let inner = Scope::new(alloc, visible, Locals::new(alloc))?;
            Ok(Next::Enter(inner, body))
        }
    }
}
