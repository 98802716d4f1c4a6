// What is done where an expression is entered, by its form.
ghost use Rattle.script_model.specs.Sexp as sexp;
ghost use Rattle.script_model.specs.Reading.{found, operators};
ghost use Rattle.script_roots.specs.Tree.{all_trees, application_tree, group_tree, leaf_tree, symbol_tree, tree_of};
ghost use Rattle.smt_sexp.specs.Arena.{expression_at, rest_of};
ghost use Rattle.smt_sexp.specs.Views.{leaf_of, place_of, reserved_of};
ghost use Rattle.root_rewriting.specs.Ahead.{Opens};
ghost use Rattle.root_rewriting.specs.LetParts.{as_let, let_of, let_parts_reached};
ghost use Rattle.root_rewriting.specs.Nodes.{trees_in};
ghost use Rattle.script_roots.specs.Reached.{all_reached, application_reached, group_reached, leaf_reached, reached_in, symbol_reached};
ghost use Rattle.root_rewriting.specs.Walking.{TurnsIn};

use crate::unfold::frames::{Call, Let, Next, Scope, Source, back, call_on, formless, let_on};
use crate::unfold::lets::let_parts;
use crate::unfold::locals::{Level, Locals};
use crate::unfold::names::{Head, head_of};
use crate::unfold::trees::{Atom, Trees};
use script_fault::{Name, Place};
use smt_sexp::{Leaf, Reserved, Seen};
use sort_check::ends;
use std::alloc::AllocError;

/// The expression at a place is entered.
pub(crate) fn enter<'p, 'a>(
    source: &Source<'_, 'p, 'a>,
    trees: &mut Trees<'a>,
    scope: Scope<'a>,
    at: usize,
) -> Result<Next<'p, 'a>, AllocError>
    ensures walks { TurnsIn (trees_in trees.old) (trees_in trees.new) source.now scope.entry
        (λ names. tree_of names (expression_at source.now.sexps.now at)) result }
    ensures counts { Opens source.now scope.entry
        (λ bodies. reached_in bodies (expression_at source.now.sexps.now at)) result }
{
    match source.sexps.look(at) {
        Seen::End => formless(trees, Place { line: 0, column: 0 }),
        Seen::Leaf(place, leaf, _) => enter_leaf(source, trees, scope, place, leaf),
        Seen::Group(place, inside, _) => enter_group(source, trees, scope, place, inside),
    }
}

// A leaf.
fn enter_leaf<'p, 'a>(
    source: &Source<'_, 'p, 'a>,
    trees: &mut Trees<'a>,
    scope: Scope<'a>,
    place: Place,
    leaf: &'a Leaf,
) -> Result<Next<'p, 'a>, AllocError>
    ensures walks { TurnsIn (trees_in trees.old) (trees_in trees.new) source.now scope.entry
        (λ names. leaf_tree names (place_of place) (leaf_of leaf.now)) result }
    ensures counts { Opens source.now scope.entry
        (λ bodies. leaf_reached bodies (leaf_of leaf.now)) result }
{
    match leaf {
        Leaf::Symbol(name) => alone(source, trees, scope, place, name),
        Leaf::Numeral(digits) => back(trees.atomic(place, Atom::Numeral(digits))),
        Leaf::Decimal(digits, decimals) => {
            back(trees.atomic(place, Atom::Decimal(digits, decimals)))
        }
        Leaf::Reserved(_) => formless(trees, place),
        Leaf::String(_) => formless(trees, place),
        Leaf::Keyword(_) => formless(trees, place),
    }
}

// A group, from its first place on.
fn enter_group<'p, 'a>(
    source: &Source<'_, 'p, 'a>,
    trees: &mut Trees<'a>,
    scope: Scope<'a>,
    place: Place,
    inside: usize,
) -> Result<Next<'p, 'a>, AllocError>
    ensures walks { TurnsIn (trees_in trees.old) (trees_in trees.new) source.now scope.entry
        (λ names. group_tree names (place_of place) (rest_of source.now.sexps.now inside)) result }
    ensures counts { Opens source.now scope.entry
        (λ bodies. group_reached bodies (rest_of source.now.sexps.now inside)) result }
{
    match source.sexps.look(inside) {
        Seen::End => formless(trees, place),
        Seen::Leaf(_, leaf, after) => headed(source, trees, scope, place, leaf, after),
        Seen::Group(_, _, _) => formless(trees, place),
    }
}

// A group that begins with a leaf, from the place behind it on.
fn headed<'p, 'a>(
    source: &Source<'_, 'p, 'a>,
    trees: &mut Trees<'a>,
    scope: Scope<'a>,
    place: Place,
    leaf: &'a Leaf,
    after: usize,
) -> Result<Next<'p, 'a>, AllocError>
    ensures walks { (first : sexp.Place) →
        TurnsIn (trees_in trees.old) (trees_in trees.new) source.now scope.entry
        (λ names. group_tree names (place_of place) (sexp.more (sexp.leaf first (leaf_of leaf.now))
        (rest_of source.now.sexps.now after))) result }
    ensures counts { (first : sexp.Place) → Opens source.now scope.entry
        (λ bodies. group_reached bodies (sexp.more (sexp.leaf first (leaf_of leaf.now))
        (rest_of source.now.sexps.now after))) result }
{
    match leaf {
        Leaf::Symbol(name) => applied(source, trees, scope, place, name, after),
        Leaf::Reserved(word) => with_word(source, trees, scope, place, *word, after),
        Leaf::Numeral(_) => formless(trees, place),
        Leaf::Decimal(_, _) => formless(trees, place),
        Leaf::String(_) => formless(trees, place),
        Leaf::Keyword(_) => formless(trees, place),
    }
}

// A group that begins with a reserved word, from the place behind it on.
fn with_word<'p, 'a>(
    source: &Source<'_, 'p, 'a>,
    trees: &mut Trees<'a>,
    scope: Scope<'a>,
    place: Place,
    word: Reserved,
    after: usize,
) -> Result<Next<'p, 'a>, AllocError>
    ensures walks { (first : sexp.Place) →
        TurnsIn (trees_in trees.old) (trees_in trees.new) source.now scope.entry
        (λ names. group_tree names (place_of place) (sexp.more (sexp.leaf first
        (sexp.reserved (reserved_of word))) (rest_of source.now.sexps.now after))) result }
    ensures counts { (first : sexp.Place) → Opens source.now scope.entry
        (λ bodies. group_reached bodies (sexp.more (sexp.leaf first
        (sexp.reserved (reserved_of word))) (rest_of source.now.sexps.now after))) result }
{
    match word {
        Reserved::Let => let_value(source, trees, scope, place, after),
        Reserved::Bang => {
            if ends(source.sexps, after) {
                formless(trees, place)
            } else {
                Ok(Next::Enter(scope, after))
            }
        }
        _ => formless(trees, place),
    }
}

// A name at its arguments.
fn applied<'p, 'a>(
    source: &Source<'_, 'p, 'a>,
    trees: &mut Trees<'a>,
    scope: Scope<'a>,
    place: Place,
    name: &'a Name,
    args: usize,
) -> Result<Next<'p, 'a>, AllocError>
    ensures walks { TurnsIn (trees_in trees.old) (trees_in trees.new) source.now scope.entry
        (λ names. application_tree names (place_of place) name.now (found name.now operators)
        (all_trees names (rest_of source.now.sexps.now args))) result }
    ensures counts { Opens source.now scope.entry
        (λ bodies. application_reached bodies name.now (found name.now operators)
        (all_reached bodies (rest_of source.now.sexps.now args))) result }
{
    let Some(head) = head_of(source.top, scope.visible, &scope.locals, name) else {
        return formless(trees, place);
    };
    if ends(source.sexps, args) {
        return formless(trees, place);
    }
    let call = Call {
        place,
        name,
        head,
        scope,
        parts: Vec::new(source.alloc),
        next: args,
    };
    call_on(source, trees, call)
}

// A `let`, from what stands behind its word.
fn let_value<'p, 'a>(
    source: &Source<'_, 'p, 'a>,
    trees: &mut Trees<'a>,
    scope: Scope<'a>,
    place: Place,
    at: usize,
) -> Result<Next<'p, 'a>, AllocError>
    ensures walks { TurnsIn (trees_in trees.old) (trees_in trees.new) source.now scope.entry
        (λ names. let_of names (place_of place)
        (as_let (rest_of source.now.sexps.now at))) result }
    ensures counts { Opens source.now scope.entry
        (λ bodies. let_parts_reached bodies (as_let (rest_of source.now.sexps.now at))) result }
{
    let Some((inside, body)) = let_parts(source.sexps, at) else {
        return formless(trees, place);
    };
    let bindings = Let {
        scope,
        bound: Level::new(source.alloc),
        next: inside,
        body,
    };
    let_on(source, bindings)
}

// A name alone.
fn alone<'p, 'a>(
    source: &Source<'_, 'p, 'a>,
    trees: &mut Trees<'a>,
    scope: Scope<'a>,
    place: Place,
    name: &'a Name,
) -> Result<Next<'p, 'a>, AllocError>
    ensures walks { TurnsIn (trees_in trees.old) (trees_in trees.new) source.now scope.entry
        (λ names. symbol_tree names (place_of place) name.now (found name.now operators)) result }
    ensures counts { Opens source.now scope.entry
        (λ bodies. symbol_reached bodies name.now (found name.now operators)) result }
{
    let Some(head) = head_of(source.top, scope.visible, &scope.locals, name) else {
        return formless(trees, place);
    };
    match head {
        Head::Operator(_) => back(trees.atomic(place, Atom::Symbol(name))),
        Head::Local(node) => Ok(Next::Back(node)),
        Head::Constant(declared, constant) => back(trees.atomic(declared, Atom::Symbol(constant))),
        Head::Function(visible, _, body) => {
            let inner = Scope::new(source.alloc, visible, Locals::new(source.alloc))?;
            Ok(Next::Enter(inner, body))
        }
        Head::Sqrt => formless(trees, place),
    }
}
