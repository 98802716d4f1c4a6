// Where the lines of a certificate belong.
ghost use Rattle.std.specs.Prelude.{◌≡◌, cond, IfOk, Some};
ghost use Rattle.ival.specs.SpaceViews.{space_of};
ghost use Rattle.cover_model.specs.State.{state_of};
ghost use Rattle.cover_line.specs.Views.{line_of as rule_of};
ghost use Rattle.poly_graph.specs.ProblemViews.{problem_of};
ghost use Rattle.cert_read.specs.Views.{line_of};
ghost use Rattle.cert_model.specs.Due.{is_crossed_box};
ghost use Rattle.cert_resumed.specs.Resumed.{is_leaving};
ghost use Rattle.cert_check.specs.Stands.{stand_of};
ghost use Rattle.cert_base.specs.Gathered.{if_leaving, in_lemmas, is_of_lemma, nowhere, place, state_at_root};
ghost use Rattle.cert_base.specs.Views.{place_of};

use cert_check::Stand;
use cert_read::Line;
use cover_data::State;
use cover_line::Rule;
use form_truth::{Root, root_space};
use ival::Space;
use poly_graph::{Lits, Problem};
use std::alloc::{AllocError, Global};

/// Where a line belongs.
#[derive(Drop)]
pub enum Place {
    /// It is kept nowhere.
    Nowhere,
    /// Among the lines of the lemmas.
    Lemmas,
    /// In the main tree, with the state that it leaves open or stuck, if it does.
    Tree(Option<State>),
}

// Whether a line outside the main tree is one of a lemma.
fn is_of_lemma(line: &Line) -> bool
    ensures { result ≡ is_of_lemma (line_of line.now) }
{
    match line {
        Line::Lemma(_) => true,
        Line::RealInterval(_, _) => true,
        Line::Bool(_) => true,
        Line::Yes(_) => true,
        Line::No(_) => true,
        Line::Rule(_) => true,
        _ => false,
    }
}

// Whether the rule leaves its state open or stuck.
fn is_leaving(rule: &Rule) -> bool
    ensures { result ≡ is_leaving (rule_of rule.now) }
{
    match rule {
        Rule::Stay(_) => true,
        _ => false,
    }
}

// The state at the root; none where the declared box is empty.
fn state_at_root(alloc: Global, problem: &Problem) -> Result<Option<State>, AllocError>
    ensures { IfOk result (λ o. o
        ≡ state_at_root (is_crossed_box (problem_of problem.now)) (problem_of problem.now)) }
{
    match root_space(alloc, problem)? {
        Root::Empty(_) => Ok(None),
        Root::Space(space) => {
            let lits = Lits::new(alloc, problem.atoms().len())?;
            Ok(Some(State::new(space, lits)))
        }
    }
}

// The state with this box and these marks, in memory of its own.
fn copied(alloc: Global, space: &Space, lits: &Lits) -> Result<State, AllocError>
    ensures { IfOk result (λ s. s ≡ state_of (space_of space.now) lits.now) }
{
    let space = space.try_clone(alloc)?;
    let lits = lits.try_clone(alloc)?;
    Ok(State::new(space, lits))
}

// The state at the root, if the rule leaves it.
fn left_at_root(alloc: Global, problem: &Problem, rule: &Rule) -> Result<Option<State>, AllocError>
    ensures { let p = problem_of problem.now in IfOk result (λ o. o
        ≡ if_leaving (rule_of rule.now) (state_at_root (is_crossed_box p) p)) }
{
    if is_leaving(rule) {
        state_at_root(alloc, problem)
    } else {
        Ok(None)
    }
}

// The state with this box and these marks, if the rule leaves it.
fn left_at(
    alloc: Global,
    space: &Space,
    lits: &Lits,
    rule: &Rule,
) -> Result<Option<State>, AllocError>
    ensures { IfOk result (λ o. o
        ≡ if_leaving (rule_of rule.now) (Some (state_of (space_of space.now) lits.now))) }
{
    if is_leaving(rule) {
        Ok(Some(copied(alloc, space, lits)?))
    } else {
        Ok(None)
    }
}

// Where a line belongs outside the main tree.
fn place_outside(line: &Line) -> Place
    ensures { place_of result ≡ cond (is_of_lemma (line_of line.now)) in_lemmas nowhere }
{
    if is_of_lemma(line) {
        Place::Lemmas
    } else {
        Place::Nowhere
    }
}

/// Where a line belongs that stands here.
pub fn place_of(
    alloc: Global,
    problem: &Problem,
    stand: Stand<'_>,
    line: &Line,
) -> Result<Place, AllocError>
    ensures { IfOk result (λ x. place_of x
        ≡ place (problem_of problem.now) (stand_of stand.entry) (line_of line.now)) }
{
    match stand {
        Stand::Elsewhere => Ok(place_outside(line)),
        Stand::Root => match line {
            Line::Rule(rule) => Ok(Place::Tree(left_at_root(alloc, problem, rule)?)),
            _ => Ok(Place::Nowhere),
        },
        Stand::At(space, lits) => match line {
            Line::Rule(rule) => Ok(Place::Tree(left_at(alloc, space, lits, rule)?)),
            _ => Ok(Place::Nowhere),
        },
    }
}
