// The lines of lemmas.
ghost use Rattle.std.specs.Prelude.{◌≡◌, IfOk, length};
ghost use Rattle.cert_read.specs.CertLine.{lemma as LemmaLine, tree_word as TreeWord};
ghost use Rattle.cert_read.specs.Views.{bool_word_of, line_of};
ghost use Rattle.cert_model.specs.Due.{bool_domain_of, extra_after, faulty};
ghost use Rattle.poly_graph.specs.ProblemViews.{declared_of, Parts};
ghost use Rattle.ival.specs.SpaceViews.{space_of, truths_of};
ghost use Rattle.cert_check.specs.declared.due.Due.TheVariants.{Next as NextDue, Axis as AxisDue, No as NoDue};
ghost use Rattle.cert_check.specs.States.{Fits, lemma_of};
ghost use Rattle.cert_check.specs.Faults.{IsLineRefusal};
ghost use Rattle.cert_check.specs.Axis.{IsAxis};
ghost use Rattle.cert_check.specs.Dues.{AllFit, begun_lemma, IsNext, IsNextOf, IsOutcome, IsSound, yes_of};

use crate::due::{Cover, Due, Tree};
use crate::lists::{is_list, marks};
use crate::pending::Pending;
use crate::refusal::Refusal;
use crate::said::{TreeLine, said};
use crate::standing::Lemma;
use crate::state::State;
use cert_read::{BoolSet, Line};
use ival::{Domain, Range, Space, Truths};
use poly_graph::{Declared, Lits, Problem};
use std::alloc::{AllocError, Global};

// The first axis of the next lemma.
fn first_axis(alloc: Global, problem: &Problem, cover: Cover, number: u32) -> Result<Due, Refusal>
    requires { IsSound problem.now (NextDue cover) }
    ensures comes { IsNext problem.now (NextDue cover) (LemmaLine number) result }
    ensures sound { IfOk result (IsSound problem.now) }
{
    if cover.lemmas.len() >= cover.count as usize {
        return Err(Refusal::Missing);
    }
    if number as usize != cover.lemmas.len() {
        return Err(Refusal::BadNumber);
    }
    let space = Space::with_capacity(alloc, problem.axes().len())?;
    Ok(Due::Axis(cover, space))
}

// The main tree, after all lemmas.
fn main_tree(_problem: &Problem, cover: Cover) -> Result<Due, Refusal>
    requires { IsSound _problem.now (NextDue cover) }
    ensures comes { IsNext _problem.now (NextDue cover) TreeWord result }
    ensures sound { IfOk result (IsSound _problem.now) }
{
    if cover.lemmas.len() == cover.count as usize {
        Ok(Due::Root(cover))
    } else {
        Err(Refusal::Missing)
    }
}

// A line of a tree after the trees that are complete.
fn after_trees(cover: &Cover) -> Refusal
    ensures { IsLineRefusal result (faulty (extra_after cover.now.lemmas)) }
{
    if cover.lemmas.is_empty() {
        Refusal::Missing
    } else {
        Refusal::Extra
    }
}

/// `lemma`, with its number, or `tree`.
pub fn next_line(
    alloc: Global,
    problem: &Problem,
    cover: Cover,
    line: &Line,
) -> Result<Due, Refusal>
    requires { IsSound problem.now (NextDue cover) }
    ensures comes { IsNext problem.now (NextDue cover) (line_of line.now) result }
    ensures sound { IfOk result (IsSound problem.now) }
{
    match said(line) {
        TreeLine::Lemma(number) => first_axis(alloc, problem, cover, number),
        TreeLine::Tree => main_tree(problem, cover),
        TreeLine::Crossing(_) => Err(after_trees(&cover)),
        TreeLine::Rule(_) => Err(after_trees(&cover)),
        TreeLine::Over => Err(after_trees(&cover)),
        TreeLine::End => Err(Refusal::Missing),
        TreeLine::Other => Err(Refusal::Missing),
    }
}

// The truth values of a line.
fn truths(values: BoolSet) -> Truths
    ensures { truths_of result ≡ bool_domain_of (bool_word_of values) }
{
    match values {
        BoolSet::False => Truths::False,
        BoolSet::True => Truths::True,
        BoolSet::Both => Truths::Either,
    }
}

// The domain of a lemma's axis.
fn domain(declared: Declared, line: &Line) -> Result<Domain, Refusal>
    ensures { IsAxis (declared_of declared) (line_of line.now) result }
{
    match declared {
        Declared::Real(_, _) => match line {
            Line::RealInterval(low, high) => match Range::between(*low, *high) {
                Some(range) => Ok(Domain::Real(range)),
                None => Err(Refusal::BadNumber),
            },
            _ => Err(Refusal::Missing),
        },
        Declared::Bool => match line {
            Line::Bool(values) => Ok(Domain::Bool(truths(*values))),
            _ => Err(Refusal::Missing),
        },
    }
}

// The atoms of a lemma's state that are marked yes.
fn yes_line(
    alloc: Global,
    problem: &Problem,
    cover: Cover,
    space: Space,
    line: &Line,
) -> Result<Due, Refusal>
    requires sound { IsSound problem.now (AxisDue cover space) }
    requires whole { length (space_of space) ≡ length problem.now.axes }
    ensures comes { IsNextOf problem.now (yes_of cover space) (line_of line.now) result }
    ensures sound { IfOk result (IsSound problem.now) }
{
    match line {
        Line::Yes(js) => {
            if !is_list(problem.atoms().len(), js) {
                return Err(Refusal::BadNumber);
            }
            let yes = Vec::from_slice(alloc, js)?;
            Ok(Due::No(cover, space, yes))
        }
        _ => Err(Refusal::Missing),
    }
}

/// The domain of a lemma's next axis, or `yes`.
pub fn axis_line(
    alloc: Global,
    problem: &Problem,
    cover: Cover,
    space: Space,
    line: &Line,
) -> Result<Due, Refusal>
    requires { IsSound problem.now (AxisDue cover space) }
    ensures comes { IsNext problem.now (AxisDue cover space) (line_of line.now) result }
    ensures sound { IfOk result (IsSound problem.now) }
{
    let axes = problem.axes();
    let axis = space.len();
    if axis >= axes.len() {
        return yes_line(alloc, problem, cover, space, line);
    }
    match domain(axes[axis].declared, line) {
        Err(refusal) => Err(refusal),
        Ok(domain) => {
            let mut space = space;
            space.push(domain);
            Ok(Due::Axis(cover, space))
        }
    }
}

// The first line of the tree of a lemma with this state.
fn lemma_tree(alloc: Global, cover: Cover, lemma: Lemma, lits: Lits) -> Result<Due, Refusal>
    requires { lits ≡ (lemma_of lemma).marks }
    ensures comes { (p : Parts) → IsOutcome p result (begun_lemma cover lemma) }
    ensures sound { (p : Parts) → AllFit p cover.lemmas → Fits p (lemma_of lemma) →
        IfOk result (IsSound p) }
{
    let space = lemma.space.try_clone(alloc)?;
    let state = State { space, lits };
    let pending = Pending::Empty;
    Ok(Due::Lemma(cover, lemma, Tree { state, pending }))
}

/// The atoms of a lemma's state that are marked no.
pub fn no_line(
    alloc: Global,
    problem: &Problem,
    cover: Cover,
    space: Space,
    yes: Vec<u32>,
    line: &Line,
) -> Result<Due, Refusal>
    requires { IsSound problem.now (NoDue cover space yes) }
    ensures comes { IsNext problem.now (NoDue cover space yes) (line_of line.now) result }
    ensures sound { IfOk result (IsSound problem.now) }
{
    match line {
        Line::No(js) => {
            let atoms = problem.atoms().len();
            if !is_list(atoms, js) {
                return Err(Refusal::BadNumber);
            }
            match marks(alloc, atoms, &yes, js)? {
                None => Err(Refusal::BadNumber),
                Some(lits) => {
                    let no = Vec::from_slice(alloc, js)?;
                    let lemma = Lemma {
                        space,
                        atoms,
                        yes,
                        no,
                    };
                    lemma_tree(alloc, cover, lemma, lits)
                }
            }
        }
        _ => Err(Refusal::Missing),
    }
}
