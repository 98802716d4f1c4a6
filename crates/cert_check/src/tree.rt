// The lines of trees.
ghost use Rattle.std.specs.Prelude.{◌≡◌, ◌<◌, ◌-◌, ◌^◌, ◌++◌, All, IfOk, IsTrue, Some};
ghost use Rattle.cover_line.specs.Views.{line_of as rule_of, rule_word};
ghost use Rattle.cert_read.specs.CertLine.{rule_line};
ghost use Rattle.cert_read.specs.Views.{line_of};
ghost use Rattle.cert_model.specs.Due.{CertFault as Fault, names_well, Standing, RuleFails};
ghost use Rattle.poly_graph.specs.ProblemViews.{Parts, problem_of};
ghost use Rattle.cert_check.specs.declared.due.Due.TheVariants.{End as EndDue, Lemma as LemmaDue, Root as RootDue, Tree as TreeDue};
ghost use Rattle.cert_check.specs.States.{IsLike, lemma_of};
ghost use Rattle.cert_check.specs.Steps.{left_of};
ghost use Rattle.cert_check.specs.Within.{IsStepInTree};
ghost use Rattle.cert_check.specs.Serving.{Serves};
ghost use Rattle.cert_check.specs.Behind.{pending_of};
ghost use Rattle.cert_check.specs.Dues.{after_main_rule, after_rule_of_lemma, IsNext, IsNextAnywhere, IsOutcome, IsSound};
ghost use Rattle.cert_check.specs.Waiting.{counted_stays, is_stays, IsSoundBehind, IsSoundInLemma, left_states, waiting};

use crate::due::{Cover, Due, Tree, Value};
use crate::left::Left;
use crate::loosenings::Loosenings;
use crate::names::{crosses, names_well, no_crossing};
use crate::pending::{Pending, behind, wait};
use crate::refusal::Refusal;
use crate::rules::rule;
use crate::said::{TreeLine, said};
use crate::standing::Lemma;
use crate::state::State;
use crate::tools::Tools;
use cert_read::Line;
use cover_line::{Rule, Word};
use form_truth::{Root, root_space};
use poly_graph::{Lits, Problem};
use std::alloc::{AllocError, Global};

// The tree whose next state is the first of these; none where there is no state.
fn next_state(alloc: Global, pending: Pending) -> Result<Option<Tree>, AllocError>
    ensures { IfOk result (λ o. waiting o ≡ pending_of pending) }
{
    match pending {
        Pending::Empty => Ok(None),
        Pending::Next(state, below) => {
            let pending = behind(alloc, &state, below)?;
            Ok(Some(Tree { state, pending }))
        }
    }
}

// What is in work after a rule of which this is left; none where the tree is complete.
fn leave(alloc: Global, pending: Pending, left: Left) -> Result<Option<Tree>, AllocError>
    ensures { IfOk result (λ o.
        waiting o ≡ left_states (left_of left) ++ pending_of pending) }
{
    match left {
        Left::Closed => next_state(alloc, pending),
        Left::Stays => next_state(alloc, pending),
        Left::One(state) => Ok(Some(Tree { state, pending })),
        Left::Two(state, second) => {
            let pending = wait(alloc, pending, second)?;
            Ok(Some(Tree { state, pending }))
        }
    }
}

// The number of states that stayed, with this one where it does.
fn count_stays(stayed: u64, left: &Left) -> u64
    requires { stayed < 2 ^ 64 - 1 }
    ensures { result ≡ counted_stays stayed (left_of left.now) }
{
    match left {
        Left::Stays => stayed + 1,
        Left::Closed => stayed,
        Left::One(_) => stayed,
        Left::Two(_, _) => stayed,
    }
}

// Whether the state itself is left.
fn is_stays(left: &Left) -> bool
    ensures { result ≡ is_stays (left_of left.now) }
{
    match left {
        Left::Stays => true,
        Left::Closed => false,
        Left::One(_) => false,
        Left::Two(_, _) => false,
    }
}

// What is due in the main tree after a rule of which this is left.
#[tactic(auto, using(crate::proofs::Waits::main_done, crate::proofs::Waits::main_on))]
fn main_left(
    alloc: Global,
    cover: Cover,
    pending: Pending,
    stayed: u64,
    left: Left,
) -> Result<Due, Refusal>
    requires { stayed < 2 ^ 64 - 1 }
    ensures comes { (p : Parts) (f : Fault) (x : Standing) →
        IsOutcome p result (after_main_rule cover pending stayed (left_of left) f x) }
    ensures sound { IsSoundBehind cover.lemmas pending left result }
{
    let stayed = count_stays(stayed, &left);
    match leave(alloc, pending, left)? {
        None => Ok(Due::End(cover, stayed)),
        Some(tree) => Ok(Due::Tree(cover, tree, stayed)),
    }
}

// What is due in a lemma's tree after a rule of this word of which this is left.
#[tactic(auto, using(crate::proofs::Waits::lemma_done, crate::proofs::Waits::lemma_on, crate::proofs::Waits::lemma_stays, crate::proofs::Carried::one_fits_more))]
fn lemma_left(
    alloc: Global,
    cover: Cover,
    lemma: Lemma,
    pending: Pending,
    left: Left,
    word: Word,
) -> Result<Due, Refusal>
    requires { All (IsLike (lemma_of lemma)) cover.lemmas }
    ensures comes { (p : Parts) → IsOutcome p result (after_rule_of_lemma cover lemma
        pending (left_of left) (RuleFails (rule_word word))) }
    ensures sound { IsSoundInLemma cover.lemmas lemma pending left result }
{
    if is_stays(&left) {
        return Err(Refusal::RuleFails(word));
    }
    match leave(alloc, pending, left)? {
        None => {
            let mut cover = cover;
            cover.lemmas.push(lemma)?;
            Ok(Due::Next(cover))
        }
        Some(tree) => Ok(Due::Lemma(cover, lemma, tree)),
    }
}

// A line of the main tree with a rule.
fn main_rule(
    alloc: Global,
    problem: &Problem,
    tools: &mut Tools,
    cover: Cover,
    tree: Tree,
    stayed: u64,
    step: &Rule,
) -> Result<Due, Refusal>
    requires serves { Serves problem.now tools.old }
    requires sound { IsSound problem.now (TreeDue cover tree stayed) }
    requires room { stayed < 2 ^ 64 - 1 }
    requires names { IsTrue (names_well (problem_of problem.now) (rule_of step.now)) }
    ensures comes { IsNext problem.now (TreeDue cover tree stayed)
        (rule_line (rule_of step.now)) result }
    ensures sound { IfOk result (IsSound problem.now) }
    ensures serves { Serves problem.now tools.new }
{
    let Tree { state, pending } = tree;
    match rule(
        alloc,
        problem,
        tools,
        cover.loosenings,
        &cover.lemmas,
        state,
        step,
    )? {
        None => Err(Refusal::RuleFails(step.word())),
        Some(left) => main_left(alloc, cover, pending, stayed, left),
    }
}

// A line of a lemma's tree with a rule.
fn lemma_rule(
    alloc: Global,
    problem: &Problem,
    tools: &mut Tools,
    cover: Cover,
    lemma: Lemma,
    tree: Tree,
    step: &Rule,
) -> Result<Due, Refusal>
    requires serves { Serves problem.now tools.old }
    requires sound { IsSound problem.now (LemmaDue cover lemma tree) }
    requires names { IsTrue (names_well (problem_of problem.now) (rule_of step.now)) }
    ensures comes { IsNext problem.now (LemmaDue cover lemma tree)
        (rule_line (rule_of step.now)) result }
    ensures sound { IfOk result (IsSound problem.now) }
    ensures serves { Serves problem.now tools.new }
{
    let Tree { state, pending } = tree;
    match rule(
        alloc,
        problem,
        tools,
        cover.loosenings,
        &cover.lemmas,
        state,
        step,
    )? {
        None => Err(Refusal::RuleFails(step.word())),
        Some(left) => lemma_left(alloc, cover, lemma, pending, left, step.word()),
    }
}

// The rule of a line inside a tree, which names what is there; else the line's fault.
fn step_in_tree<'a>(problem: &Problem, line: &'a Line) -> Result<&'a Rule, Refusal>
    ensures { IsStepInTree problem.now (line_of line.now) result }
{
    match said(line) {
        TreeLine::Rule(step) => {
            if names_well(problem, step) {
                Ok(step)
            } else {
                Err(Refusal::BadNumber)
            }
        }
        TreeLine::Crossing(axis) => Err(no_crossing(problem, axis)),
        TreeLine::Over => Err(Refusal::OverFails),
        TreeLine::Lemma(_) => Err(Refusal::Missing),
        TreeLine::Tree => Err(Refusal::Missing),
        TreeLine::End => Err(Refusal::Missing),
        TreeLine::Other => Err(Refusal::Missing),
    }
}

/// A line of a lemma's tree.
pub fn lemma_line(
    alloc: Global,
    problem: &Problem,
    tools: &mut Tools,
    cover: Cover,
    lemma: Lemma,
    tree: Tree,
    line: &Line,
) -> Result<Due, Refusal>
    requires serves { Serves problem.now tools.old }
    requires sound { IsSound problem.now (LemmaDue cover lemma tree) }
    ensures comes { IsNext problem.now (LemmaDue cover lemma tree) (line_of line.now) result }
    ensures sound { IfOk result (IsSound problem.now) }
    ensures serves { Serves problem.now tools.new }
{
    match step_in_tree(problem, line) {
        Ok(step) => lemma_rule(alloc, problem, tools, cover, lemma, tree, step),
        Err(refusal) => Err(refusal),
    }
}

/// A line of the main tree after the first one.
pub fn tree_line(
    alloc: Global,
    problem: &Problem,
    tools: &mut Tools,
    cover: Cover,
    tree: Tree,
    stayed: u64,
    line: &Line,
) -> Result<Due, Refusal>
    requires serves { Serves problem.now tools.old }
    requires sound { IsSound problem.now (TreeDue cover tree stayed) }
    requires room { stayed < 2 ^ 64 - 1 }
    ensures comes { IsNext problem.now (TreeDue cover tree stayed) (line_of line.now) result }
    ensures sound { IfOk result (IsSound problem.now) }
    ensures serves { Serves problem.now tools.new }
{
    match step_in_tree(problem, line) {
        Ok(step) => main_rule(alloc, problem, tools, cover, tree, stayed, step),
        Err(refusal) => Err(refusal),
    }
}

// The first line of the main tree, with a rule.
fn root_rule(
    alloc: Global,
    problem: &Problem,
    tools: &mut Tools,
    cover: Cover,
    step: &Rule,
) -> Result<Due, Refusal>
    requires serves { Serves problem.now tools.old }
    requires sound { IsSound problem.now (RootDue cover) }
    ensures comes { IsNext problem.now (RootDue cover) (rule_line (rule_of step.now)) result }
    ensures sound { IfOk result (IsSound problem.now) }
    ensures serves { Serves problem.now tools.new }
{
    if !names_well(problem, step) {
        return Err(Refusal::BadNumber);
    }
    match root_space(alloc, problem)? {
        Root::Empty(_) => Err(Refusal::RuleFails(step.word())),
        Root::Space(space) => {
            let lits = Lits::new(alloc, problem.atoms().len())?;
            let state = State { space, lits };
            let pending = Pending::Empty;
            main_rule(
                alloc,
                problem,
                tools,
                cover,
                Tree { state, pending },
                0,
                step,
            )
        }
    }
}

/// The first line of the main tree.
pub fn root_line(
    alloc: Global,
    problem: &Problem,
    tools: &mut Tools,
    cover: Cover,
    line: &Line,
) -> Result<Due, Refusal>
    requires serves { Serves problem.now tools.old }
    requires sound { IsSound problem.now (RootDue cover) }
    ensures comes { IsNext problem.now (RootDue cover) (line_of line.now) result }
    ensures sound { IfOk result (IsSound problem.now) }
    ensures serves { Serves problem.now tools.new }
{
    match said(line) {
        TreeLine::Rule(step) => root_rule(alloc, problem, tools, cover, step),
        TreeLine::Crossing(axis) => {
            if crosses(problem, axis) {
                Ok(Due::End(cover, 0))
            } else {
                Err(no_crossing(problem, axis))
            }
        }
        TreeLine::Over => Err(Refusal::OverFails),
        TreeLine::Lemma(_) => Err(Refusal::Missing),
        TreeLine::Tree => Err(Refusal::Missing),
        TreeLine::End => Err(Refusal::Missing),
        TreeLine::Other => Err(Refusal::Missing),
    }
}

/// `end` of a cover.
pub fn end_line(cover: Cover, stayed: u64, line: &Line) -> Result<Due, Refusal>
    ensures comes { IsNextAnywhere (EndDue cover stayed) (line_of line.now) result }
    ensures sound { (p : Parts) → IsSound p (EndDue cover stayed) → IfOk result (IsSound p) }
{
    match said(line) {
        TreeLine::End => Ok(Due::Nothing(cover.loosenings, Value::Left(cover.lemmas, stayed))),
        TreeLine::Rule(_) => Err(Refusal::Extra),
        TreeLine::Crossing(_) => Err(Refusal::Extra),
        TreeLine::Over => Err(Refusal::Extra),
        TreeLine::Lemma(_) => Err(Refusal::Missing),
        TreeLine::Tree => Err(Refusal::Missing),
        TreeLine::Other => Err(Refusal::Missing),
    }
}
