// The part of a certificate that is in work.
ghost use Rattle.std.specs.Prelude.{◌≡◌, ◌<◌, ◌-◌, ◌^◌, true, suc, length, Some, IfOk};
ghost use Rattle.poly_graph.specs.ProblemViews.{problem_of};
ghost use Rattle.cover_model.specs.Carried.{GoesOnFrom};
ghost use Rattle.cert_model.specs.Session.{kept_by};
ghost use Rattle.cert_read.specs.Views.{line_of};
ghost use Rattle.cert_check.specs.declared.due.Due.TheVariants.{Nothing as NothingDue};
ghost use Rattle.cert_check.specs.Dues.{AllFit, IsNextAt, IsSound, due_of, lemmas_of, value_of};
ghost use Rattle.cert_check.specs.Stays.{stays_in};
ghost use Rattle.cert_check.specs.Work.{brief};
ghost use Rattle.cert_check.specs.Works.{AreSameChecks, IsBehind, IsFirst, IsInside, IsPart, IsPlace, IsSoundWork, IsSpent, IsTooled, checks_from, outcome_value};

use crate::due::{Due, Value};
use crate::lemmas::Lemmas;
use crate::loosenings::Loosenings;
use crate::names::is_crossed_box;
use crate::next::next;
use crate::refusal::Refusal;
use crate::tools::Tools;
use crate::work::Work;
use cert_read::Line;
use poly_graph::Problem;
use problem_session::Session;
use std::alloc::{AllocError, Global};
use std::mem;

/// What an accepted part stands for.
#[derive(Clone, Copy)]
pub enum Outcome {
    Point,
    /// The number of states that stay open or stuck.
    Left(u64),
}

/// The part in work: the problem of its check, and what the parts before it leave to it.
#[derive(Drop)]
pub struct Part<'a> {
    /// The checks, where there are several.
    pub session: Option<&'a Session>,
    /// The number of the check, from 0.
    pub number: usize,
    pub problem: Problem,
    pub tools: Tools,
    /// The lemmas of the part before that may be kept, as those of the problem, until `keep`.
    pub may_keep: Lemmas,
    /// What the parts before stand for.
    pub values: Vec<Outcome>,
}

// The lemmas of a cover that one of the next check's problem may keep, as lemmas of that problem, where all commands of
// the check are in force at the next one, or not: all or none.
#[tactic(auto, using(crate::proofs::PartEnds::keeps_all, crate::proofs::PartEnds::keeps_none))]
fn to_keep(
    alloc: Global,
    extends: bool,
    before: &Problem,
    problem: &Problem,
    lemmas: Lemmas,
) -> Result<Lemmas, AllocError>
    requires lemmas { AllFit before.now lemmas }
    requires goes_on { extends ≡ true →
        GoesOnFrom (problem_of before.now) (problem_of problem.now) }
    ensures states { IfOk result (λ v. v
        ≡ kept_by extends (problem_of before.now) lemmas (problem_of problem.now)) }
    ensures fit { IfOk result (AllFit problem.now) }
{
    if extends && !is_crossed_box(before) && !is_crossed_box(problem) {
        lemmas.carried(alloc, problem)
    } else {
        Ok(Lemmas::new(alloc))
    }
}

// What is due behind the part in work, which had these lemmas: the next part, which may keep them, or nothing.
fn next_part(
    alloc: Global,
    part: &mut Part<'_>,
    session: &Session,
    s: Loosenings,
    lemmas: Lemmas,
) -> Result<Work, AllocError>
    requires part { IsPart part.old }
    requires session { part.old.session ≡ Some session }
    requires lemmas { AllFit part.old.problem lemmas }
    ensures comes { IfOk result (IsBehind part.old s lemmas part.new) }
    ensures part { IsPart part.new }
    ensures sound { IfOk result (IsSoundWork part.new) }
    ensures checks { AreSameChecks part.old part.new }
{
    let checks = session.len();
    let number = part.number + 1;
    if number >= checks {
        return Ok(Work::Done(s));
    }
    let problem = session.next(alloc, part.number, &part.problem)?;
    let tools = Tools::new(alloc, &problem)?;
    let extends = session.extends(number);
    let kept = to_keep(alloc, extends, &part.problem, &problem, lemmas)?;
    part.number = number;
    drop(mem::replace(&mut part.problem, problem));
    drop(mem::replace(&mut part.tools, tools));
    drop(mem::replace(&mut part.may_keep, kept));
    Ok(Work::Part(s))
}

// What a part stands for, and the lemmas of its cover.
#[tactic(auto, using(crate::proofs::Leans::length_blanks))]
fn parted(alloc: Global, value: Value) -> (Outcome, Lemmas)
    ensures outcome { outcome_value result.0 ≡ brief (value_of value) }
    ensures lemmas { result.1 ≡ lemmas_of value }
{
    match value {
        Value::Point(_) => (Outcome::Point, Lemmas::new(alloc)),
        Value::Left(lemmas, stayed) => (Outcome::Left(stayed), lemmas),
    }
}

// What is due behind the part in work, which stands for this.
fn end_part(
    alloc: Global,
    part: &mut Part<'_>,
    s: Loosenings,
    value: Value,
) -> Result<Work, AllocError>
    requires part { IsPart part.old }
    requires lemmas { AllFit part.old.problem (lemmas_of value) }
    ensures comes { IfOk result (IsInside part.old (NothingDue s value) part.new) }
    ensures part { IsPart part.new }
    ensures sound { IfOk result (IsSoundWork part.new) }
    ensures checks { AreSameChecks part.old part.new }
{
    let (outcome, lemmas) = parted(alloc, value);
    part.values.push(outcome)?;
    match part.session {
        None => Ok(Work::Done(s)),
        Some(session) => next_part(alloc, part, session, s, lemmas),
    }
}

/// What is due in the part, or behind it where this is its end.
pub fn inside(alloc: Global, part: &mut Part<'_>, due: Due) -> Result<Work, AllocError>
    requires part { IsPart part.old }
    requires sound { IsSound part.old.problem due }
    ensures comes { IfOk result (IsInside part.old due part.new) }
    ensures part { IsPart part.new }
    ensures sound { IfOk result (IsSoundWork part.new) }
    ensures checks { AreSameChecks part.old part.new }
{
    match due {
        Due::Nothing(s, value) => end_part(alloc, part, s, value),
        due => Ok(Work::Inside(due)),
    }
}

impl<'a> Part<'a> {
    /// The part of the first check, whose problem this is.
    pub fn new(
        alloc: Global,
        problem: Problem,
        session: Option<&'a Session>,
    ) -> Result<Part<'a>, AllocError>
        requires { IsPlace session 0 problem }
        ensures part { IfOk result IsPart }
        ensures first { IfOk result IsFirst }
        ensures session { IfOk result (λ t. t.session ≡ session.entry) }
        ensures problem { IfOk result (λ t. t.problem ≡ problem) }
    {
        let tools = Tools::new(alloc, &problem)?;
        Ok(Part {
            session,
            number: 0,
            problem,
            tools,
            may_keep: Lemmas::new(alloc),
            values: Vec::new(alloc),
        })
    }

    /// What is due after a line of the problem in work, or its fault.
    pub fn next(
        &mut self,
        alloc: Global,
        bound: Option<u32>,
        due: Due,
        line: &Line,
    ) -> Result<Due, Refusal>
        requires part { IsPart self.old }
        requires sound { IsSound self.old.problem due }
        requires room { stays_in due < 2 ^ 64 - 1 }
        ensures comes { IsNextAt self.old.problem bound (due_of self.old.problem due)
            (line_of line.now) result }
        ensures sound { IfOk result (IsSound self.old.problem) }
        ensures part { IsPart self.new }
        ensures same { IsTooled self.old self.new }
    {
        next(alloc, &self.problem, bound, &mut self.tools, due, line)
    }

    /// How many checks there are.
    pub fn checks(&self) -> usize
        requires { IsPart self.now }
        ensures { result ≡ suc (length (checks_from self.now.session 1)) }
    {
        match self.session {
            None => 1,
            Some(session) => session.len(),
        }
    }

    /// The lemmas of the part before, which are not held any more.
    pub fn take_lemmas(&mut self, alloc: Global) -> Lemmas
        ensures lemmas { result ≡ self.old.may_keep }
        ensures same { IsSpent self.old self.new }
    {
        mem::replace(&mut self.may_keep, Lemmas::new(alloc))
    }
}
