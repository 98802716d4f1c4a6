// The checker.
ghost use Rattle.std.specs.Prelude.{◌≡◌, ℕ, ◌<◌, ◌≤◌, ◌-◌, ◌^◌, [], ◌∷◌, drop, map, IfOk, OnOk, MatchOption, Some, None, Err};
ghost use Rattle.cert_read.specs.CertLine.{line as FormLine, Parsed, parsed};
ghost use Rattle.cert_read.specs.Reading.{lines_ahead};
ghost use Rattle.cert_read.specs.LineAnswers.{IsFault};
ghost use Rattle.cert_read.specs.Views.{line_of};
ghost use Rattle.cert_model.specs.Accepted.{reached};
ghost use Rattle.cert_model.specs.SessionLaws.{IsSession};
ghost use Rattle.problem_session.specs.Session.{problems_of};
ghost use Rattle.poly_graph.specs.ProblemViews.{Parts};
ghost use Rattle.ival.specs.SpaceViews.{space_of};
ghost use Rattle.cert_check.specs.declared.checker.Stage.TheVariants.{InWork};
ghost use Rattle.cert_check.specs.Checked.{fresh_checker};
ghost use Rattle.cert_check.specs.Dues.{due_of};
ghost use Rattle.cert_check.specs.Stages.{IsFaultAfter, IsOneMore, IsSoundStage, IsStageAfter};
ghost use Rattle.cert_check.specs.Stays.{StaysWithin, stays_in_work};
ghost use Rattle.cert_check.specs.Courses.{IsCourseAnswer, AreLinesTaken, Finishes, in_work, box_in, cover_in, point_in, stand_in, IsCutOff, IsFedOn, states_in_work, Takes, work_states};
ghost use Rattle.cert_check.specs.Sessions.{FinishesAll, IsFreshFor};
ghost use Rattle.cert_check.specs.Stands.{stand_of, whole_cover_of};
ghost use Rattle.cert_check.specs.Work.{started};
ghost use Rattle.cert_check.specs.declared.part.Part.{Part as PartInWork};
ghost use Rattle.cert_check.specs.Works.{AreSameChecks, IsFirst, IsPart, IsSoundWork, checks_of, work_of};

use crate::due::{Due, Value};
use crate::ending::{all_endings, first_ending};
use crate::fault::CertFault;
use crate::part::Part;
use crate::parts::work_line;
use crate::refusal::unread;
use crate::stand::{Stand, WholeCover, cover_in_work, stand_in_work};
use crate::work::Work;
use cert_read::{Line, LineFault, LineReader};
use ival::Space;
use poly_graph::Problem;
use problem_session::Session;
use std::alloc::{AllocError, Global};
use std::marker::Model;
use std::mem;

/// What an accepted certificate says.
#[derive(Clone, Copy, Debug, PartialEq, Eq)]
pub enum Verdict {
    /// A cover that leaves nothing, with the bits of its margin.
    Unsat(u32),
    /// A point, with the bits of its delta.
    Point(u32),
    /// A cover that leaves so many states open or stuck.
    Left(u64),
}

// What is due, or the fault that is answered for good.
#[derive(Drop)]
pub enum Stage {
    InWork(Work),
    Stopped(CertFault),
}

/// Goes through the lines of a certificate once, of one check or of several. It keeps the lemmas, the state in work and
/// those that wait behind it; of several checks the problem in work alone, and the lemmas of the part before until they
/// are kept or dropped.
///
/// After a fault, running out of memory included, every later call answers the same fault. More than 2^64 - 2 lines,
/// which have more bytes than a certificate may have, are answered as out of memory.
#[derive(Drop)]
pub struct Checker<'a> {
    alloc: Global,
    part: Part<'a>,
    bound: Option<u32>,
    stage: Stage,
    lines: u64,
}

impl<'a> Model for Checker<'a> {
    ghost use Rattle.cert_check.specs.Checked.{Checked};

    ghost Value = { Checked };

    ghost use Rattle.cert_check.specs.Checking.{checked_of, IsSoundChecker};
    ghost use Rattle.std.specs.Coded.{codes};
    ghost use Rattle.cert_check.specs.FormCode.{form_code};

    ghost coded = { Prim.hlevel (codes, form_code) };

    ghost view = { checked_of };

    ghost invariant = { IsSoundChecker };
}

// A checker takes at most so many lines.
const MOST_LINES: u64 = u64::MAX - 1;

// How many states of a tree are kept.
fn states_in(due: &Due) -> usize
    ensures { (p : Parts) → result ≡ in_work (due_of p due.now) }
{
    match due {
        Due::Lemma(_, _, tree) => tree.pending.len() + 1,
        Due::Root(_) => 1,
        Due::Tree(_, tree, _) => tree.pending.len() + 1,
        _ => 0,
    }
}

// How many states of the tree in work are kept.
fn states_in_work(work: &Work) -> usize
    ensures { (t : Part) → result ≡ work_states (work_of t work.now) }
{
    match work {
        Work::Alone(due) => states_in(due),
        Work::Inside(due) => states_in(due),
        _ => 0,
    }
}

// The point of a certificate of one check that is whole.
fn point_in_work(work: &Work) -> Option<&Space>
    ensures { (t : Part) (n : ℕ) → let o = point_in (Some (reached (work_of t work.now) n)) in
        MatchOption result (o ≡ None) (λ space. o ≡ Some (space_of space.now)) }
{
    match work {
        Work::Alone(Due::Nothing(_, Value::Point(point))) => Some(point),
        _ => None,
    }
}

// What is in work, or answered for good, after the line that is due and follows so many others.
#[tactic(auto, using(crate::proofs::OneLine::work_leads, crate::proofs::OneLine::refused_leads))]
fn stage_of_work(
    alloc: Global,
    bound: Option<u32>,
    part: &mut Part<'_>,
    work: Work,
    lines: u64,
    line: &Line,
) -> Stage
    requires part { IsPart part.old }
    requires sound { IsSoundWork part.old work }
    requires few { lines < 2 ^ 64 - 1 }
    requires stays { stays_in_work work ≤ lines }
    ensures course { IsStageAfter part.old bound (InWork work) lines (line_of line.now)
        part.new result }
    ensures part { IsPart part.new }
    ensures sound { IsSoundStage part.new result }
    ensures stays { (n : ℕ) → IsOneMore lines n → StaysWithin n result }
    ensures checks { AreSameChecks part.old part.new }
{
    if lines >= MOST_LINES {
        return Stage::Stopped(CertFault::Memory);
    }
    match work_line(alloc, bound, part, work, line) {
        Ok(work) => Stage::InWork(work),
        Err(refusal) => Stage::Stopped(refusal.at(lines + 1)),
    }
}

// The same where a fault may be answered already.
#[tactic(auto, using(crate::proofs::OneLine::stays_over))]
fn stage_after(
    alloc: Global,
    bound: Option<u32>,
    part: &mut Part<'_>,
    stage: Stage,
    lines: u64,
    line: &Line,
) -> Stage
    requires part { IsPart part.old }
    requires sound { IsSoundStage part.old stage }
    requires few { lines < 2 ^ 64 - 1 }
    requires stays { StaysWithin lines stage }
    ensures course { IsStageAfter part.old bound stage lines (line_of line.now) part.new result }
    ensures part { IsPart part.new }
    ensures sound { IsSoundStage part.new result }
    ensures stays { (n : ℕ) → IsOneMore lines n → StaysWithin n result }
    ensures checks { AreSameChecks part.old part.new }
{
    match stage {
        Stage::InWork(work) => stage_of_work(alloc, bound, part, work, lines, line),
        Stage::Stopped(fault) => Stage::Stopped(fault),
    }
}

// The fault that is answered after a line without a form that follows so many others.
#[tactic(auto, using(crate::proofs::OneLine::unread_leads, crate::proofs::OneLine::stays_over))]
fn fault_after(stage: &Stage, fault: LineFault, lines: u64) -> CertFault
    requires { lines < 2 ^ 64 - 1 }
    ensures { (x : Parsed) → IsFault fault x →
        (t : Part) → IsFaultAfter t stage.now lines x result }
{
    match stage {
        Stage::InWork(_) => unread(fault).at(lines + 1),
        Stage::Stopped(fault) => *fault,
    }
}

// What is due at first.
#[tactic(auto, using(crate::proofs::Fed::one_starts, crate::proofs::Fed::several_start))]
fn first_work(session: &Session) -> Work
    requires { IsSession (problems_of session.now) }
    ensures due { (t : PartInWork) → work_of t result ≡ started (drop 1 session.now) }
    ensures sound { (t : PartInWork) → IsFirst t → IsSoundWork t result }
    ensures stays { stays_in_work result ≡ 0 }
{
    if session.len() == 1 {
        Work::Alone(Due::Version)
    } else {
        Work::Header(Due::Version)
    }
}

// Puts the stage into this place.
fn put(place: &mut Stage, stage: Stage)
    ensures { place.new ≡ stage }
{
    drop(mem::replace(place, stage));
}

// How many lines were taken after one more.
fn one_more(lines: u64) -> u64
    ensures few { result < 2 ^ 64 - 1 }
    ensures more { IsOneMore lines result }
{
    if lines < MOST_LINES {
        lines + 1
    } else {
        MOST_LINES
    }
}

impl<'a> Checker<'a> {
    /// A checker of certificates of one check, for the problem, where `bound` is the bound of the words. It has a copy of
    /// the problem.
    pub fn new(
        alloc: Global,
        problem: &Problem,
        bound: Option<u32>,
    ) -> Result<Checker<'a>, AllocError>
        ensures { IfOk result (λ c. c ≡ fresh_checker problem.now bound) }
    {
        let part = Part::new(alloc, problem.try_clone(alloc)?, None)?;
        Ok(Checker::begin(alloc, part, bound, Work::Alone(Due::Version)))
    }

    /// A checker of certificates for the checks of a session. With one check all is as `new` has it.
    pub fn new_session(
        alloc: Global,
        session: &'a Session,
        bound: Option<u32>,
    ) -> Result<Checker<'a>, AllocError>
        requires { IsSession (problems_of session.now) }
        ensures { IfOk result (IsFreshFor session.now bound) }
    {
        let part = Part::new(alloc, session.first(alloc)?, Some(session))?;
        Ok(Checker::begin(alloc, part, bound, first_work(session)))
    }

    // A checker that took no line yet.
    fn begin(alloc: Global, part: Part<'a>, bound: Option<u32>, first: Work) -> Checker<'a>
        requires part { IsPart part }
        requires sound { IsSoundWork part first }
        requires stays { stays_in_work first ≡ 0 }
        ensures checks { result.checks ≡ checks_of part.entry bound }
        ensures course { result.course ≡ Some (reached (work_of part.entry first) 0) }
    {
        Checker {
            alloc,
            part,
            bound,
            stage: Stage::InWork(first),
            lines: 0,
        }
    }

    // The fault that is answered for good, if there is one.
    fn answer(&self) -> Result<(), CertFault>
        ensures { IsCourseAnswer self.now.course result }
    {
        match &self.stage {
            Stage::InWork(_) => Ok(()),
            Stage::Stopped(fault) => Err(*fault),
        }
    }

    /// Takes a line, and answers its fault.
    pub fn line(&mut self, line: &Line) -> Result<(), CertFault>
        ensures { Takes self.old (FormLine (line_of line.now) ∷ []) self.new result }
    {
        let stage = mem::replace(&mut self.stage, Stage::Stopped(CertFault::Memory));
        let stage = stage_after(
            self.alloc,
            self.bound,
            &mut self.part,
            stage,
            self.lines,
            line,
        );
        put(&mut self.stage, stage);
        self.lines = one_more(self.lines);
        self.answer()
    }

    /// Takes a line that a reader refused, and answers its fault.
    pub fn refuse(&mut self, fault: LineFault) -> CertFault
        ensures { (x : Parsed) → IsFault fault x → Takes self.old (x ∷ []) self.new (Err result) }
    {
        let fault = fault_after(&self.stage, fault, self.lines);
        put(&mut self.stage, Stage::Stopped(fault));
        fault
    }

    /// Takes all whole lines that the reader holds, up to a fault, which it answers.
    pub fn take(&mut self, reader: &mut LineReader) -> Result<(), CertFault>
        ensures lines { Takes self.old (map parsed (lines_ahead reader.old)) self.new result }
        ensures drained { OnOk result (lines_ahead reader.new ≡ []) }
        ensures ended { reader.new.ended ≡ reader.old.ended }
        ensures at { AreLinesTaken self.old reader.old self.new }
        ensures fed { IsFedOn self.old reader.old self.new reader.new result }
    {
        'lines: loop {
            match reader.next_line() {
                Ok(None) => return self.answer(),
                Ok(Some(line)) => match self.line(&line) {
                    Ok(()) => {}
                    Err(fault) => return Err(fault),
                },
                Err(fault) => return Err(self.refuse(fault)),
            }
        }
    }

    /// The verdict of the first check, where the input ends here: with one check that of the certificate.
    pub fn finish(&self) -> Result<Verdict, CertFault>
        ensures { Finishes self.now.course result }
    {
        match &self.stage {
            Stage::InWork(work) => first_ending(work, &self.part.values, self.lines),
            Stage::Stopped(fault) => Err(*fault),
        }
    }

    /// The verdicts, one for each check, where the input ends here.
    pub fn finish_all(&self) -> Result<Vec<Verdict>, CertFault>
        ensures { FinishesAll self.now.course result }
    {
        match &self.stage {
            Stage::InWork(work) => all_endings(self.alloc, work, &self.part.values, self.lines),
            Stage::Stopped(fault) => Err(*fault),
        }
    }

    /// The fault, where the input goes on and no more of it is read: a certificate has at most 2^64 - 1 bytes.
    pub fn too_long(&self) -> CertFault
        ensures { IsCutOff self.now.course result }
    {
        match &self.stage {
            Stage::InWork(_) => CertFault::TooLong { line: 0 },
            Stage::Stopped(fault) => *fault,
        }
    }

    /// How many states of a tree are kept: 0 where no tree is in work, else the present one and those that wait.
    pub fn pending(&self) -> usize
        ensures { result ≡ states_in_work self.now.course }
    {
        match &self.stage {
            Stage::InWork(work) => states_in_work(work),
            Stage::Stopped(_) => 0,
        }
    }

    /// The box where the next line of the main tree stands; none for its first line, which stands at the root, and where
    /// no line of that tree is due.
    #[tactic(auto, using(crate::proofs::Stands::boxes_stand))]
    pub fn box_at(&self) -> Option<&Space>
        ensures { let o = box_in self.now.course in
            MatchOption result (o ≡ None) (λ space. o ≡ Some (space_of space.now)) }
    {
        match self.stand() {
            Stand::Elsewhere => None,
            Stand::Root => None,
            Stand::At(space, _) => Some(space),
        }
    }

    /// Where the next line of the main tree stands.
    pub fn stand(&self) -> Stand<'_>
        ensures { stand_of result ≡ stand_in self.now.course }
    {
        match &self.stage {
            Stage::InWork(work) => stand_in_work(work),
            Stage::Stopped(_) => Stand::Elsewhere,
        }
    }

    /// The header and the lemmas of a cover of one check that was taken whole; none of a point, and before its last line.
    pub fn cover(&self) -> Option<WholeCover<'_>>
        ensures { let o = cover_in self.now.course in
            MatchOption result (o ≡ None) (λ c. o ≡ Some (whole_cover_of c)) }
    {
        match &self.stage {
            Stage::InWork(work) => cover_in_work(work),
            Stage::Stopped(_) => None,
        }
    }

    /// The point of a certificate of one check that was taken whole; none of a cover, and before its last line.
    pub fn point(&self) -> Option<&Space>
        ensures { let o = point_in self.now.course in
            MatchOption result (o ≡ None) (λ space. o ≡ Some (space_of space.now)) }
    {
        match &self.stage {
            Stage::InWork(work) => point_in_work(work),
            Stage::Stopped(_) => None,
        }
    }
}
