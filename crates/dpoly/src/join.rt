// `join`, from a script and several certificates to one.
ghost use Rattle.std.specs.Prelude.{◌≡◌, ℕ, List, [], Err, MatchResult, Some, length};
ghost use Rattle.desk.specs.Draft.{IsBegun};
ghost use Rattle.poly_graph.specs.ProblemViews.{problem_of};
ghost use Rattle.cert_check.specs.Feeding.{HasTaken};
ghost use Rattle.check_run.specs.Both.{IsScriptHeld};
ghost use Rattle.check_run.specs.Course.{StartedEnds};
ghost use Rattle.check_run.specs.Run.{JoinHasCause};
ghost use Rattle.check_run.specs.Several.{CanJoinOn};
ghost use Rattle.dpoly.specs.Join.{EndsAccepted, EndsApart, EndsOnJoin, EndsOnJoint, EndsRefused, HaltsJoining, IsDraftedJoint, IsToldJoint, fault_line};

use crate::alone::first_fault;
use cert_check::{CertFault, Feed, Verdict};
use cert_join::{Stop, join};
use cert_parting::first_parting;
use check_run::{
    Status, end_halted, keep_joined, not_joined, not_joined_at, refusal, refused_part, say,
    too_long,
};
use desk::{Denied, Desk};
use poly_graph::Problem;
use problem_build::read_problem;
use std::alloc::{AllocError, Global};

// The line of a cover that says how many lemmas it has.
const LEMMAS_LINE: u64 = 5;

/// What came of certificates that were joined.
#[derive(Clone, Copy)]
pub enum Joint {
    /// One with this verdict, from which no line of theirs was dropped.
    Whole(Verdict),
    /// One with this verdict.
    Dropped(Verdict),
    /// They have different headers, or too many lemmas.
    Crowded,
    /// One that is refused in this line.
    Refused(u64),
}

// The line of a fault; none of out of memory.
fn line_of(fault: CertFault) -> Option<u64>
    ensures { result ≡ fault_line fault }
{
    match fault {
        CertFault::BadHeader { line }
        | CertFault::BadNumber { line }
        | CertFault::RuleFails { line, .. }
        | CertFault::KeepFails { line }
        | CertFault::OverFails { line }
        | CertFault::Missing { line }
        | CertFault::Extra { line }
        | CertFault::WrongBound { line }
        | CertFault::NotShown { line }
        | CertFault::BadLine { line }
        | CertFault::LineTooLong { line }
        | CertFault::TooLong { line } => Some(line),
        CertFault::Memory => None,
    }
}

// What comes of one that is refused.
fn refused(fault: CertFault) -> Result<Joint, Status>
    ensures { IsToldJoint (Err fault) result }
{
    match line_of(fault) {
        Some(line) => Ok(Joint::Refused(line)),
        None => Err(Status::NoMemory),
    }
}

// What comes of one with a verdict.
fn told(verdict: Result<Verdict, CertFault>, dropped: bool) -> Result<Joint, Status>
    ensures { IsToldJoint verdict result }
{
    match verdict {
        Ok(verdict) if dropped => Ok(Joint::Dropped(verdict)),
        Ok(verdict) => Ok(Joint::Whole(verdict)),
        Err(fault) => refused(fault),
    }
}

// Joins the certificates by a feed that was fed nothing.
fn joint_by<D: Desk>(
    alloc: Global,
    desk: &mut D,
    problem: &Problem,
    bound: Option<u32>,
    count: usize,
    feed: &mut Feed<'_>,
) -> Result<Joint, Status>
    requires begun { IsBegun (D.sight desk.old) }
    requires taken { HasTaken problem.now bound [] feed.old }
    ensures { MatchResult result
        (λ joint. IsDraftedJoint (problem_of problem.now) bound count joint
        (D.sight desk.old) (D.sight desk.new))
        (λ status. HaltsJoining status (D.sight desk.old) (D.sight desk.new)) }
{
    match join(alloc, desk, count, feed) {
        Ok(joined) => told(feed.end(), joined.dropped),
        Err(Stop::Failed) => Err(Status::InFailed),
        Err(Stop::Denied) => Err(Status::OutFailed),
        Err(Stop::Memory) => Err(Status::NoMemory),
        Err(Stop::Unlike) => Ok(Joint::Crowded),
        Err(Stop::Crowded) => Ok(Joint::Crowded),
        Err(Stop::Refused(fault)) => refused(fault),
    }
}

// Joins the certificates, drafts what comes of it, and checks it.
fn joint_of<D: Desk>(
    alloc: Global,
    desk: &mut D,
    problem: &Problem,
    bound: Option<u32>,
    count: usize,
) -> Result<Joint, Status>
    requires { IsBegun (D.sight desk.old) }
    ensures { MatchResult result
        (λ joint. IsDraftedJoint (problem_of problem.now) bound count joint
        (D.sight desk.old) (D.sight desk.new))
        (λ status. HaltsJoining status (D.sight desk.old) (D.sight desk.new)) }
{
    match Feed::new(alloc, problem, bound) {
        Ok(mut feed) => joint_by(alloc, desk, problem, bound, count, &mut feed),
        Err(_) => Err(Status::NoMemory),
    }
}

// Refuses the certificates with this answer.
fn refuse_with<D: Desk>(desk: &mut D, text: Result<Vec<u8>, AllocError>) -> Status
    ensures ends { EndsRefused text (D.sight desk.old) (D.sight desk.new) result }
    ensures cause { JoinHasCause (D.sight desk.old) (D.sight desk.new) result }
    ensures script { (D.sight desk.new).script ≡ (D.sight desk.old).script }
{
    match text {
        Ok(text) => say(desk, Status::CertRefused, &text),
        Err(_) => Status::NoMemory,
    }
}

// Refuses certificates that are all accepted: names the first whose margin or delta is not that of the first one, or,
// where all agree, this line of what was joined.
fn end_apart<D: Desk>(alloc: Global, desk: &mut D, count: usize, line: u64) -> Status
    ensures ends { EndsApart count line (D.sight desk.old) (D.sight desk.new) result }
    ensures cause { JoinHasCause (D.sight desk.old) (D.sight desk.new) result }
    ensures script { (D.sight desk.new).script ≡ (D.sight desk.old).script }
{
    match first_parting(alloc, desk, count) {
        Ok(Some(place)) => refuse_with(desk, not_joined_at(alloc, place.number, place.line)),
        Ok(None) => refuse_with(desk, not_joined(alloc, line)),
        Err(Denied::Failed) => Status::InFailed,
        Err(Denied::Memory) => Status::NoMemory,
    }
}

// Answers what came of so many certificates that are all accepted.
fn end_accepted<D: Desk>(alloc: Global, desk: &mut D, count: usize, joint: Joint) -> Status
    ensures ends { EndsAccepted count joint (D.sight desk.old) (D.sight desk.new) result }
    ensures cause { JoinHasCause (D.sight desk.old) (D.sight desk.new) result }
    ensures script { (D.sight desk.new).script ≡ (D.sight desk.old).script }
{
    match joint {
        Joint::Whole(verdict) | Joint::Dropped(verdict) => keep_joined(alloc, desk, verdict),
        Joint::Crowded => end_apart(alloc, desk, count, LEMMAS_LINE),
        Joint::Refused(line) => end_apart(alloc, desk, count, line),
    }
}

// Checks the certificates each by itself, and answers the first fault, or what came of them.
fn end_alone<D: Desk>(
    alloc: Global,
    desk: &mut D,
    problem: &Problem,
    bound: Option<u32>,
    count: usize,
    joint: Joint,
) -> Status
    ensures ends { EndsOnJoint (problem_of problem.now) bound count joint
        (D.sight desk.old) (D.sight desk.new) result }
    ensures cause { JoinHasCause (D.sight desk.old) (D.sight desk.new) result }
    ensures script { (D.sight desk.new).script ≡ (D.sight desk.old).script }
{
    match first_fault(alloc, desk, problem, bound, count) {
        Ok(Some((number, fault))) => refuse_with(desk, refused_part(alloc, number, fault)),
        Ok(None) => end_accepted(alloc, desk, count, joint),
        Err(unread) => unread.status(),
    }
}

// Joins the certificates, and answers.
fn join_problem<D: Desk>(
    alloc: Global,
    desk: &mut D,
    problem: &Problem,
    bound: Option<u32>,
    count: usize,
) -> Status
    requires { IsBegun (D.sight desk.old) }
    ensures ends { EndsOnJoin (problem_of problem.now) bound count
        (D.sight desk.old) (D.sight desk.new) result }
    ensures cause { JoinHasCause (D.sight desk.old) (D.sight desk.new) result }
    ensures script { (D.sight desk.new).script ≡ (D.sight desk.old).script }
{
    match joint_of(alloc, desk, problem, bound, count) {
        Ok(Joint::Whole(verdict)) => keep_joined(alloc, desk, verdict),
        Ok(joint) => end_alone(alloc, desk, problem, bound, count, joint),
        Err(status) => status,
    }
}

/// Joins so many certificates of a script that was read, whose ports were all started: what comes of it is drafted and
/// checked, and kept where it is accepted.
pub fn join_inputs<D: Desk>(
    alloc: Global,
    desk: &mut D,
    script: &Option<Vec<u8>>,
    bound: Option<u32>,
    count: usize,
) -> Status
    requires begun { IsBegun (D.sight desk.old) }
    ensures ends { (text : List ℕ) (parts : List (List ℕ)) → IsScriptHeld script.now text →
        (D.sight desk.old).parts ≡ Some parts → length parts ≡ count →
        StartedEnds (CanJoinOn bound text parts) (D.sight desk.old) (D.sight desk.new) result }
    ensures cause { JoinHasCause (D.sight desk.old) (D.sight desk.new) result }
    ensures script { (D.sight desk.new).script ≡ (D.sight desk.old).script }
{
    let script = match script {
        Some(script) => script,
        None => return end_halted(desk, too_long(alloc)),
    };
    match read_problem(alloc, script, bound) {
        Ok(problem) => join_problem(alloc, desk, &problem, bound, count),
        Err(error) => end_halted(desk, refusal(alloc, &error)),
    }
}
