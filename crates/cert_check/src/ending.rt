// What is answered where the input ends.
ghost use Rattle.std.specs.Prelude.{◌≡◌, ◌⊎◌, ◌<◌, ◌-◌, ◌^◌, [], ◌∷◌, Err, IfOk, map};
ghost use Rattle.poly_graph.specs.ProblemViews.{Parts};
ghost use Rattle.cert_model.specs.Accepted.{at_end};
ghost use Rattle.cert_model.specs.Session.{one_verdict};
ghost use Rattle.cert_check.specs.declared.fault.CertFault.TheVariants.{Memory};
ghost use Rattle.cert_check.specs.declared.part.Part.{Part};
ghost use Rattle.cert_check.specs.States.{loosenings_of};
ghost use Rattle.cert_check.specs.Dues.{due_of, value_of};
ghost use Rattle.cert_check.specs.Courses.{IsFirstVerdict, verdict_of};
ghost use Rattle.cert_check.specs.Sessions.{IsSessionVerdict};
ghost use Rattle.cert_check.specs.Work.{work_at_end};
ghost use Rattle.cert_check.specs.Works.{outcome_value, values_of, work_of};

use crate::checker::Verdict;
use crate::due::{Due, Value};
use crate::fault::CertFault;
use crate::loosenings::Loosenings;
use crate::part::Outcome;
use crate::work::Work;
use std::alloc::{AllocError, Global};

// What an accepted part says.
fn said_by(s: Loosenings, outcome: Outcome) -> Verdict
    ensures { result ≡ verdict_of (loosenings_of s) (outcome_value outcome) }
{
    match outcome {
        Outcome::Point => Verdict::Point(s.delta),
        Outcome::Left(left) => {
            if left == 0 {
                Verdict::Unsat(s.margin)
            } else {
                Verdict::Left(left)
            }
        }
    }
}

// What an accepted certificate of one check says.
fn said_alone(s: Loosenings, value: &Value) -> Verdict
    ensures { result ≡ verdict_of (loosenings_of s) (value_of value.now) }
{
    match value {
        Value::Point(_) => said_by(s, Outcome::Point),
        Value::Left(_, left) => said_by(s, Outcome::Left(*left)),
    }
}

// The verdict of a certificate of one check.
fn alone_ending(due: &Due, lines: u64) -> Result<Verdict, CertFault>
    requires { lines < 2 ^ 64 - 1 }
    ensures { (p : Parts) → IsFirstVerdict (one_verdict (at_end (due_of p due.now) lines)) result }
{
    match due {
        Due::Nothing(s, value) => Ok(said_alone(*s, value)),
        Due::Version => Err(CertFault::BadHeader { line: lines + 1 }),
        Due::Margin(_) => Err(CertFault::BadHeader { line: lines + 1 }),
        Due::Delta(_, _) => Err(CertFault::BadHeader { line: lines + 1 }),
        Due::Bound(_) => Err(CertFault::BadHeader { line: lines + 1 }),
        Due::Kind(_) => Err(CertFault::BadHeader { line: lines + 1 }),
        _ => Err(CertFault::Missing { line: lines + 1 }),
    }
}

/// The verdict of the first check where the input ends after so many lines, behind parts that stand for these values.
pub fn first_ending(work: &Work, values: &[Outcome], lines: u64) -> Result<Verdict, CertFault>
    requires { lines < 2 ^ 64 - 1 }
    ensures { (t : Part) → t.values.items ≡ values.now →
        IsFirstVerdict (work_at_end (work_of t work.now) lines) result }
{
    match work {
        Work::Alone(due) => alone_ending(due, lines),
        Work::Done(s) => match values.first() {
            Some(outcome) => Ok(said_by(*s, *outcome)),
            None => Err(CertFault::Missing { line: lines + 1 }),
        },
        Work::Header(_) => Err(CertFault::BadHeader { line: lines + 1 }),
        Work::Checks(_) => Err(CertFault::BadHeader { line: lines + 1 }),
        _ => Err(CertFault::Missing { line: lines + 1 }),
    }
}

// What accepted parts say.
#[tactic(auto, using(crate::proofs::Endings::said_more, crate::proofs::Endings::said_all))]
fn all_said(alloc: Global, s: Loosenings, values: &[Outcome]) -> Result<Vec<Verdict>, AllocError>
    ensures { IfOk result (λ ws.
        ws.items ≡ map (verdict_of (loosenings_of s)) (values_of values.now)) }
{
    let mut verdicts = Vec::new(alloc);
    for outcome in values {
        verdicts.push(said_by(s, *outcome))?;
    }
    Ok(verdicts)
}

// The only verdict.
fn alone(alloc: Global, verdict: Verdict) -> Result<Vec<Verdict>, AllocError>
    ensures { IfOk result (λ ws. ws.items ≡ verdict ∷ []) }
{
    let mut verdicts = Vec::new(alloc);
    verdicts.push(verdict)?;
    Ok(verdicts)
}

/// The verdicts, one for each check, where the input ends after so many lines, behind parts that stand for these values.
pub fn all_endings(
    alloc: Global,
    work: &Work,
    values: &[Outcome],
    lines: u64,
) -> Result<Vec<Verdict>, CertFault>
    requires { lines < 2 ^ 64 - 1 }
    ensures { (t : Part) → t.values.items ≡ values.now → (result ≡ Err Memory)
        ⊎ IsSessionVerdict (work_at_end (work_of t work.now) lines) result }
{
    match work {
        Work::Alone(due) => Ok(alone(alloc, alone_ending(due, lines)?)?),
        Work::Done(s) => Ok(all_said(alloc, *s, values)?),
        Work::Header(_) => Err(CertFault::BadHeader { line: lines + 1 }),
        Work::Checks(_) => Err(CertFault::BadHeader { line: lines + 1 }),
        _ => Err(CertFault::Missing { line: lines + 1 }),
    }
}
