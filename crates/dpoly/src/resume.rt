// `resume`, from a script and a certificate to a certificate that goes on from it.
ghost use Rattle.std.specs.Prelude.{◌≡◌, ◌≤◌, ℕ, List, [], IfOk, MatchResult, Option, length};
ghost use Rattle.cert_model.specs.Accepted.{most_bytes};
ghost use Rattle.command_line.specs.Seen.{seen_resume};
ghost use Rattle.command_line.specs.Words.{IsResume, Resume as Asked};
ghost use Rattle.poly_graph.specs.ProblemViews.{problem_of};
ghost use Rattle.poly_graph.specs.Problem.{Problem as Question};
ghost use Rattle.script_reading.specs.Faults.{script_fault};
ghost use Rattle.script_reading.specs.Reader.{HasProblem};
ghost use Rattle.cert_base.specs.Base.{IsBase};
ghost use Rattle.cert_upgrade.specs.Upgraded.{upgraded};
ghost use Rattle.check_run.specs.Both.{CanGoOn, IsScriptHeld};
ghost use Rattle.check_run.specs.Course.{RunEnds};
ghost use Rattle.check_run.specs.Resumed.{CanResume};
ghost use Rattle.check_run.specs.Run.{ResumeHasCause, SameIn};
ghost use Rattle.check_run.specs.Script.{IsHaltOfFault, IsWithin};
ghost use Rattle.dpoly.specs.Resume.{IsSomeBase, IsToldMore, SaysShare, TellsMore, request_of};

use crate::answers::SearchAnswer;
use crate::leaf::Engine;
use crate::resumption::resume;
use cert_base::{Base, Read, read_base};
use cert_check::CertFault;
use cert_resume::{Cover, Own, Request, Resumed, Share};
use cert_upgrade::upgrade;
use check_run::{Halt, Inputs, Status, end_halted, finish, refusal, refuse, too_long};
use command_line::ResumeWords;
use desk::Desk;
use poly_graph::Problem;
use problem_build::read_problem;
use solve_core::Gate;
use std::alloc::{AllocError, Global};
use std::sync::Wait;
use std::thread::Threads;

// What the words ask of the search.
fn request_of(asked: &ResumeWords<'_>) -> Request
    ensures { result ≡ request_of (seen_resume asked.now) }
{
    Request {
        least_bits: asked.least_bits,
        budget: asked.budget,
        workers: asked.workers,
        share: Share {
            number: asked.share.number,
            count: asked.share.count,
        },
    }
}

// The answer of a cover that goes on, at the margin of its certificate.
fn share_text(
    alloc: Global,
    problem: &Problem,
    cover: &Cover,
    margin_bits: u32,
    asked: &ResumeWords<'_>,
) -> Result<Vec<u8>, AllocError>
    ensures { IfOk result (λ text.
        SaysShare (problem_of problem.now) (seen_resume asked.now) margin_bits cover.now text.items) }
{
    let share = asked.share;
    match &cover.own {
        Own::Nothing => {
            if cover.others == 0 {
                check_run::unsat(alloc, margin_bits)
            } else {
                check_run::part(alloc, share.number, share.count, cover.others, margin_bits)
            }
        }
        Own::Open => check_run::budget(alloc, u64::from(asked.budget)),
        Own::Stuck(atom, state) => check_run::width(alloc, problem, state.space(), *atom),
    }
}

// The certificate and the answer that go on from a cover with open or stuck states.
fn go_on<R: Threads + Wait + Sync, G: Gate + Sync>(
    engine: &Engine<'_, R, G>,
    alloc: Global,
    problem: &Problem,
    base: Base,
    asked: &ResumeWords<'_>,
) -> Result<SearchAnswer, AllocError>
    requires base { IsSomeBase (problem_of problem.now) base }
    requires asked { IsResume (seen_resume asked.now) }
    requires within { IsWithin problem.now }
    ensures { (cert : List ℕ) → IsBase (problem_of problem.now) base.bound cert base →
        IfOk result (TellsMore (problem_of problem.now) base.bound (seen_resume asked.now) cert) }
{
    let (margin_bits, delta_bits) = (base.margin, base.delta);
    match resume(alloc, problem, base, request_of(asked), engine)? {
        Resumed::Point(cert, point) => {
            let text = check_run::delta_sat(alloc, problem, delta_bits, point.space())?;
            Ok(SearchAnswer { cert, text })
        }
        Resumed::Cover(cover) => {
            let text = share_text(alloc, problem, &cover, margin_bits, asked)?;
            Ok(SearchAnswer {
                cert: cover.cert,
                text,
            })
        }
    }
}

// The certificate written again, with this answer.
fn again(alloc: Global, cert: &[u8], text: Vec<u8>) -> Result<SearchAnswer, AllocError>
    ensures cert { IfOk result (λ told. told.cert.items ≡ upgraded cert.now) }
    ensures fits { IfOk result (λ told. length told.cert.items ≤ most_bytes) }
    ensures text { IfOk result (λ told. told.text ≡ text) }
{
    let cert = upgrade(alloc, cert)?;
    Ok(SearchAnswer { cert, text })
}

// The certificate and the answer that go on from a certificate, or its fault.
fn resumed<R: Threads + Wait + Sync, G: Gate + Sync>(
    engine: &Engine<'_, R, G>,
    alloc: Global,
    problem: &Problem,
    bound: Option<u32>,
    cert: &[u8],
    asked: &ResumeWords<'_>,
) -> Result<SearchAnswer, CertFault>
    requires asked { IsResume (seen_resume asked.now) }
    requires within { IsWithin problem.now }
    ensures { IsToldMore (problem_of problem.now) bound (seen_resume asked.now) cert.now result }
{
    match read_base(alloc, problem, bound, cert)? {
        Read::Point(space, delta_bits) => {
            let text = check_run::delta_sat(alloc, problem, delta_bits, &space)?;
            Ok(again(alloc, cert, text)?)
        }
        Read::Closed(margin_bits) => {
            let text = check_run::unsat(alloc, margin_bits)?;
            Ok(again(alloc, cert, text)?)
        }
        Read::Cover(base) => Ok(go_on(engine, alloc, problem, base, asked)?),
    }
}

// The problem of the script's only check, or why there is none.
fn asked_of(alloc: Global, script: &[u8], bound: Option<u32>) -> Result<Problem, Halt>
    ensures question { MatchResult result
        (λ problem. HasProblem bound (problem_of problem) script.now)
        (λ halt. IsHaltOfFault (script_fault bound script.now) halt) }
    ensures within { IfOk result (λ problem. IsWithin problem) }
{
    match read_problem(alloc, script, bound) {
        Ok(problem) => Ok(problem),
        Err(error) => Err(refusal(alloc, &error)),
    }
}

// Ends a run with a certificate under a name and its answer, or with the fault of the one that was read.
fn end_resumed<D: Desk>(
    alloc: Global,
    desk: &mut D,
    out: &str,
    told: Result<SearchAnswer, CertFault>,
) -> Status
    ensures ends { (p : Question) (b : Option ℕ) (words : Asked) (cert : List ℕ) →
        words.out ≡ out.now → IsToldMore p b words cert told →
        RunEnds (CanResume p b words cert) [] (D.sight desk.old) (D.sight desk.new) result }
    ensures same { SameIn (D.sight desk.old) (D.sight desk.new) }
    ensures cause { ResumeHasCause (D.sight desk.old) (D.sight desk.new) result }
{
    match told {
        Ok(told) => finish(desk, out, &told.cert, &told.text),
        Err(fault) => refuse(alloc, desk, fault),
    }
}

/// Goes on from a script and a certificate that were both read: the certificate that was read is checked, and what goes
/// on from it is written under a name, with the answer.
pub fn resume_inputs<R: Threads + Wait + Sync, D: Desk, G: Gate + Sync>(
    engine: &Engine<'_, R, G>,
    alloc: Global,
    desk: &mut D,
    inputs: &Inputs,
    asked: &ResumeWords<'_>,
) -> Status
    requires { IsResume (seen_resume asked.now) }
    ensures ends { (script : List ℕ) → IsScriptHeld inputs.now.script script →
        RunEnds (CanGoOn (seen_resume asked.now) script inputs.now.cert.items) []
        (D.sight desk.old) (D.sight desk.new) result }
    ensures same { SameIn (D.sight desk.old) (D.sight desk.new) }
    ensures cause { ResumeHasCause (D.sight desk.old) (D.sight desk.new) result }
{
    let script = match &inputs.script {
        Some(script) => script,
        None => return end_halted(desk, too_long(alloc)),
    };
    match asked_of(alloc, script, asked.bound) {
        Ok(problem) => {
            let told = resumed(engine, alloc, &problem, asked.bound, &inputs.cert, asked);
            end_resumed(alloc, desk, asked.out, told)
        }
        Err(halt) => end_halted(desk, halt),
    }
}
