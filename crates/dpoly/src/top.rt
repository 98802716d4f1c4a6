// The run of the whole program.
ghost use Rattle.std.specs.Prelude.{◌≡◌, None};
ghost use Rattle.command_line.specs.Words.{AreOptions, IsDemo, IsInRange, IsMinimize, IsPlan, IsResume};
ghost use Rattle.command_line.specs.Seen.{seen, seen_demo, seen_minimize, seen_plan, seen_resume};
ghost use Rattle.check_run.specs.Run.{asked_run, CertIsRead, command_in, demo_run, HasCause, HasCourse, join_run, minimize_run, plan_run, resume_run, run, SameIn, ScriptIsRead, solve_run, StatusIsDue, StatusIsShown, upgrade_run};
ghost use Rattle.check_run.specs.Headline.{AnswersAreTrue, DeltaSatIsTrue, PlanIsTrue, RefusalIsTrue, UnsatIsTrue, UpgradeIsTrue};

use crate::join::join_inputs;
use crate::leaf::Engine;
use crate::minimize::minimize_script;
use crate::plan::plan_session;
use crate::resume::resume_inputs;
use crate::solve::{solve_demo, solve_session};
use crate::upgrade_goal::upgrade_read;
use check_run::{
    Status, end_halted, fetch_both, fetch_goal, fetch_session, fetch_several, fetch_with_goal,
    run_check, say,
};
use command_line::{
    DemoWords, JoinWords, MinimizeWords, PlanWords, Refused, Request, ResumeWords, SolveWords,
    UpgradeWords, read_words,
};
use desk::Desk;
use gen_script::make;
use problem_build::{Reader, read_problem};
use script_fault::ReadError;
use solve_core::Gate;
use std::alloc::Global;
use std::sync::Wait;
use std::thread::Threads;

// Solves a script: its certificate, and then the answers of its checks.
fn run_solve<R: Threads + Wait + Sync, D: Desk, G: Gate + Sync>(
    rt: &R,
    alloc: Global,
    desk: &mut D,
    asked: SolveWords<'_>,
    gate: &G,
) -> Status
    requires { AreOptions asked.options }
    ensures cause { HasCause (solve_run asked.entry (D.sight desk.old) (D.sight desk.new) result) }
    ensures script { ScriptIsRead
        (solve_run asked.entry (D.sight desk.old) (D.sight desk.new) result) }
    ensures course { HasCourse
        (solve_run asked.entry (D.sight desk.old) (D.sight desk.new) result) }
{
    let SolveWords {
        script,
        cert,
        options,
    } = asked;
    match fetch_session(&Reader, alloc, desk, script, options.bound) {
        Ok(session) => solve_session(rt, alloc, desk, cert, &session, options, gate),
        Err(stop) => end_halted(desk, stop),
    }
}

// Finds the least value of the goal of a script with one check.
fn run_minimize<R: Threads + Wait + Sync, D: Desk, G: Gate + Sync>(
    rt: &R,
    alloc: Global,
    desk: &mut D,
    asked: MinimizeWords<'_>,
    gate: &G,
) -> Status
    requires { IsMinimize (seen_minimize asked) }
    ensures cause { HasCause
        (minimize_run asked.entry (D.sight desk.old) (D.sight desk.new) result) }
    ensures script { ScriptIsRead
        (minimize_run asked.entry (D.sight desk.old) (D.sight desk.new) result) }
    ensures course { HasCourse
        (minimize_run asked.entry (D.sight desk.old) (D.sight desk.new) result) }
{
    let engine = Engine { rt, gate };
    match fetch_goal(&Reader, alloc, desk, asked.script, asked.options.bound) {
        Ok(read) => minimize_script(&engine, alloc, desk, &read.0, read.1, &asked),
        Err(stop) => end_halted(desk, stop),
    }
}

// Writes a certificate of a script in the newest version.
fn run_upgrade<D: Desk>(alloc: Global, desk: &mut D, asked: UpgradeWords<'_>) -> Status
    ensures cause { HasCause
        (upgrade_run asked.entry (D.sight desk.old) (D.sight desk.new) result) }
    ensures script { ScriptIsRead
        (upgrade_run asked.entry (D.sight desk.old) (D.sight desk.new) result) }
    ensures cert { CertIsRead
        (upgrade_run asked.entry (D.sight desk.old) (D.sight desk.new) result) }
    ensures course { HasCourse
        (upgrade_run asked.entry (D.sight desk.old) (D.sight desk.new) result) }
{
    let UpgradeWords {
        script,
        cert,
        out,
        bound,
    } = asked;
    match fetch_with_goal(&Reader, alloc, desk, script, bound) {
        Ok(read) => upgrade_read(alloc, desk, cert, out, &read, bound),
        Err(stop) => end_halted(desk, stop),
    }
}

// Tells the least width that each check of a script needs.
fn run_plan<D: Desk>(alloc: Global, desk: &mut D, asked: PlanWords<'_>) -> Status
    requires { IsPlan (seen_plan asked) }
    ensures cause { HasCause (plan_run asked.entry (D.sight desk.old) (D.sight desk.new) result) }
    ensures script { ScriptIsRead
        (plan_run asked.entry (D.sight desk.old) (D.sight desk.new) result) }
    ensures course { HasCourse (plan_run asked.entry (D.sight desk.old) (D.sight desk.new) result) }
{
    let PlanWords {
        script,
        delta_bits,
        margin_bits,
        bound,
    } = asked;
    match fetch_session(&Reader, alloc, desk, script, bound) {
        Ok(session) => plan_session(alloc, desk, &session, delta_bits, margin_bits),
        Err(stop) => end_halted(desk, stop),
    }
}

// Goes on from a certificate.
fn run_resume<R: Threads + Wait + Sync, D: Desk, G: Gate + Sync>(
    rt: &R,
    alloc: Global,
    desk: &mut D,
    asked: ResumeWords<'_>,
    gate: &G,
) -> Status
    requires { IsResume (seen_resume asked) }
    ensures cause { HasCause
        (resume_run asked.entry (D.sight desk.old) (D.sight desk.new) result) }
    ensures script { ScriptIsRead
        (resume_run asked.entry (D.sight desk.old) (D.sight desk.new) result) }
    ensures cert { CertIsRead
        (resume_run asked.entry (D.sight desk.old) (D.sight desk.new) result) }
    ensures course { HasCourse
        (resume_run asked.entry (D.sight desk.old) (D.sight desk.new) result) }
{
    let engine = Engine { rt, gate };
    match fetch_both(alloc, desk, asked.script, asked.cert) {
        Ok(inputs) => resume_inputs(&engine, alloc, desk, &inputs, &asked),
        Err(unread) => unread.status(),
    }
}

// Makes one certificate of several.
fn run_join<D: Desk>(alloc: Global, desk: &mut D, asked: JoinWords<'_>) -> Status
    ensures cause { HasCause (join_run asked.entry (D.sight desk.old) (D.sight desk.new) result) }
    ensures script { ScriptIsRead
        (join_run asked.entry (D.sight desk.old) (D.sight desk.new) result) }
    ensures course { HasCourse (join_run asked.entry (D.sight desk.old) (D.sight desk.new) result) }
{
    match fetch_several(alloc, desk, &asked) {
        Ok(script) => join_inputs(alloc, desk, &script, asked.bound, asked.certs.len()),
        Err(status) => status,
    }
}

// Makes a script, which has no fault, and solves it.
fn run_demo<R: Threads + Wait + Sync, D: Desk, G: Gate + Sync>(
    rt: &R,
    alloc: Global,
    desk: &mut D,
    asked: DemoWords<'_>,
    gate: &G,
) -> Status
    requires { IsDemo (seen_demo asked) }
    ensures cause { HasCause (demo_run asked.entry (D.sight desk.old) (D.sight desk.new) result) }
    ensures same { SameIn (D.sight desk.old) (D.sight desk.new) }
    ensures course { HasCourse (demo_run asked.entry (D.sight desk.old) (D.sight desk.new) result) }
{
    let DemoWords {
        seed,
        size,
        cert,
        options,
    } = asked;
    let Ok(script) = make(alloc, seed, size) else {
        return Status::NoMemory;
    };
    match read_problem(alloc, &script, options.bound) {
        Ok(problem) => solve_demo(rt, alloc, desk, cert, &script, &problem, options, gate),
        Err(ReadError::Memory) => Status::NoMemory,
        Err(ReadError::Fault(_)) => unreachable!(),
    }
}

// Does what the words ask for.
fn run_command<R: Threads + Wait + Sync, D: Desk, G: Gate + Sync>(
    rt: &R,
    alloc: Global,
    desk: &mut D,
    asked: Request<'_>,
    gate: &G,
) -> Status
    requires { IsInRange (seen asked) }
    ensures cause { HasCause (asked_run asked.entry (D.sight desk.old) (D.sight desk.new) result) }
    ensures script { ScriptIsRead
        (asked_run asked.entry (D.sight desk.old) (D.sight desk.new) result) }
    ensures cert { CertIsRead (asked_run asked.entry (D.sight desk.old) (D.sight desk.new) result) }
    ensures course { HasCourse
        (asked_run asked.entry (D.sight desk.old) (D.sight desk.new) result) }
{
    match asked {
        Request::Solve(asked) => run_solve(rt, alloc, desk, asked, gate),
        Request::Minimize(asked) => run_minimize(rt, alloc, desk, asked, gate),
        Request::Check(asked) => run_check(&Reader, alloc, desk, asked),
        Request::Demo(asked) => run_demo(rt, alloc, desk, asked, gate),
        Request::Upgrade(asked) => run_upgrade(alloc, desk, asked),
        Request::Plan(asked) => run_plan(alloc, desk, asked),
        Request::Resume(asked) => run_resume(rt, alloc, desk, asked, gate),
        Request::Join(asked) => run_join(alloc, desk, asked),
    }
}

/// Runs the whole program: the words of its call, of which the first is its name, over the ports of a desk.
///
/// `solve SCRIPT CERT` reads a script and writes a certificate of its checks, and then their answers, one after the other.
/// `minimize SCRIPT CERT` does so for the least value of the script's goal.
/// `check SCRIPT CERT` reads a script and a certificate, and answers whether the certificate is accepted, and what it shows
/// of each check. `upgrade SCRIPT CERT OUT` does so too, and writes a certificate that is accepted in the newest version of
/// its format. `demo SEED SIZE CERT` makes a script, solves it, and answers how large it was and how the search ended.
/// `plan SCRIPT` reads a script, and answers of each check with which least width `solve` never answers `unknown width` of
/// it. `resume SCRIPT CERT OUT` reads a script and a certificate, goes on where that is open or stuck, and writes the whole.
/// `join SCRIPT OUT CERT CERT` reads a script and two or more certificates of its only check, makes one of them, checks it,
/// and answers what it shows; it is written whole or not at all. The gate is called when work on a box begins and ends.
pub fn run_top<R: Threads + Wait + Sync, D: Desk, G: Gate + Sync>(
    rt: &R,
    alloc: Global,
    words: &[String],
    desk: &mut D,
    gate: &G,
) -> Status
    // Whatever the desk shows: a status has its cause, refused words read nothing, and a script, and a certificate that
    // is confirmed or written again, are read to their ends.
    ensures cause { HasCause (run words.now (D.sight desk.old) (D.sight desk.new) result) }
    ensures unread { command_in words.now ≡ None → SameIn (D.sight desk.old) (D.sight desk.new) }
    ensures script { ScriptIsRead (run words.now (D.sight desk.old) (D.sight desk.new) result) }
    ensures cert { CertIsRead (run words.now (D.sight desk.old) (D.sight desk.new) result) }

    // Of what the desk shows: each status shows what its row says, and where neither side fails it is the one that is
    // due, or there was no memory.
    ensures shows { StatusIsShown (run words.now (D.sight desk.old) (D.sight desk.new) result) }
    ensures complete { StatusIsDue (run words.now (D.sight desk.old) (D.sight desk.new) result) }

    // What is answered of each check of the script is true of what is in force at it. Of a script with one check the text
    // alone tells what it says.
    ensures answers { AnswersAreTrue (run words.now (D.sight desk.old) (D.sight desk.new) result) }
    ensures unsat { UnsatIsTrue (run words.now (D.sight desk.old) (D.sight desk.new) result) }
    ensures delta_sat { DeltaSatIsTrue
        (run words.now (D.sight desk.old) (D.sight desk.new) result) }

    // A certificate that is refused has the fault that is answered, and where several are accepted and yet not joined, each
    // is accepted. What is written again is accepted with the values of the certificate that was read.
    ensures refused { RefusalIsTrue (run words.now (D.sight desk.old) (D.sight desk.new) result) }
    ensures upgraded { UpgradeIsTrue (run words.now (D.sight desk.old) (D.sight desk.new) result) }

    // What is planned is the plan of each check's problem, and with the width that it names no run of `solve` on this
    // script answers `unknown width` of the check.
    ensures planned { PlanIsTrue (run words.now (D.sight desk.old) (D.sight desk.new) result) }
{
    match read_words(alloc, words) {
        Ok(asked) => run_command(rt, alloc, desk, asked, gate),
        Err(Refused::Usage) => say(desk, Status::Usage, b"usage fault\n"),
        Err(Refused::Memory) => Status::NoMemory,
    }
}
