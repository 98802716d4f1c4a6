// `solve` and `demo`, from problems to their answers.
ghost use Rattle.std.specs.Prelude.{◌≡◌, [], IfOk, length};
ghost use Rattle.command_line.specs.Words.{AreOptions};
ghost use Rattle.poly_graph.specs.ProblemViews.{problem_of};
ghost use Rattle.check_run.specs.Course.{RunEnds};
ghost use Rattle.check_run.specs.Can.{CanSolve, CanDemo};
ghost use Rattle.check_run.specs.Run.{DemoHasCause, SameIn, SolveHasCause};
ghost use Rattle.check_run.specs.Script.{AreWithin, IsWithin};
ghost use Rattle.cert_model.specs.SessionLaws.{IsSession};
ghost use Rattle.cover_book.specs.Model.{IsOfRoot};
ghost use Rattle.problem_session.specs.Session.{problems_of};
ghost use Rattle.solve_core.specs.Solved.{AreBooksInOneVersion};
ghost use Rattle.dpoly.specs.Search.{search_options as options_of, AreLeftBy, AreSearchAnswers, IsLeftBy, IsSearchAnswer};

use crate::answers::{SearchAnswer, search_options, tell, tell_all};
use check_run::{Status, finish};
use command_line::Options;
use cover_book::Book;
use desk::Desk;
use poly_graph::Problem;
use problem_session::Session;
use solve_core::Gate;
use std::alloc::{AllocError, Global};
use std::sync::Wait;
use std::thread::Threads;

// The book that a search for the problem leaves.
fn search<R: Threads + Wait + Sync, G: Gate + Sync>(
    rt: &R,
    alloc: Global,
    problem: &Problem,
    options: &Options,
    gate: &G,
) -> Result<Book, AllocError>
    requires options { AreOptions options.now }
    requires within { IsWithin problem.now }
    ensures problem { IfOk result (λ b. b.problem ≡ problem.now) }
    ensures left { IfOk result (λ b. IsLeftBy options.now b) }
    ensures alone { IfOk result (λ b. b.kept ≡ []) }
    ensures root { IfOk result (λ b. IsOfRoot b) }
{
    let asked = search_options(options);
    solve_core::solve(rt, alloc, problem, &asked, gate)
}

// The certificate of a problem, and its answer.
fn solved<R: Threads + Wait + Sync, G: Gate + Sync>(
    rt: &R,
    alloc: Global,
    problem: &Problem,
    options: &Options,
    gate: &G,
) -> Result<SearchAnswer, AllocError>
    requires options { AreOptions options.now }
    requires within { IsWithin problem.now }
    ensures { IfOk result (λ told. IsSearchAnswer (problem_of problem.now) options.now told) }
{
    let book = search(rt, alloc, problem, options, gate)?;
    tell(alloc, &book, options)
}

// The books that searches leave at the checks of a session.
fn search_all<R: Threads + Wait + Sync, G: Gate + Sync>(
    rt: &R,
    alloc: Global,
    session: &Session,
    options: &Options,
    gate: &G,
) -> Result<Vec<Book>, AllocError>
    requires options { AreOptions options.now }
    requires session { IsSession (problems_of session.now) }
    requires within { AreWithin session.now }
    ensures books { IfOk result (λ v.
        AreBooksInOneVersion (options_of options.now) session.now v.items) }
    ensures left { IfOk result (λ v. AreLeftBy options.now v.items) }
{
    let asked = search_options(options);
    solve_core::solve_all(rt, alloc, session, &asked, gate)
}

// The certificate of the checks of a session, and their answers.
fn all_solved<R: Threads + Wait + Sync, G: Gate + Sync>(
    rt: &R,
    alloc: Global,
    session: &Session,
    options: &Options,
    gate: &G,
) -> Result<SearchAnswer, AllocError>
    requires options { AreOptions options.now }
    requires session { IsSession (problems_of session.now) }
    requires within { AreWithin session.now }
    ensures { IfOk result (λ told.
        AreSearchAnswers (problems_of session.now) options.now told) }
{
    if session.len() == 1 {
        let problem = session.first(alloc)?;
        return solved(rt, alloc, &problem, options, gate);
    }
    let books = search_all(rt, alloc, session, options, gate)?;
    tell_all(alloc, &books, options)
}

/// Solves the checks of a session: their certificate under a name, and the answers.
pub fn solve_session<R: Threads + Wait + Sync, D: Desk, G: Gate + Sync>(
    rt: &R,
    alloc: Global,
    desk: &mut D,
    name: &str,
    session: &Session,
    options: Options,
    gate: &G,
) -> Status
    requires options { AreOptions options }
    requires session { IsSession (problems_of session.now) }
    requires within { AreWithin session.now }
    ensures ends { RunEnds (CanSolve (problems_of session.now) options name.now) []
        (D.sight desk.old) (D.sight desk.new) result }
    ensures same { SameIn (D.sight desk.old) (D.sight desk.new) }
    ensures cause { SolveHasCause (D.sight desk.old) (D.sight desk.new) result }
{
    match all_solved(rt, alloc, session, &options, gate) {
        Ok(told) => finish(desk, name, &told.cert, &told.text),
        Err(_) => Status::NoMemory,
    }
}

/// Solves the problem of a script, and answers how large the script is and how the search ended.
pub fn solve_demo<R: Threads + Wait + Sync, D: Desk, G: Gate + Sync>(
    rt: &R,
    alloc: Global,
    desk: &mut D,
    name: &str,
    script: &[u8],
    problem: &Problem,
    options: Options,
    gate: &G,
) -> Status
    requires options { AreOptions options }
    requires within { IsWithin problem.now }
    ensures ends { RunEnds (CanDemo (problem_of problem.now) options name.now script.now) []
        (D.sight desk.old) (D.sight desk.new) result }
    ensures same { SameIn (D.sight desk.old) (D.sight desk.new) }
    ensures cause { DemoHasCause (D.sight desk.old) (D.sight desk.new) result }
{
    match solved(rt, alloc, problem, &options, gate) {
        Ok(told) => match check_run::demo(
            alloc,
            script.len() as u64,
            problem.atoms().len() as u64,
            &told.text,
        ) {
            Ok(text) => finish(desk, name, &told.cert, &text),
            Err(_) => Status::NoMemory,
        },
        Err(_) => Status::NoMemory,
    }
}
