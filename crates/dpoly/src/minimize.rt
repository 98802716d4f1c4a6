// `minimize`, from the problem of a script with a goal to its answer.
ghost use Rattle.std.specs.Prelude.{◌≡◌, ◌<◌, ℕ, [], IfOk, length};
ghost use Rattle.command_line.specs.Seen.{seen_minimize};
ghost use Rattle.command_line.specs.Words.{IsMinimize};
ghost use Rattle.poly_graph.specs.ProblemViews.{Parts, problem_of};
ghost use Rattle.cover_data.specs.Margins.{AreMargins, margins_of};
ghost use Rattle.cover_book.specs.Limits.{IsWithinLimits};
ghost use Rattle.least_search.specs.Found.{IsBookOf, IsFound, IsLeast};
ghost use Rattle.check_run.specs.Course.{RunEnds};
ghost use Rattle.check_run.specs.Minimized.{CanMinimize};
ghost use Rattle.check_run.specs.Run.{MinimizeHasCause, SameIn};
ghost use Rattle.check_run.specs.Script.{IsAtomOf, IsWithin};
ghost use Rattle.dpoly.specs.Minimize.{IsAcceptedFor, IsFoundAnswer, IsMinimizeAnswer, first_options, told_cause};

use crate::answers::{SearchAnswer, search_options, tell_left};
use crate::leaf::Engine;
use check_run::{Cause, GoalBounds, Status, end_no_goal, finish, goal_bounds};
use command_line::{MinimizeWords, Options as Asked};
use cover_book::Book;
use cover_data::Options;
use desk::Desk;
use least_search::{Ending, Found, Least, Lower, minimize};
use least_text::{write_limited, write_over};
use poly_graph::Problem;
use solve_core::{Gate, search_on};
use std::alloc::{AllocError, Global};
use std::sync::Wait;
use std::thread::Threads;

// The version of the format in which the first search begins.
const FIRST: u32 = 2;

// What the words ask of the first search.
fn first_options(options: &Asked) -> Options
    ensures { result ≡ first_options options.now }
{
    search_options(options).in_version(FIRST)
}

// The book that a search for a problem with these options leaves, which begins in their version.
fn search_with<R: Threads + Wait + Sync, G: Gate + Sync>(
    engine: &Engine<'_, R, G>,
    alloc: Global,
    problem: &Problem,
    options: &Options,
) -> Result<Book, AllocError>
    requires { IsWithinLimits problem.now options.now }
    ensures { IfOk result (IsBookOf problem.now options.now) }
{
    let opened = Book::new(alloc, problem.try_clone(alloc)?, *options)?;
    let book = search_on(engine.rt, alloc, opened, engine.gate)?;
    Ok(book)
}

// What a search for the least value finds.
fn search_least<R: Threads + Wait + Sync, G: Gate + Sync>(
    engine: &Engine<'_, R, G>,
    alloc: Global,
    problem: &Problem,
    goal: u32,
    asked: &MinimizeWords<'_>,
) -> Result<Least, AllocError>
    requires asked { IsMinimize (seen_minimize asked.now) }
    requires within { IsWithin problem.now }
    requires goal { goal < length problem.now.atoms }
    ensures { IfOk result
        (IsLeast problem.now goal asked.now.gap_bits (first_options asked.now.options)) }
{
    let options = first_options(&asked.options);
    let searcher = |alloc: Global, problem: &Problem, options: &Options| -> Result<Book, AllocError>
        requires { IsWithinLimits problem.now options.now }
        ensures { IfOk result (IsBookOf problem.now options.now) }
    { search_with(engine, alloc, problem, options) };
    minimize(&searcher, alloc, problem, goal, asked.gap_bits, &options)
}

// Why the search ended, as it is told.
fn cause_of(ending: Ending) -> Cause
    ensures { result ≡ told_cause ending }
{
    match ending {
        Ending::Minimum => Cause::Near,
        Ending::Budget => Cause::Spent,
        Ending::Width => Cause::Narrow,
        Ending::Limit => Cause::NoLimit,
    }
}

// The certificate of what was found.
fn certificate(alloc: Global, options: &Options, found: &Found) -> Result<Vec<u8>, AllocError>
    requires { AreMargins (margins_of options.now) }
    ensures { (q : Parts) (g gap : ℕ) → IsFound q g gap options.now found.now →
        IfOk result (λ cert. IsAcceptedFor q g options.now found.now cert.items) }
{
    let point = found.point.space();
    match &found.lower {
        Lower::Root(bound) => {
            let options = options.in_version(found.version);
            write_over(alloc, &options, *bound, point)
        }
        Lower::Limit(book, bits, bound) => write_limited(alloc, book, *bits, *bound, point),
    }
}

// The certificate and the answer of what was found.
fn tell_found(
    alloc: Global,
    problem: &Problem,
    asked: &MinimizeWords<'_>,
    found: &Found,
) -> Result<SearchAnswer, AllocError>
    requires { IsMinimize (seen_minimize asked.now) }
    ensures { (g : ℕ) →
        IsFound problem.now g asked.now.gap_bits (first_options asked.now.options) found.now →
        IfOk result (IsFoundAnswer (problem_of problem.now) g (seen_minimize asked.now)) }
{
    let cert = certificate(alloc, &first_options(&asked.options), found)?;
    let cause = cause_of(found.ending);
    let budget = u64::from(asked.options.budget);
    let bounds = GoalBounds {
        lower: found.lower.bound(),
        upper: found.upper,
    };
    let text = goal_bounds(alloc, problem, cause, budget, bounds, found.point.space())?;
    Ok(SearchAnswer { cert, text })
}

// The certificate and the answer of a problem, whose goal is the term of this atom.
fn minimize_problem<R: Threads + Wait + Sync, G: Gate + Sync>(
    engine: &Engine<'_, R, G>,
    alloc: Global,
    problem: &Problem,
    goal: u32,
    asked: &MinimizeWords<'_>,
) -> Result<SearchAnswer, AllocError>
    requires asked { IsMinimize (seen_minimize asked.now) }
    requires within { IsWithin problem.now }
    requires goal { goal < length problem.now.atoms }
    ensures { IfOk result
        (IsMinimizeAnswer (problem_of problem.now) goal (seen_minimize asked.now)) }
{
    match search_least(engine, alloc, problem, goal, asked)? {
        Least::NoPoint(book) => tell_left(alloc, &book, &asked.options),
        Least::Found(found) => tell_found(alloc, problem, asked, &found),
    }
}

/// Finds the least value of the goal of a script that was read, the term of this atom: its certificate, and the answer.
pub fn minimize_script<R: Threads + Wait + Sync, D: Desk, G: Gate + Sync>(
    engine: &Engine<'_, R, G>,
    alloc: Global,
    desk: &mut D,
    problem: &Problem,
    goal: Option<u32>,
    asked: &MinimizeWords<'_>,
) -> Status
    requires asked { IsMinimize (seen_minimize asked.now) }
    requires within { IsWithin problem.now }
    requires goal { IsAtomOf goal problem.now }
    ensures ends { RunEnds (CanMinimize goal (problem_of problem.now) (seen_minimize asked.now)) []
        (D.sight desk.old) (D.sight desk.new) result }
    ensures same { SameIn (D.sight desk.old) (D.sight desk.new) }
    ensures cause { MinimizeHasCause (D.sight desk.old) (D.sight desk.new) result }
{
    let Some(goal) = goal else {
        return end_no_goal(desk);
    };
    match minimize_problem(engine, alloc, problem, goal, asked) {
        Ok(told) => finish(desk, asked.cert, &told.cert, &told.text),
        Err(_) => Status::NoMemory,
    }
}
