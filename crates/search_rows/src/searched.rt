// A search for the problem of a script.
ghost use Rattle.std.specs.Prelude.{◌≤◌};

use cover_book::Book;
use cover_data::Options;
use problem_build::read_problem;
use sample_problems::{USUAL, small};
use solve_core::{Gate, solve};
use std::alloc::Global;
use std::sync::Wait;
use std::thread::Threads;

// The book in which so many workers have searched, with so many branches at most; none where memory ran out.
pub(crate) fn searched<R: Threads + Wait + Sync, G: Gate + Sync>(
    rt: &R,
    alloc: Global,
    script: &str,
    budget: u32,
    workers: u32,
    gate: &G,
) -> Option<Book>
    requires { budget ≤ 65536 }
{
    let options = Options {
        budget,
        workers,
        ..USUAL
    };
    let Ok(problem) = read_problem(alloc, script.as_bytes(), None) else {
        return None;
    };
    match small(problem) {
        Some(problem) => solve(rt, alloc, &problem, &options, gate).ok(),
        None => None,
    }
}
