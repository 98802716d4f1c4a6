// Covers that go on.
ghost use Rattle.std.specs.Prelude.{ℕ, List, IfOk};
ghost use Rattle.poly_graph.specs.ProblemViews.{problem_of};
ghost use Rattle.cover_book.specs.Limits.{IsWithinLimits};
ghost use Rattle.cert_base.specs.Base.{IsBase};
ghost use Rattle.cert_resume.specs.Answer.{IsResumedFrom};
ghost use Rattle.cert_resume.specs.Request.{IsShare, options_of};

use crate::leaf::Engine;
use crate::walk::walk;
use cert_base::Base;
use cert_resume::{Cover, Going, Request, Resumed, Task, begun, is_whole, options_with, written};
use cert_text::write_point;
use poly_graph::Problem;
use solve_core::Gate;
use std::alloc::{AllocError, Global};
use std::sync::Wait;
use std::thread::Threads;

/// Goes on from a cover that was read: each state of the share that it left open or stuck is searched on, with the budget
/// that is left, by a book that opens in it with all lemmas so far; the tree of the book takes the place of the line that
/// left the state, and what it learned follows the lemmas. The other states stay as they were. Where a point is found,
/// its certificate is all. Out of memory is its one error.
pub fn resume<R: Threads + Wait + Sync, G: Gate + Sync>(
    alloc: Global,
    problem: &Problem,
    base: Base,
    request: Request,
    engine: &Engine<'_, R, G>,
) -> Result<Resumed, AllocError>
    requires limits { IsWithinLimits problem.now (options_of base request) }
    requires share { IsShare request.share }
    requires read { (bytes : List ℕ) × IsBase (problem_of problem.now) base.bound bytes base }
    ensures { IfOk result (IsResumedFrom (problem_of problem.now) base request) }
{
    is_whole(problem);
    let options = options_with(&base, request, request.budget);
    let share = request.share;
    let task = Task {
        problem,
        options,
        share,
    };
    let Base {
        lemma_lines,
        lemmas,
        main,
        left,
        ..
    } = base;
    let mut going = begun(alloc, lemmas, request.budget, options.version);
    match walk(&mut going, &task, engine, &main, &left)? {
        Some(point) => {
            let options = options.in_version(going.version);
            let cert = write_point(alloc, problem, &options, &point)?;
            Ok(Resumed::Point(cert, point))
        }
        None => {
            let cert = written(alloc, &options, &lemma_lines, &going)?;
            let Going { own, others, .. } = going;
            Ok(Resumed::Cover(Cover { cert, own, others }))
        }
    }
}
