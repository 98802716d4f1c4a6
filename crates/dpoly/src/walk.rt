// The walk over the lines of a main tree that was read.
ghost use Rattle.std.specs.Prelude.{◌≡◌, map};
ghost use Rattle.cover_line.specs.Views.{line_of};
ghost use Rattle.cert_resumed.specs.Resumed.{is_leaving};
ghost use Rattle.cert_resume.specs.Calls.{Walks};
ghost use Rattle.cert_resume.specs.Going.{CanBeResumed, IsBegun};
ghost use Rattle.cert_resume.specs.Request.{IsShare, share_of};

use crate::leaf::{Engine, pass_leaf};
use cert_resume::{Going, Task};
use cert_text::append_rule;
use cover_data::{Point, State};
use cover_line::Rule;
use solve_core::Gate;
use std::alloc::AllocError;
use std::sync::Wait;
use std::thread::Threads;

// Whether the rule leaves its state open or stuck.
fn is_leaving(rule: &Rule) -> bool
    ensures { result ≡ is_leaving (line_of rule.now) }
{
    matches!(rule, Rule::Stay(_))
}

/// Goes through the lines of a main tree, of which those that leave their states leave these. Answers the point that was
/// found, behind which nothing is gone through.
pub fn walk<R: Threads + Wait + Sync, G: Gate + Sync>(
    going: &mut Going,
    task: &Task<'_>,
    engine: &Engine<'_, R, G>,
    main: &[Rule],
    left: &[State],
) -> Result<Option<Point>, AllocError>
    requires share { IsShare task.now.share }
    requires begun { IsBegun task.now.problem.now task.now.options going.old }
    requires can { CanBeResumed task.now.problem.now task.now.options
        going.old.lemmas.items (map line_of main.now) left.now }
    ensures { let start = going.old.lemmas.items in
        Walks task.now.problem.now task.now.options (share_of task.now.share) start
        (map line_of main.now) left.now going.new result }
{
    let mut place = 0;
    for rule in main {
        if is_leaving(rule) {
            match pass_leaf(going, task, engine, place, rule, &left[place])? {
                Some(point) => return Ok(Some(point)),
                None => place += 1,
            }
        } else {
            append_rule(&mut going.main, rule)?;
        }
    }
    Ok(None)
}
