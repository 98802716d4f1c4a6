// The walk over an expression: what it stands for, and all that is made on the way, in reading order. What waits for
// the values of parts stands on a stack on the heap, so that calls may nest as deep as there is memory.
ghost use Rattle.std.specs.Prelude.{◌≡◌};
ghost use Rattle.problem_build.specs.Names.{TopFits, bounding_at, work_at};
ghost use Rattle.problem_build.specs.Walking.{IsWorkValue};

use crate::expressions::enter;
use crate::frames::{Frame, Next, Scope, resume};
use crate::locals::Locals;
use crate::top::TopTable;
use smt_sexp::Sexps;
use std::alloc::Global;
use term_build::Stop;
use value_build::{Maker, Value};

/// What the expression at a place stands for, where the names of the top are seen.
pub(crate) fn expression<'p, 'a>(
    alloc: Global,
    sexps: &'a Sexps,
    top: &TopTable<'p, 'a>,
    maker: &mut Maker,
    at: usize,
) -> Result<Value, Stop>
    requires { TopFits maker.old.made.sorts top.now }
    ensures walks { IsWorkValue maker.old maker.new
        (work_at sexps.now top.now at) (bounding_at sexps.now top.now at) result }
    ensures sorts { maker.new.made.sorts ≡ maker.old.made.sorts }
{
    let scope = Scope::new(alloc, top.len(), Locals::new(alloc))?;
    let mut stack: Vec<Frame<'p, 'a>> = Vec::new(alloc);
    let mut next = Next::Enter(scope, at);
    'turns: loop {
        next = match next {
            Next::Enter(scope, at) => enter(alloc, sexps, top, maker, scope, at)?,
            Next::Wait(frame, scope, at) => {
                stack.push(frame)?;
                enter(alloc, sexps, top, maker, scope, at)?
            }
            Next::Back(value) => match stack.pop() {
                Some(frame) => resume(alloc, sexps, maker, frame, value)?,
                None => return Ok(value),
            },
        };
    }
}
