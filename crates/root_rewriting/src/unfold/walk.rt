// The walk over an expression: its tree, with all that it is made of. What waits for the trees of parts stands on a stack on
// the heap, so that calls may nest as deep as there is memory.
ghost use Rattle.smt_sexp.specs.Arena.{expression_at};
ghost use Rattle.root_rewriting.specs.Ahead.{Counts, Opens, reached_here};
ghost use Rattle.root_rewriting.specs.TreeNames.{tree_here};
ghost use Rattle.root_rewriting.specs.Nodes.{trees_in};
ghost use Rattle.script_roots.specs.Reached.{reached_in};
ghost use Rattle.root_rewriting.specs.Walking.{IsReached, Makes, Reaches};

use crate::unfold::expressions::enter;
use crate::unfold::frames::{Frame, Next, Scope, Source, resume};
use crate::unfold::locals::Locals;
use crate::unfold::stop::Stop;
use crate::unfold::trees::Trees;
use script_fault::MOST_SIZE;

/// The trees that are made, and how many expressions were reached for them.
#[derive(Drop)]
pub(crate) struct Unfolded<'a> {
    pub(crate) trees: Trees<'a>,
    pub(crate) reached: u32,
}

// The expression at a place is reached and entered.
fn reach<'p, 'a>(
    source: &Source<'_, 'p, 'a>,
    unfolded: &mut Unfolded<'a>,
    scope: Scope<'a>,
    at: usize,
) -> Result<Next<'p, 'a>, Stop>
    ensures walks { Reaches (trees_in unfolded.old.trees) (trees_in unfolded.new.trees)
        source.now scope.entry at result }
    ensures counts { IsReached unfolded.old.reached unfolded.new.reached result }
    ensures opens { Opens source.now scope.entry
        (λ bodies. reached_in bodies (expression_at source.now.sexps.now at)) result }
{
    if unfolded.reached >= MOST_SIZE {
        return Err(Stop::TooLarge);
    }
    unfolded.reached += 1;
    match enter(source, &mut unfolded.trees, scope, at) {
        Ok(next) => Ok(next),
        Err(_) => Err(Stop::Memory),
    }
}

/// The tree of the expression at a place, where the names of the top are seen.
pub(crate) fn tree<'p, 'a>(
    source: &Source<'_, 'p, 'a>,
    unfolded: &mut Unfolded<'a>,
    at: usize,
) -> Result<usize, Stop>
    ensures walks { Makes (trees_in unfolded.old.trees) (trees_in unfolded.new.trees)
        (tree_here source.now.sexps.now source.now.top.now at) result }
    ensures counts { Counts unfolded.old.reached unfolded.new.reached
        (reached_here source.now.sexps.now source.now.top.now at) result }
{
    let scope = Scope::new(source.alloc, source.top.len(), Locals::new(source.alloc))?;
    let mut stack: Vec<Frame<'p, 'a>> = Vec::new(source.alloc);
    let mut next = Next::Enter(scope, at);
    'turns: loop {
        next = match next {
            Next::Enter(scope, at) => reach(source, unfolded, scope, at)?,
            Next::Wait(frame, scope, at) => {
                stack.push(frame)?;
                reach(source, unfolded, scope, at)?
            }
            Next::Back(node) => match stack.pop() {
                Some(frame) => resume(source, &mut unfolded.trees, frame, node)?,
                None => return Ok(node),
            },
        };
    }
}
