// Ends by sums of squares: at which boxes they are searched for. A heuristic that promises nothing; that an end is lawful is
// what the patch ensures.
ghost use Rattle.std.specs.Prelude.{◌≡◌, IfOk, true, false};
ghost use Rattle.cover_data.specs.Runs.{IsClosed};
ghost use Rattle.box_worker.specs.Attempts.{Continues};

use crate::attempt;
use crate::patience::Patience;
use cover_rule::Patch;
use poly_graph::Problem;
use square_search::{Boxed, Proposal, Proposals};
use std::alloc::{AllocError, Global};

/// After a search in vain the next 1, 2, 4 boxes and so on go without one, at most so many.
const MOST_LEFT_OUT: u32 = 64;

/// A box pays so many steps for each node of the problem and each pair of its axes: about as long as the other work on it
/// takes.
const STEPS_A_NODE: usize = 1024;

/// So many steps are paid at first: about 0.3 seconds.
const FIRST_SAVED: i64 = 1 << 29;

/// At most so many are saved.
const MOST_SAVED: i64 = 1 << 31;

/// So many proposals are tried at a box, at most.
const MOST_PROPOSALS: u32 = 64;

/// Since version 5 of the format a state may be ended by squares.
const FIRST_VERSION: u32 = 5;

/// How searches for squares went, and how many steps boxes have paid for later ones.
#[derive(Clone, Copy)]
pub struct Squaring {
    patience: Patience,
    saved: i64,
}

// How many steps a box of the problem pays.
fn steps_of_box(problem: &Problem) -> i64 {
    let axes = problem.axes().len();
    let nodes = problem.graph().len().saturating_add(problem.forms().len());
    let size = axes.saturating_mul(axes).saturating_add(nodes);
    i64::try_from(size.saturating_mul(STEPS_A_NODE)).unwrap_or(MOST_SAVED)
}

impl Squaring {
    /// There were none yet.
    pub fn new() -> Squaring {
        Squaring {
            patience: Patience::new(MOST_LEFT_OUT),
            saved: FIRST_SAVED,
        }
    }

    // How many steps a search at this box of the problem may take, if one is made.
    fn steps_at(&mut self, problem: &Problem) -> Option<u64> {
        let paid = steps_of_box(problem);
        self.saved = self.saved.saturating_add(paid).min(MOST_SAVED);
        if self.saved <= 0 || !self.patience.is_due() {
            return None;
        }
        u64::try_from(self.saved).ok()
    }

    // Notes how many steps a search took, and whether it ended the state.
    fn note(&mut self, steps: u64, has_closed: bool) {
        let taken = i64::try_from(steps).unwrap_or(i64::MAX);
        self.saved = self.saved.saturating_sub(taken);
        self.patience.note(has_closed);
    }
}

// What may end the patch, of which the middle is known: proposals that take so many steps at most.
fn proposals(alloc: Global, patch: &Patch, most_steps: u64) -> Result<Proposals, AllocError> {
    let state = patch.reached();
    let boxed = Boxed {
        problem: patch.problem(),
        margin_bits: patch.margins().margin_bits,
        lits: state.lits(),
        space: state.space(),
        rows: patch.rows(),
        centre: &patch.centre().middle,
        most_steps,
    };
    Proposals::of(alloc, &boxed)
}

// Ends the patch by the first proposal that ends it; whether one does.
fn close_by(alloc: Global, proposals: &mut Proposals, patch: &mut Patch) -> Result<bool, AllocError>
    ensures continues { IfOk result (λ b. Continues patch.old patch.new) }
    ensures closed { IfOk result (λ b. b ≡ true → IsClosed patch.new.kept) }
    ensures same { IfOk result (λ b. b ≡ false → patch.new ≡ patch.old) }
{
    for _ in 0..MOST_PROPOSALS {
        let Some(proposal) = proposals.next(alloc)? else {
            return Ok(false);
        };
        let Proposal { pairs, blocks } = proposal;
        if attempt::squares(patch, pairs, blocks)? {
            return Ok(true);
        }
    }
    Ok(false)
}

/// Ends the patch by squares, where such an end is searched for and found; whether it does.
pub fn close_by_squares(
    alloc: Global,
    squaring: &mut Squaring,
    patch: &mut Patch,
) -> Result<bool, AllocError>
    ensures continues { IfOk result (λ b. Continues patch.old patch.new) }
    ensures closed { IfOk result (λ b. b ≡ true → IsClosed patch.new.kept) }
    ensures same { IfOk result (λ b. b ≡ false → patch.new ≡ patch.old) }
{
    if patch.margins().version < FIRST_VERSION {
        return Ok(false);
    }
    let Some(most_steps) = squaring.steps_at(patch.problem()) else {
        return Ok(false);
    };
    patch.find_centre();
    let mut proposals = proposals(alloc, patch, most_steps)?;
    let has_closed = close_by(alloc, &mut proposals, patch)?;
    squaring.note(proposals.steps(), has_closed);
    Ok(has_closed)
}
