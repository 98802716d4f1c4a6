// Books that open with the lemmas of another one.
ghost use Rattle.std.specs.Prelude.{◌≡◌, ◌≤◌, ◌-◌, ◌++◌, drop, length, map, replicate, IfOk};
ghost use Rattle.ival.specs.SpaceViews.{space_of};
ghost use Rattle.poly_graph.specs.Marks.{unmarked};
ghost use Rattle.poly_graph.specs.ProblemViews.{problem_of};
ghost use Rattle.cover_model.specs.Carried.{GoesOnFrom, carried};
ghost use Rattle.cover_model.specs.Root.{root_space};
ghost use Rattle.cert_model.specs.Due.{is_crossed_box};
ghost use Rattle.cover_book.specs.Limits.{IsWithinLimits};
ghost use Rattle.cover_book.specs.Model.{kept_from, lemma_states_in, opening_with, problem_in};

use crate::book::Book;
use cover_data::{State, StoredState};
use form_truth::{Root, root_space};
use ival::Space;
use poly_graph::{Lits, Problem};
use std::alloc::{AllocError, Global};

// The space, and behind it what the other one has on its further axes.
fn grown_space(space: Space, root: &Space) -> Result<Space, AllocError>
    requires { length (space_of space) ≤ length (space_of root.now) }
    ensures { IfOk result (λ s.
        space_of s ≡ space_of space ++ drop (length (space_of space)) (space_of root.now)) }
{
    let Space { axes } = space;
    let mut axes = axes;
    axes.extend_from_slice(&root.axes[axes.len()..])?;
    Ok(Space { axes })
}

// The marks, and none for the atoms behind them, of which there are so many in all.
fn grown_marks(alloc: Global, marks: &Lits, atoms: usize) -> Result<Lits, AllocError>
    requires few { atoms ≤ 65536 }
    requires atoms { length marks.now ≤ atoms }
    ensures { IfOk result (λ l.
        l ≡ marks.now ++ replicate (atoms - length marks.now) unmarked) }
{
    let mut grown = Lits::new(alloc, atoms)?;
    for j in 0..marks.len() {
        grown.set(j as u32, marks.mark(j as u32));
    }
    Ok(grown)
}

// The state in a problem that goes on from its own.
fn carried(
    alloc: Global,
    state: &StoredState,
    problem: &Problem,
    root: &Space,
) -> Result<State, AllocError>
    requires root { space_of root.now ≡ root_space (problem_of problem.now) }
    requires axes { length state.now.space ≤ length (space_of root.now) }
    requires atoms { length state.now.marks ≤ length problem.now.atoms }
    requires few { length problem.now.atoms ≤ 65536 }
    ensures { IfOk result (λ s. s ≡ carried (problem_of problem.now) state.now) }
{
    let (space, marks) = state.state(alloc)?.into_parts();
    let space = grown_space(space, root)?;
    let marks = grown_marks(alloc, &marks, problem.atoms().len())?;
    Ok(State::new(space, marks))
}

// All lemmas of the book as states of the problem, whose cover begins with `root`.
fn carried_lemmas(
    alloc: Global,
    old: &Book,
    problem: &Problem,
    root: &Space,
) -> Result<Vec<StoredState>, AllocError>
    requires on { GoesOnFrom (problem_in old.now) (problem_of problem.now) }
    requires root { space_of root.now ≡ root_space (problem_of problem.now) }
    requires few { length problem.now.atoms ≤ 65536 }
    ensures { IfOk result (λ v.
        v.items ≡ map (carried (problem_of problem.now)) (lemma_states_in old.now)) }
{
    let mut kept: Vec<StoredState> = Vec::new(alloc);
    for id in 0..old.lemma_count() as usize {
        let Some(lemma) = old.lemma_state(id) else {
            unreachable!();
        };
        let state = carried(alloc, lemma, problem, root)?;
        let stored = StoredState::new(alloc, &state, kept.last())?;
        kept.push(stored)?;
    }
    Ok(kept)
}

// Whether the declared box is empty.
fn is_crossed(alloc: Global, problem: &Problem) -> Result<bool, AllocError>
    ensures { IfOk result (λ c. c ≡ is_crossed_box (problem_of problem.now)) }
{
    match root_space(alloc, problem)? {
        Root::Empty(_) => Ok(true),
        Root::Space(_) => Ok(false),
    }
}

// The lemmas of the book that one for the problem opens with.
fn kept_lemmas(alloc: Global, old: &Book, problem: &Problem) -> Result<Vec<StoredState>, AllocError>
    requires on { GoesOnFrom (problem_in old.now) (problem_of problem.now) }
    requires few { length problem.now.atoms ≤ 65536 }
    ensures { IfOk result (λ v. v.items ≡ kept_from old.now problem.now) }
{
    if old.point().is_some() || is_crossed(alloc, old.problem())? {
        return Ok(Vec::new(alloc));
    }
    match root_space(alloc, problem)? {
        Root::Empty(_) => Ok(Vec::new(alloc)),
        Root::Space(root) => carried_lemmas(alloc, old, problem, &root),
    }
}

impl Book {
    /// The book for a problem that goes on from that of the old one, with the old options and with the lemmas of the old
    /// one, in which each new axis has its whole domain. It has none of them where the old one keeps a point, or where
    /// one of the two declared boxes is empty.
    pub fn carry(alloc: Global, old: &Book, problem: Problem) -> Result<Book, AllocError>
        requires limits { IsWithinLimits problem old.now.options }
        requires on { GoesOnFrom (problem_in old.now) (problem_of problem) }
        ensures { IfOk result (λ b.
            b ≡ opening_with problem old.now.options (kept_from old.now problem)) }
    {
        let kept = kept_lemmas(alloc, old, &problem)?;
        Book::opened(alloc, problem, *old.options(), kept)
    }
}
