// States as a book keeps them.
ghost use Rattle.std.specs.Prelude.{◌≡◌, ◌↔◌, ◌≤◌, ◌-◌, length, map, take, drop, IfOk, IsTrue};
ghost use Rattle.std.specs.Arc.{arc_value};
ghost use Rattle.dyadic.specs.Views.{dyadic_of};
ghost use Rattle.ival.specs.SpaceViews.{space_of, domain_of};
ghost use Rattle.cover_data.specs.Stored.{joined, StandsAt};

use crate::has_marks::has_marks;
use crate::state::State;
use ival::{Domain, Range, Space};
use poly_graph::Lits;
use std::alloc::{AllocError, Global};
use std::marker::Model;
use std::sync::Arc;

// So many axes have a piece at most.
const MOST_AXES: usize = 16;

/// A state that is kept for later, in pieces of at most 16 axes. Pieces that are the same in several states are kept
/// once, so that a state takes little more memory than that in which it differs from the one that it came from.
#[derive(Drop)]
pub struct StoredState {
    pieces: Vec<Arc<Space, Global>, Global>,
    marks: Arc<Lits, Global>,
}

impl Model for StoredState {
    ghost use Rattle.cover_model.specs.State as cover;
    ghost use Rattle.std.specs.Prelude.{map};
    ghost use Rattle.std.specs.Arc.{arc_value};
    ghost use Rattle.cover_model.specs.State.{state_of};
    ghost use Rattle.cover_data.specs.Stored.{joined};

    ghost Value = { cover.State };

    ghost view = { λ s. state_of (joined (map arc_value s.pieces.items)) (arc_value s.marks) };
}

// Whether the spaces are the same; where it says no they may be.
fn is_same_space(space: &Space, other: &Space) -> bool
    ensures { IsTrue result → space_of space.now ≡ space_of other.now }
{
    if space.len() != other.len() {
        return false;
    }
    space.within(other) && other.within(space)
}

// Whether the marks are the same.
fn are_same_marks(marks: &Lits, others: &Lits) -> bool
    ensures { IsTrue result ↔ (marks.now ≡ others.now) }
{
    if marks.len() != others.len() {
        return false;
    }
    has_marks(marks.marks(), others.marks()) && has_marks(others.marks(), marks.marks())
}

// The piece itself, or what is kept where that is the same.
fn shared(
    alloc: Global,
    piece: Space,
    kept: Option<&Arc<Space, Global>>,
) -> Result<Arc<Space, Global>, AllocError>
    ensures { IfOk result (λ a. space_of (arc_value a) ≡ space_of piece) }
{
    if let Some(kept) = kept {
        if is_same_space(&piece, kept) {
            return Arc::try_clone(kept);
        }
    }
    Ok(Arc::new(alloc, piece)?)
}

// These axes of a space.
fn part_of(alloc: Global, space: &Space, from: usize, to: usize) -> Result<Space, AllocError>
    requires from { from ≤ to }
    requires to { to ≤ length (space_of space.now) }
    ensures { IfOk result (λ p. space_of p ≡ take (to - from) (drop from (space_of space.now))) }
{
    let axes = Vec::from_slice(alloc, &space.axes[from..to])?;
    Ok(Space { axes })
}

// The space in pieces, of which those of another state are shared that are the same.
fn pieces_of(
    alloc: Global,
    space: &Space,
    like: Option<&StoredState>,
) -> Result<Vec<Arc<Space, Global>, Global>, AllocError>
    ensures { IfOk result (λ v. joined (map arc_value v.items) ≡ space_of space.now) }
{
    let count = space.len().div_ceil(MOST_AXES);
    let mut pieces = Vec::with_capacity(alloc, count)?;
    for k in 0..count {
        let from = k * MOST_AXES;
        let to = (from + MOST_AXES).min(space.len());
        let part = part_of(alloc, space, from, to)?;
        let kept = match like {
            Some(like) => like.pieces.get(k),
            None => None,
        };
        pieces.push(shared(alloc, part, kept)?)?;
    }
    Ok(pieces)
}

// The space of these pieces.
fn whole(alloc: Global, pieces: &[Arc<Space, Global>]) -> Result<Space, AllocError>
    ensures { IfOk result (λ s. space_of s ≡ joined (map arc_value pieces.now)) }
{
    let mut axes = Vec::with_capacity(alloc, pieces.len().saturating_mul(MOST_AXES))?;
    for piece in pieces {
        axes.extend_from_slice(&piece.axes)?;
    }
    Ok(Space { axes })
}

// Whether the ranges are the same.
fn is_same_range(range: Range, other: Range) -> bool
    ensures { IsTrue result ↔
        (dyadic_of range.low ≡ dyadic_of other.low) ×
        (dyadic_of range.high ≡ dyadic_of other.high) }
{
    range.low == other.low && range.high == other.high
}

// Whether the domains are the same.
fn is_same_domain(domain: Domain, other: Domain) -> bool
    ensures { IsTrue result ↔ (domain_of domain ≡ domain_of other) }
{
    match (domain, other) {
        (Domain::Real(range), Domain::Real(other)) => is_same_range(range, other),
        (Domain::Bool(values), Domain::Bool(others)) => values == others,
        _ => false,
    }
}

// Whether the axes from this place on begin with those of the piece.
fn stands_at(space: &Space, from: usize, piece: &Space) -> bool
    requires { from ≤ length (space_of space.now) }
    ensures { IsTrue result ↔ StandsAt (space_of space.now) from (space_of piece.now) }
{
    if space.len() - from < piece.len() {
        return false;
    }
    for k in 0..piece.len() {
        if !is_same_domain(space.get(from + k), piece.get(k)) {
            return false;
        }
    }
    true
}

// Whether these are the pieces of the space.
fn are_pieces(pieces: &[Arc<Space, Global>], space: &Space) -> bool
    ensures { IsTrue result ↔ (joined (map arc_value pieces.now) ≡ space_of space.now) }
{
    let mut from = 0;
    for piece in pieces {
        if !stands_at(space, from, piece) {
            return false;
        }
        from += piece.len();
    }
    from == space.len()
}

// The marks, or those of another state where they are the same.
fn marks_of(
    alloc: Global,
    marks: &Lits,
    like: Option<&StoredState>,
) -> Result<Arc<Lits, Global>, AllocError>
    ensures { IfOk result (λ a. arc_value a ≡ marks.now) }
{
    if let Some(like) = like {
        if are_same_marks(marks, &like.marks) {
            return Arc::try_clone(&like.marks);
        }
    }
    Ok(Arc::new(alloc, marks.try_clone(alloc)?)?)
}

impl StoredState {
    /// The state to be kept, where one that is like it may be kept already: what is the same is kept once.
    pub fn new(
        alloc: Global,
        state: &State,
        like: Option<&StoredState>,
    ) -> Result<StoredState, AllocError>
        ensures { IfOk result (λ s. s ≡ state.now) }
    {
        let pieces = pieces_of(alloc, state.space(), like)?;
        let marks = marks_of(alloc, state.lits(), like)?;
        Ok(StoredState { pieces, marks })
    }

    /// Whether it is this state.
    pub fn is_same(&self, state: &State) -> bool
        ensures { IsTrue result ↔ (self.now ≡ state.now) }
    {
        are_same_marks(&self.marks, state.lits()) && are_pieces(&self.pieces, state.space())
    }

    /// The state, in memory of its own.
    pub fn state(&self, alloc: Global) -> Result<State, AllocError>
        ensures { IfOk result (λ s. s ≡ self.now) }
    {
        let space = whole(alloc, &self.pieces)?;
        let marks = self.marks.try_clone(alloc)?;
        Ok(State::new(space, marks))
    }
}
