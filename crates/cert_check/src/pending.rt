// The states of a tree that wait, of which the next one is whole, and of the others what makes them of the one above.
ghost use Rattle.std.specs.Prelude.{◌≡◌, ◌<◌, ◌-◌, ◌^◌, ◌∷◌, length, reverse, IfOk};
ghost use Rattle.cert_check.specs.States.{state_of};
ghost use Rattle.cert_check.specs.Behind.{below_of, pending_of, stack};

use crate::changes::{Changes, difference};
use crate::state::State;
use std::alloc::{AllocError, Global};

/// A state below another one.
#[derive(Drop)]
pub enum Below {
    /// The state itself, where it is not of the same problem.
    Whole(State),
    /// What makes it of the one above.
    Changed(Changes),
}

/// The second states of branches whose first child is in work.
#[derive(Drop)]
pub enum Pending {
    Empty,
    /// The next state, and those below it, the nearest one last.
    Next(State, Vec<Below>),
}

// The lower state as it is kept below the upper one.
fn put_below(alloc: Global, upper: &State, lower: State) -> Result<Below, AllocError>
    ensures { IfOk result (λ b. below_of b (state_of upper.now) ≡ state_of lower) }
{
    match difference(alloc, upper, &lower)? {
        None => Ok(Below::Whole(lower)),
        Some(changes) => Ok(Below::Changed(changes)),
    }
}

// The state that is kept below the upper one.
fn made(alloc: Global, upper: &State, below: Below) -> Result<State, AllocError>
    ensures { IfOk result (λ s. state_of s ≡ below_of below (state_of upper.now)) }
{
    match below {
        Below::Whole(state) => Ok(state),
        Below::Changed(changes) => changes.apply(alloc, upper),
    }
}

/// The states below this one, of which the last of these is the nearest.
pub fn behind(alloc: Global, upper: &State, below: Vec<Below>) -> Result<Pending, AllocError>
    ensures { IfOk result (λ p.
        stack (state_of upper.now) (reverse below.items) ≡ state_of upper.now ∷ pending_of p) }
{
    let mut below = below;
    match below.pop() {
        None => Ok(Pending::Empty),
        Some(nearest) => {
            let state = made(alloc, upper, nearest)?;
            Ok(Pending::Next(state, below))
        }
    }
}

/// These states behind one more, which is the next one.
pub fn wait(alloc: Global, pending: Pending, state: State) -> Result<Pending, AllocError>
    ensures { IfOk result (λ p. pending_of p ≡ state_of state ∷ pending_of pending) }
{
    match pending {
        Pending::Empty => Ok(Pending::Next(state, Vec::new(alloc))),
        Pending::Next(lower, below) => {
            let mut below = below;
            below.push(put_below(alloc, &state, lower)?)?;
            Ok(Pending::Next(state, below))
        }
    }
}

impl Pending {
    /// How many states wait.
    #[tactic(auto, using(crate::proofs::Behind::length_waiting))]
    pub fn len(&self) -> usize
        ensures count { result ≡ length (pending_of self.now) }
        ensures fits { result < 2 ^ 64 - 1 }
    {
        match self {
            Pending::Empty => 0,
            Pending::Next(_, below) => below.len() + 1,
        }
    }
}
