//! What is left in the deques of all hands of a pool, which are back in one thread.
ghost use Rattle.std.specs.Prelude.{◌≡◌, ◌↔◌, ℕ, ◌+◌, [], ◌∷◌, All, IfSome, IfNone, IsNone, MatchOption};
ghost use Rattle.steal_pool.specs.Gathering.{AllEmptied, TakesFirstLeft};
ghost use Rattle.steal_pool.specs.PoolLaw.{IsSettled, times};

use crate::hand::Hand;

/// All hands of one pool, which have taken in what the others took.
#[derive(Drop)]
pub struct Gathered {
    hands: Vec<Hand>,
    ghost settled: { All IsSettled hands.items },
}

// Takes the first id of the first deque that is not empty.
fn take_first_left(hands: &mut [Hand]) -> Option<u32>
    requires { All IsSettled hands.old }
    ensures { MatchOption result
        (AllEmptied hands.old hands.new)
        (λ x. TakesFirstLeft x hands.old hands.new) }
{
    for k in 0..hands.len() {
        if let Some(id) = hands[k].take_left() {
            return Some(id);
        }
    }
    None
}

impl Gathered {
    ghost use Rattle.steal_pool.specs.Left.{times_left};

    pub(crate) fn new(hands: Vec<Hand>) -> Gathered
        requires { All IsSettled hands.items }
        ensures { result.hands ≡ hands }
    {
        Gathered { hands }
    }

    /// One of the ids that are left. `None` comes exactly where none is left.
    pub fn left(&mut self) -> Option<u32>
        ensures some { IfSome result (λ x. (y : ℕ) →
            times_left self.old y ≡ times y (x ∷ []) + times_left self.new y) }
        ensures none { IsNone result ↔ ((y : ℕ) → times_left self.old y ≡ 0) }
        ensures same { IfNone result ((y : ℕ) → times_left self.new y ≡ times_left self.old y) }
    {
        take_first_left(self.hands.as_mut_slice())
    }
}
