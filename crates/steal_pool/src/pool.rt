//! A pool is made.
ghost use Rattle.std.specs.Prelude.{◌≡◌, List, ◌<◌, ◌≤◌, All, length, vec_len, IfOk};
ghost use Rattle.steal_pool.specs.NewPool.{IsNew, LinkedHands, AllLosePart, HavePartsOver};
ghost use Rattle.steal_pool.specs.Pool.{AreLinked, IsNewPool, IsPool, SamePlaces};

use crate::count::CountSeat;
use crate::deque::Link;
use crate::hand::Hand;
use std::alloc::{AllocError, Global};

fn make_hands(alloc: Global, n: usize) -> Result<Vec<Hand>, AllocError>
    requires { (0 < n) × (n ≤ 64) }
    ensures { IfOk result (λ v. (vec_len v ≡ n) × All IsNew v.items) }
{
    let mut hands = Vec::with_capacity(alloc, n)?;
    let mut lead = CountSeat::new(alloc, n as u64)?;
    for start in 1..n {
        hands.push_reserved(Hand::new(alloc, lead.hand_seat()?, start)?);
    }
    hands.push_reserved(Hand::new(alloc, lead, n)?);
    Ok(hands)
}

// A link to the deque of each hand, in their order.
fn link_hands(alloc: Global, hands: &mut [Hand]) -> Result<Vec<Link>, AllocError>
    requires { HavePartsOver hands.old 1 }
    ensures { IfOk result (λ l. LinkedHands hands.old l.items × AllLosePart hands.old hands.new) }
{
    let mut links = Vec::with_capacity(alloc, hands.len())?;
    for i in 0..hands.len() {
        links.push_reserved(hands[i].link()?);
    }
    Ok(links)
}

fn link_pool(alloc: Global, hands: &mut [Hand]) -> Result<(), AllocError>
    requires { (length hands.old ≤ 64) × All IsNew hands.old }
    ensures { IfOk result (λ _. AreLinked (length hands.old) hands.new) }
{
    for j in 0..hands.len() {
        let row = link_hands(alloc, hands)?;
        hands[j].set_links(row);
    }
    Ok(())
}

/// A pool of hands.
pub struct Pool;

impl Pool {
    /// The hands of a new pool, all at rest. Each has a link to each deque.
    pub fn new(alloc: Global, n: usize) -> Result<Vec<Hand>, AllocError>
        requires { (0 < n) × (n ≤ 64) }
        ensures { IfOk result (λ v. IsNewPool n v.items) }
    {
        let mut hands = make_hands(alloc, n)?;
        link_pool(alloc, hands.as_mut_slice())?;
        Ok(hands)
    }
}

/// Hands of a pool are still its hands after calls that keep their places, as `push`, `next` and `leave` do.
#[tactic(auto, using(crate::proofs::Places::still_pool))]
pub fn same_places_are_pool()
    ensures { (hands hands' : List Hand) → IsPool hands → SamePlaces hands hands' → IsPool hands' }
{}
