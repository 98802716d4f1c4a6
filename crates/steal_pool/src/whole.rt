//! All hands of one pool, back in one thread.
ghost use Rattle.std.specs.Prelude.{◌≡◌, All, map};
ghost use Rattle.steal_pool.specs.Account.{account_of};
ghost use Rattle.steal_pool.specs.Gathering.{Fits, Absorbed, AllFit, AllAbsorbed, AreLawful};
ghost use Rattle.steal_pool.specs.Left.{times_left};
ghost use Rattle.steal_pool.specs.Pool.{IsPool};
ghost use Rattle.steal_pool.specs.PoolLaw.{PoolLaw, IsSettled, own_view, left_in};

use crate::deque::Link;
use crate::gathered::Gathered;
use crate::hand::Hand;

// Each deque takes in the link to it.
fn absorb_row(hands: &mut [Hand], mut row: Vec<Link>)
    requires { Fits hands.old row.items }
    ensures { Absorbed hands.old row.items hands.new }
{
    while let Some(link) = row.pop() {
        hands[row.len()].absorb(link);
    }
}

// Each deque's owner takes in what all hands took of it.
fn absorb_all(hands: &mut [Hand])
    requires { AllFit hands.old }
    ensures { AllAbsorbed hands.old hands.new }
{
    for j in 0..hands.len() {
        let row = hands[j].take_links();
        absorb_row(hands, row);
    }
}

// Each owner learns the law of its deque.
fn settle_all(hands: &mut [Hand])
    requires { All (λ h. (own_view h).parts ≡ 65) hands.old }
    ensures { AreLawful hands.old hands.new }
{
    for k in 0..hands.len() {
        hands[k].settle();
    }
}

// All links are taken in, and each owner learns the law of its deque.
fn gather_all(hands: &mut [Hand])
    requires { IsPool hands.old }
    ensures settled { All IsSettled hands.new }
    ensures law { PoolLaw (map account_of hands.old) (left_in (map own_view hands.new)) }
{
    absorb_all(hands);
    settle_all(hands);
}

/// Takes all hands of one pool back into one thread, for the ids that are left. It takes no memory.
pub fn gather(mut hands: Vec<Hand>) -> Gathered
    requires { IsPool hands.items }
    ensures { PoolLaw (map account_of hands.items) (times_left result) }
{
    gather_all(hands.as_mut_slice());
    Gathered::new(hands)
}
