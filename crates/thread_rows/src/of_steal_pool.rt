ghost use Rattle.std.specs.Prelude.{◌≡◌, ℕ, ◌+◌, ◌<◌, ◌≤◌, false, All, length, IfOk};
ghost use Rattle.steal_pool.specs.Account.{has_left, place_of};
ghost use Rattle.steal_pool.specs.Pool.{IsPool, IsNewPool, AllStay, SamePlaces};

use std::alloc::{AllocError, Global};
use std::sync::Wait;
use std::sync::atomic::{AtomicU64, Ordering};
use std::test::Fail;
use std::thread::{Threads, for_each_mut};
use steal_pool::{Hand, Pool, gather};

// What all hands took: how many ids, and their sum.
#[derive(Drop)]
struct Totals {
    count: AtomicU64,
    sum: AtomicU64,
}

fn take_all<R: Wait>(rt: &R, hand: &mut Hand, totals: &Totals)
    requires { has_left hand.old ≡ false }
    ensures place { place_of hand.new ≡ place_of hand.old }
    ensures stays { has_left hand.new ≡ false }
{
    for _ in rt.forever() {
        let Some(id) = hand.next(rt) else {
            return;
        };
        totals.count.fetch_add(1, Ordering::SeqCst);
        totals.sum.fetch_add(id as u64, Ordering::SeqCst);
    }
    unreachable!()
}

fn run_all<R: Threads + Wait + Sync>(rt: &R, hands: &mut [Hand], totals: &Totals)
    requires { IsPool hands.old × AllStay hands.old }
    ensures { SamePlaces hands.old hands.new }
{
    for_each_mut(rt, hands, 64, &|_, hand| take_all(rt, hand, totals));
}

fn push_at(hands: &mut [Hand], k: usize, id: u32) -> bool
    requires { (k < length hands.old) × IsPool hands.old × AllStay hands.old }
    ensures { IsPool hands.new × AllStay hands.new }
{
    hands[k].push(id).is_ok()
}

fn next_at<R: Wait>(rt: &R, hands: &mut [Hand], k: usize) -> Option<u32>
    requires { (k < length hands.old) × IsPool hands.old × AllStay hands.old }
    ensures { IsPool hands.new × AllStay hands.new }
{
    hands[k].next(rt)
}

// The last hand leaves, and the first one looks for work.
fn leave_then_next<R: Wait>(rt: &R, hands: &mut [Hand]) -> Option<u32>
    requires { (length hands.old ≡ 2) × IsPool hands.old × AllStay hands.old }
    ensures { IsPool hands.new }
{
    hands[1].leave();
    hands[0].next(rt)
}

// Two hands take what one of them pushed.
fn play_two<R: Wait>(
    rt: &R,
    hands: &mut [Hand],
) -> (bool, bool, Option<u32>, Option<u32>, Option<u32>)
    requires { (length hands.old ≡ 2) × IsPool hands.old × AllStay hands.old }
    ensures { IsPool hands.new }
{
    let seven = push_at(hands, 0, 7);
    let nine = push_at(hands, 0, 9);
    let stolen = next_at(rt, hands, 1);
    let popped = next_at(rt, hands, 0);
    (seven, nine, stolen, popped, leave_then_next(rt, hands))
}

// The first hand pushes the ids below `count`, then all take: how many were taken, their sum, and whether none was refused.
fn play_all<R: Threads + Wait + Sync>(rt: &R, hands: &mut [Hand], count: u32) -> (u64, u64, bool)
    requires { (0 < length hands.old) × IsPool hands.old × AllStay hands.old }
    ensures { IsPool hands.new }
{
    let totals = Totals {
        count: AtomicU64::new(0),
        sum: AtomicU64::new(0),
    };
    let mut pushed = true;
    for id in 0..count {
        pushed = push_at(hands, 0, id) && pushed;
    }
    run_all(rt, hands, &totals);
    let count = totals.count.load(Ordering::SeqCst);
    let sum = totals.sum.load(Ordering::SeqCst);
    (count, sum, pushed)
}

#[test]
fn two_hands(rt: HostRuntime) -> Result<(), Fail> {
    let mut hands = Pool::new(rt.alloc(), 2)?;
    let answers = play_two(&rt, hands.as_mut_slice());
    assert!(rt; answers == (true, true, Some(7), Some(9), None));
    assert!(rt; gather(hands).left().is_none());
    Ok(())
}

// A pool of `n` hands, of which the first pushes `count` ids and all take: how many were taken, their sum, and whether none was refused or left.
fn share_out<R: Threads + Wait + Sync>(
    rt: &R,
    alloc: Global,
    n: usize,
    count: u32,
) -> Result<(u64, u64, bool), AllocError>
    requires { (0 < n) × (n ≤ 64) }
{
    let mut hands = Pool::new(alloc, n)?;
    let (count, sum, pushed) = play_all(rt, hands.as_mut_slice(), count);
    let none_left = gather(hands).left().is_none();
    Ok((count, sum, pushed && none_left))
}

#[test]
fn four_hands(rt: HostRuntime) -> Result<(), Fail> {
    assert!(rt; share_out(&rt, rt.alloc(), 4, 100_000)? == (100_000, 4_999_950_000, true));
    Ok(())
}

#[test]
fn nothing_to_take(rt: HostRuntime) -> Result<(), Fail> {
    assert!(rt; share_out(&rt, rt.alloc(), 64, 0)? == (0, 0, true));
    Ok(())
}

// The ids of a hand that leaves at once are left, in their order.
fn leave_at_once(hands: &mut [Hand])
    requires { (0 < length hands.old) × IsPool hands.old × AllStay hands.old }
    ensures { IsPool hands.new }
{
    push_at(hands, 0, 3);
    push_at(hands, 0, 1);
    push_at(hands, 0, 3);
    hands[0].leave();
}

#[test]
fn leaves_at_once(rt: HostRuntime) -> Result<(), Fail> {
    let mut hands = Pool::new(rt.alloc(), 1)?;
    leave_at_once(hands.as_mut_slice());
    let mut gathered = gather(hands);
    assert!(rt; gathered.left() == Some(3));
    assert!(rt; gathered.left() == Some(1));
    assert!(rt; gathered.left() == Some(3));
    assert!(rt; gathered.left().is_none());
    Ok(())
}
