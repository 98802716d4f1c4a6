//! A hand: a deque of its own, links to all deques of the pool, and a seat at the count of those that rest.
ghost use Rattle.std.specs.Prelude.{◌≡◌, ℕ, List, ◌+◌, ◌<◌, ◌≤◌, ◌++◌, ◌∷◌, [], length, true, false, IfSome, IfNone, MatchOption, IfOk, IfErr, OnOk};
ghost use Rattle.std.specs.Bool.{OnTrue};
ghost use Rattle.crossbeam_deque.specs.Handles.{worker_view, worker_deque, stealer_deque};
ghost use Rattle.steal_pool.specs.Bits.{bit_of};
ghost use Rattle.steal_pool.specs.Law.{DequeLaw, NoneLeft, TakesLeft};
ghost use Rattle.steal_pool.specs.Links.{AllAlike, AllLookedInVain, Steals};
ghost use Rattle.steal_pool.specs.Count.{one_resting};

use crate::count::CountSeat;
use crate::deque::{Link, OwnDeque};
use crossbeam_deque::Steal;
use crossbeam_utils::Backoff;
use std::alloc::{AllocError, Global};
use std::mem;
use std::sync::Wait;
use std::time::Duration;

// The first sleep of a resting hand, and the longest, in microseconds.
const SHORTEST: u64 = 32;

const LONGEST: u64 = 1024;

// How a hand waits at rest: longer each time.
#[derive(Drop)]
struct Pause {
    backoff: Backoff,
    micros: u64,
}

impl Pause {
    fn new() -> Pause {
        Pause {
            backoff: Backoff::new(),
            micros: SHORTEST,
        }
    }

    fn wait<R: Wait>(&mut self, rt: &R, count: &CountSeat, resting: u64)
        requires { resting ≤ 64 }
    {
        if self.backoff.is_completed() {
            count.sleep(rt, resting, Duration::from_micros(self.micros));
            self.micros = self.micros.saturating_mul(2).min(LONGEST);
        } else {
            self.backoff.snooze();
        }
    }
}

/// One of the hands of a pool, for one thread.
#[derive(Drop)]
pub struct Hand {
    own: OwnDeque,
    links: Vec<Link>,
    count: CountSeat,
    // The deque at which it begins to look.
    start: usize,
    at_rest: bool,
    left: bool,
    ghost part: { count.seat.me.0.parts ≡ 1 },
    ghost rests: { count.seat.me.0.resting ≡ bit_of at_rest },
}

// Looks at one deque until it is found empty or an id is stolen.
fn steal_at<R: Wait>(rt: &R, links: &mut [Link], k: usize) -> Option<u32>
    requires { k < length links.old }
    ensures { MatchOption result
        (AllLookedInVain links.old links.new k (k + 1))
        (λ x. Steals links.old links.new x) }
{
    for _ in rt.forever() {
        match links[k].steal() {
            Steal::Success(id) => return Some(id),
            Steal::Empty => return None,
            Steal::Retry => {}
        }
    }
    unreachable!()
}

// Looks at the deques from one on and below another.
fn steal_within<R: Wait>(rt: &R, links: &mut [Link], from: usize, to: usize) -> Option<u32>
    requires { (from ≤ to) × (to ≤ length links.old) }
    ensures { MatchOption result
        (AllLookedInVain links.old links.new from to)
        (λ x. Steals links.old links.new x) }
{
    for k in from..to {
        if let Some(id) = steal_at(rt, links, k) {
            return Some(id);
        }
    }
    None
}

// Looks at all deques, from `start` on.
fn steal_any<R: Wait>(rt: &R, links: &mut [Link], start: usize) -> Option<u32>
    ensures { MatchOption result
        (AllLookedInVain links.old links.new 0 (length links.old))
        (λ x. Steals links.old links.new x) }
{
    let start = start.min(links.len());
    if let Some(id) = steal_within(rt, links, start, links.len()) {
        return Some(id);
    }
    steal_within(rt, links, 0, start)
}

impl Hand {
    ghost use Rattle.steal_pool.specs.Account.{account_of, place_of, room_of, has_left, last_read, hands_beside, Takes, FoundNothing};
    ghost use Rattle.steal_pool.specs.NewPool.{IsNew, IsLinked, LosesPart};
    ghost use Rattle.steal_pool.specs.Gathering.{TakenIn};
    ghost use Rattle.steal_pool.specs.Turns.{ChangesRest, ReadsCount, TakesNothing, LooksInVain, TakesOne};

    /// A hand at rest, with an empty deque and no links.
    pub(crate) fn new(alloc: Global, count: CountSeat, start: usize) -> Result<Hand, AllocError>
        requires { count.seat.me.0 ≡ one_resting }
        ensures { IfOk result IsNew }
    {
        Ok(Hand {
            own: OwnDeque::new(alloc)?,
            links: Vec::new(alloc),
            count,
            start,
            at_rest: true,
            left: false,
        })
    }

    /// A link to this hand's deque.
    pub(crate) fn link(&mut self) -> Result<Link, AllocError>
        requires { 1 < (worker_view self.old.own.worker).parts }
        ensures link { IfOk result (IsLinked self.old) }
        ensures hand { IfOk result (λ _. LosesPart self.old self.new) }
    {
        let notes = self.count.link_seat()?;
        self.own.link(notes)
    }

    pub(crate) fn set_links(&mut self, links: Vec<Link>)
        ensures own { self.new.own ≡ self.old.own }
        ensures links { self.new.links ≡ links }
        ensures left { self.new.left ≡ self.old.left }
    {
        self.links = links;
    }

    /// The links, which the hand then has no more.
    pub(crate) fn take_links(&mut self) -> Vec<Link>
        ensures links { result ≡ self.old.links }
        ensures own { self.new.own ≡ self.old.own }
    {
        let none = Vec::new(*self.links.allocator());
        mem::replace(&mut self.links, none)
    }

    /// Takes in what was taken through a link to this hand's deque.
    pub(crate) fn absorb(&mut self, link: Link)
        requires { stealer_deque link.stealer ≡ worker_deque self.old.own.worker }
        ensures { TakenIn self.old link self.new }
    {
        self.own.absorb(link);
    }

    /// Learns the law of this hand's deque, where all links are taken in.
    pub(crate) fn settle(&mut self)
        requires { (worker_view self.old.own.worker).parts ≡ 65 }
        ensures view { worker_view self.new.own.worker ≡ worker_view self.old.own.worker }
        ensures law { let v = worker_view self.old.own.worker in
            (items : List ℕ) × DequeLaw v.put v.taken v.joined items }
    {
        self.own.settle();
    }

    /// Takes the first id that is left in this hand's deque, where all links are taken in.
    pub(crate) fn take_left(&mut self) -> Option<u32>
        requires { (worker_view self.old.own.worker).parts ≡ 65 }
        ensures { let v = worker_view self.old.own.worker in
            MatchOption result
            ((worker_view self.new.own.worker ≡ v) × NoneLeft v)
            (λ x. TakesLeft v (x ∷ []) (worker_view self.new.own.worker)) }
    {
        self.own.take_left()
    }

    fn wake(&mut self)
        ensures same { ChangesRest self.old self.new }
        ensures awake { self.new.at_rest ≡ false }
    {
        if self.at_rest {
            self.count.wake();
            self.at_rest = false;
        }
    }

    fn rest(&mut self)
        requires { self.old.at_rest ≡ false }
        ensures { ChangesRest self.old self.new }
    {
        let resting = self.count.rest();
        self.at_rest = true;
        if resting == self.links.len() as u64 {
            self.count.rouse();
        }
    }

    // The first id of the hand's own deque, else one that is stolen.
    fn take_or_steal<R: Wait>(&mut self, rt: &R) -> Option<u32>
        ensures { MatchOption result
            (LooksInVain self.old self.new)
            (λ x. TakesOne x self.old self.new) }
    {
        if let Some(id) = self.own.take() {
            return Some(id);
        }
        steal_any(rt, self.links.as_mut_slice(), self.start)
    }

    // Waits for a while, unless all hands rest. Whether they do.
    fn all_rest<R: Wait>(&mut self, rt: &R, pause: &mut Pause) -> bool
        ensures same { ReadsCount self.old self.new }
        ensures all { OnTrue result (last_read self.new ≡ hands_beside self.old) }
    {
        let hands = self.links.len() as u64;
        let resting = self.count.resting();
        if resting == hands {
            return true;
        }
        pause.wait(rt, &self.count, resting);
        self.count.resting() == hands
    }

    /// The first id of the hand's own deque, else the first of another's, which it steals.
    /// A hand that finds none rests, and waits longer each time before it wakes to look again.
    /// `None` comes only where every deque was found empty and then all hands rested.
    pub fn next<R: Wait>(&mut self, rt: &R) -> Option<u32>
        requires { has_left self.old ≡ false }
        ensures some { IfSome result (λ x. Takes x (account_of self.old) (account_of self.new)) }
        ensures none { IfNone result (FoundNothing self.old self.new) }
        ensures place { place_of self.new ≡ place_of self.old }
        ensures stays { has_left self.new ≡ false }
    {
        let mut pause = Pause::new();
        for _ in rt.forever() {
            self.wake();
            if let Some(id) = self.take_or_steal(rt) {
                return Some(id);
            }
            self.rest();
            if self.all_rest(rt, &mut pause) {
                return None;
            }
        }
        unreachable!()
    }

    /// Adds an id at the back of the hand's own deque.
    /// The id comes back, not added, only where as many were added before as the hand has room for.
    pub fn push(&mut self, id: u32) -> Result<(), u32>
        requires { has_left self.old ≡ false }
        ensures pushed { let a = account_of self.old in
            OnOk result (account_of self.new ≡ record a { pushed = a.pushed ++ id ∷ [] }) }
        ensures refused { IfErr result (λ x. (x ≡ id) × (account_of self.new ≡ account_of self.old)
            × (room_of self.old ≤ length (account_of self.old).pushed)) }
        ensures place { place_of self.new ≡ place_of self.old }
        ensures stays { has_left self.new ≡ false }
    {
        self.own.push(id)
    }

    /// Rests for good.
    pub fn leave(&mut self)
        requires { has_left self.old ≡ false }
        ensures left { has_left self.new ≡ true }
        ensures account { account_of self.new ≡ account_of self.old }
        ensures place { place_of self.new ≡ place_of self.old }
    {
        self.left = true;
        if !self.at_rest {
            self.rest();
        }
    }

    /// Whether the hand's own deque looks empty just now, without a promise.
    pub fn looks_empty(&mut self) -> bool
        ensures account { account_of self.new ≡ account_of self.old }
        ensures place { place_of self.new ≡ place_of self.old }
        ensures stays { has_left self.new ≡ has_left self.old }
    {
        self.own.looks_empty()
    }
}
