// The joined certificate, written and checked in pieces.
ghost use Rattle.cert_join.specs.Drafting.{JoinsAll, Keeps, Puts, Reads, Runs, Steps};

use crate::joiner::{Joiner, ROOM, Step};
use crate::stop::{Stop, Unjoined};
use cert_check::{CertFault, Feed};
use desk::{Denied, Desk, Port, write_whole};
use std::alloc::Global;

// The most bytes that are read of a certificate at once.
const PIECE: usize = 4096;

/// What is said of certificates that were joined.
#[derive(Clone, Copy, Debug, PartialEq, Eq)]
pub struct Joined {
    /// Whether lines of a certificate were dropped that no other has: those of a tree that was not taken, of a second
    /// tree of a lemma, or one that says that a state is stuck; or one was gone through that no accepted certificate has.
    /// They were not checked.
    pub dropped: bool,
}

// Writes the text and gives it to the checker.
fn put<D: Desk>(desk: &mut D, feed: &mut Feed<'_>, text: &[u8]) -> Result<(), Stop>
    ensures { Puts text.now (D.sight desk.old) feed.old result (D.sight desk.new) feed.new }
{
    match write_whole(desk, Port::Draft, text) {
        Ok(()) => {}
        Err(Denied::Failed) => return Err(Stop::Denied),
        Err(Denied::Memory) => return Err(Stop::Memory),
    }
    match feed.piece(text) {
        Ok(()) => Ok(()),
        Err(CertFault::Memory) => Err(Stop::Memory),
        Err(fault) => Err(Stop::Refused(fault)),
    }
}

// Reads more of a certificate.
fn read<D: Desk>(desk: &mut D, joiner: &mut Joiner, part: usize) -> Result<(), Stop>
    ensures reads { Reads (D.sight desk.old) result (D.sight desk.new) }
    ensures keeps { Keeps (D.sight desk.old) joiner.old result joiner.new }
{
    let mut piece = [0u8; PIECE];
    let n = match desk.read_at(part, joiner.place(part), &mut piece) {
        Ok(n) => n,
        Err(_) => return Err(Stop::Failed),
    };
    match joiner.give(part, &piece[..n]) {
        Ok(()) => Ok(()),
        Err(_) => Err(Stop::Memory),
    }
}

// One step of the joiner: what it appends is written once that is much, or all. Says whether all is joined.
fn step<D: Desk>(
    desk: &mut D,
    feed: &mut Feed<'_>,
    joiner: &mut Joiner,
    text: &mut Vec<u8>,
) -> Result<bool, Stop>
    ensures { Steps text.old.items joiner.old (D.sight desk.old) feed.old result
        text.new.items joiner.new (D.sight desk.new) feed.new }
{
    match joiner.step(text) {
        Ok(Step::Read(part)) => match read(desk, joiner, part) {
            Ok(()) => Ok(false),
            Err(stop) => Err(stop),
        },
        Ok(Step::On) if text.len() < ROOM => Ok(false),
        Ok(Step::On) => match put(desk, feed, text) {
            Ok(()) => {
                text.clear();
                Ok(false)
            }
            Err(stop) => Err(stop),
        },
        Ok(Step::Over) => match put(desk, feed, text) {
            Ok(()) => {
                text.clear();
                Ok(true)
            }
            Err(stop) => Err(stop),
        },
        Err(Unjoined::Memory) => Err(Stop::Memory),
        Err(Unjoined::Unlike) => Err(Stop::Unlike),
        Err(Unjoined::Crowded) => Err(Stop::Crowded),
    }
}

// Joins until all is joined.
fn run<D: Desk>(
    desk: &mut D,
    feed: &mut Feed<'_>,
    joiner: &mut Joiner,
    text: &mut Vec<u8>,
) -> Result<Joined, Stop>
    ensures { Runs text.old.items joiner.old (D.sight desk.old) feed.old result
        text.new.items joiner.new (D.sight desk.new) feed.new }
{
    for _ in 0..u64::MAX {
        match step(desk, feed, joiner, text) {
            Ok(false) => {}
            Ok(true) => {
                let dropped = joiner.dropped();
                return Ok(Joined { dropped });
            }
            Err(stop) => return Err(stop),
        }
    }
    // No machine makes so many steps. What runs out then is answered as memory is.
    Err(Stop::Memory)
}

/// Joins the certificates on the desk's parts, of which there are so many: what is joined is drafted and given to the feed,
/// which is one of certificates of their problem and bound.
///
/// # Errors
/// A certificate could not be read or the draft not written, there was no memory, the certificates have different headers or
/// too many lemmas, or the feed refuses what is joined.
pub fn join<D: Desk>(
    alloc: Global,
    desk: &mut D,
    count: usize,
    feed: &mut Feed<'_>,
) -> Result<Joined, Stop>
    ensures { JoinsAll count (D.sight desk.old) feed.old result (D.sight desk.new) feed.new }
{
    let Ok(mut joiner) = Joiner::new(alloc, count) else {
        return Err(Stop::Memory);
    };
    let mut text: Vec<u8> = Vec::new(alloc);
    run(desk, feed, &mut joiner, &mut text)
}
